// What a component's width and height are divided by.

ghost use Rattle.std.specs.Prelude.{◌≡◌, ◌<◌};
ghost use Rattle.standard.specs.Picture.{divisors};

#[derive(Clone, Copy)]
pub struct Divisors {
    pub across: usize,
    pub down: usize,
    ghost some_across: { 0 < across },
    ghost some_down: { 0 < down },
}

// The one place where the chroma formats differ.
#[tactic(auto, using(standard::proofs::Divisors::of_luma_lem, standard::proofs::Divisors::of_420, standard::proofs::Divisors::of_422, standard::proofs::Divisors::of_444))]
pub fn divisors_of(format: u8, component: u8) -> Divisors
    ensures across { result.across ≡ (divisors format component).0 }
    ensures down { result.down ≡ (divisors format component).1 }
{
    if component == 0 {
        return Divisors { across: 1, down: 1 };
    }
    match format {
        1 => Divisors { across: 2, down: 2 },
        2 => Divisors { across: 2, down: 1 },
        _ => Divisors { across: 1, down: 1 },
    }
}
