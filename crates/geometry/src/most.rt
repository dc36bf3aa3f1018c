// M of a component: the largest magnitude that an offset of it is coded with.

ghost use Rattle.std.specs.Prelude.{◌≡◌, ◌<◌};
ghost use Rattle.standard.specs.Sets.{largest, depth_in, most};

use super::coded_depth;
use standard::Switches;

#[derive(Clone, Copy)]
pub struct Most {
    pub value: u32,
    ghost below: { value < 32 },
}

// 2 to the power of ( Min( bitDepth, 10 ) - 5 ), minus 1 (9.3.3); below 5 bits it is 0.
#[tactic(auto, using(standard::proofs::Depths::one_shifted), unfolding(standard::specs::Sets::largest))]
fn largest_magnitude(depth: u32) -> u32
    ensures { result ≡ largest depth }
{
    (1u32 << coded_depth(depth).saturating_sub(5)) - 1
}

// One of three fields by number, as `component_of` in `filtering` is of another type: definitions name both by field.
fn depth_in(s: Switches, component: u8) -> u32
    ensures { result ≡ depth_in s component }
{
    match component {
        0 => s.y,
        1 => s.cb,
        _ => s.cr,
    }
}

#[tactic(auto, using(standard::proofs::Depths::largest_at_most_31))]
pub fn most_of(s: Switches, component: u8) -> Most
    ensures { result.value ≡ most s component }
{
    Most {
        value: largest_magnitude(depth_in(s, component)),
    }
}
