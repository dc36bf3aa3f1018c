// The marks of CTBs: that of one, and scans of several.
#![tactic(auto)]

ghost use Rattle.std.specs.Prelude.{◌≡◌, ℕ, ◌≤◌, ◌<◌, length, slice_index};
ghost use Rattle.standard.specs.Refusals.{Tells};
ghost use Rattle.standard.specs.Reasons.{MarksFit, mark_of};
ghost use Rattle.marks.specs.Marks.{Outside, SomeOutside, LeadingInside};

use geometry::Block;

// The mark of a CTB. That marks fit the picture is asked, here and in the calls: a type of both would hold the picture once more,
// and a clause would have to say that it is the block's. It is so with planes and the table.
pub fn mark_of(block: Block, marks: &[u8]) -> u8
    requires { MarksFit block.of.picture marks.now }
    ensures { result ≡ mark_of block.of.picture marks.now block.component block.ctb }
{
    marks[block.mark_place()]
}

// The marks that a scan passes over: those from low to high.
#[derive(Clone, Copy)]
pub struct Allowed {
    pub low: u8,
    pub high: u8,
}

impl Allowed {
    // Whether a mark is outside.
    fn bars(self, mark: u8) -> bool
        ensures { Tells (Outside self.low self.high mark) result }
    {
        mark < self.low || self.high < mark
    }
}

// ---- of a few marks, one by one

// How many stand before the first that is outside.
fn leading_inside(marks: &[u8], allowed: Allowed) -> usize
    ensures { LeadingInside allowed.low allowed.high marks.now result }
{
    marks
        .iter()
        .position(|m| allowed.bars(*m))
        .unwrap_or(marks.len())
}

// Whether one is outside.
pub fn some_outside(marks: &[u8], allowed: Allowed) -> bool
    ensures { Tells (SomeOutside allowed.low allowed.high marks.now) result }
{
    marks.iter().any(|m| allowed.bars(*m))
}

// ---- of many, by vector code

// Whether one of them is outside. The fold has no exit: with one, it would not become vector code.
pub fn some_of_many(marks: &[u8], allowed: Allowed) -> bool
    ensures { Tells (SomeOutside allowed.low allowed.high marks.now) result }
{
    marks.iter().fold(false, |some, m| some | allowed.bars(*m))
}

// Marks that are looked at together: fewer, and their loop is unrolled and becomes worse code.
const CHUNK: usize = 64;

// How many stand in the chunks before the first chunk that has one outside.
fn leading_chunks(marks: &[u8], allowed: Allowed) -> usize
    ensures within { result ≤ length marks.now }
    ensures inside { (j : ℕ) → j < result → ¬ Outside allowed.low allowed.high (slice_index marks.now j) }
{
    let passed = marks
        .chunks_exact(CHUNK)
        .take_while(|chunk| !some_of_many(chunk, allowed))
        .count();
    passed * CHUNK
}

// How many stand before the first that is outside: in its chunk they are looked at again, one by one.
pub fn leading_of_many(marks: &[u8], allowed: Allowed) -> usize
    ensures { LeadingInside allowed.low allowed.high marks.now result }
{
    let k = leading_chunks(marks, allowed);
    k + leading_inside(&marks[k..], allowed)
}
