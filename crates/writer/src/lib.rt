// Writes a CTU's set as bins at the front of lent bytes: a merge to the left if that set is equal, else
// a merge upwards, else the full form. The bins are counted before any is put, so that bytes which
// cannot hold them all are left as they were. The set need not be within the rules.
#![tactic(auto)]

ghost use Rattle.std.specs.Prelude.{◌≡◌, Some as some, length};
ghost use Rattle.standard.specs.Bins.{full};
ghost use Rattle.standard.specs.Means.{not_taken};
ghost use Rattle.standard.specs.Refusals.{Tells};
ghost use Rattle.writer.specs.Forms.{Meant, Choice, shape_bins};
ghost use Rattle.writer.specs.Outcome.{WritesSet};

use sink::{Bytes, Count, Put, Sink};
use standard::{CtuSet, Switches};

// What the bins of a CTU depend on: the switches, and the sets of the neighbours that a merge may reach.
#[derive(Clone, Copy)]
pub struct Ctu {
    pub switches: Switches,
    pub left: Option<CtuSet>,
    pub up: Option<CtuSet>,
}

// The shapes of a CTU's bins: none, a merge, or the full form.
#[derive(Clone, Copy)]
pub enum Shape {
    Empty,
    Left,
    Up,
    Full,
}

// The bytes cannot hold the bins.
#[derive(Clone, Copy, PartialEq, Eq)]
pub struct NoRoom;

// ---- which shape

fn is_copy(near: Option<CtuSet>, q: CtuSet) -> bool
    ensures { Tells (near ≡ some q) result }
{
    near.is_some_and(|n| sets::same_set(n, q))
}

impl Ctu {
    // A merge to the left has one bin, so it goes before a merge upwards, which has two where there is a
    // left neighbour.
    fn choose(self, q: CtuSet) -> Shape
        ensures { Choice self.switches self.left self.up q result }
    {
        if !geometry::any_on(self.switches) {
            return Shape::Empty;
        }
        if is_copy(self.left, q) {
            return Shape::Left;
        }
        if is_copy(self.up, q) {
            return Shape::Up;
        }
        Shape::Full
    }

    // Whether some bins mean the set: it is within the rules, or a merge copies it.
    pub fn has_bins(self, q: CtuSet) -> bool
        ensures { Tells (Meant self.switches self.left self.up q) result }
    {
        sets::is_valid(self.switches, q)
            || geometry::any_on(self.switches) && (is_copy(self.left, q) || is_copy(self.up, q))
    }
}

// ---- the bins, counted or put

#[tactic(auto, unfolding(standard::specs::Bins::fixed_length))]
fn not_taken<S: Sink>(to: &mut S, near: Option<CtuSet>)
    requires { S.has_room to.old (length (not_taken near)) }
    ensures { S.takes to.old (not_taken near) to.new }
{
    if near.is_some() {
        to.bits(1, 0);
    }
}

#[tactic(auto, unfolding(standard::specs::Bins::full))]
fn full<S: Sink>(to: &mut S, s: Switches, q: CtuSet)
    requires { S.has_room to.old (length (full s q)) }
    ensures { S.takes to.old (full s q) to.new }
{
    sink::luma(to, s.luma, geometry::most_of(s, 0), q.luma);
    sink::chroma(
        to,
        s.chroma,
        geometry::most_of(s, 1),
        q.cb,
        geometry::most_of(s, 2),
        q.cr,
    );
}

impl Ctu {
    #[tactic(auto, unfolding(crate::specs::Forms::shape_bins, standard::specs::Bins::fixed_length))]
    fn shaped<S: Sink>(self, to: &mut S, shape: Shape, q: CtuSet)
        requires { S.has_room to.old (length (shape_bins self.switches self.left self.up q shape)) }
        ensures { S.takes to.old (shape_bins self.switches self.left self.up q shape) to.new }
    {
        match shape {
            Shape::Empty => {}
            Shape::Left => to.bits(1, 1),
            Shape::Up => {
                not_taken(to, self.left);
                to.bits(1, 1);
            }
            Shape::Full => {
                not_taken(to, self.left);
                not_taken(to, self.up);
                full(to, self.switches, q);
            }
        }
    }

    pub fn write_set(self, q: CtuSet, out: &mut [u8]) -> Result<usize, NoRoom>
        ensures { WritesSet self.switches self.left self.up q out.old out.new result }
    {
        let shape = self.choose(q);
        let mut count = Count { bins: 0 };
        self.shaped(&mut count, shape, q);
        let n = count.bins;
        if n.div_ceil(8) > out.len() {
            return Err(NoRoom);
        }
        let mut bytes = Bytes {
            out,
            put: Put { at: 0 },
        };
        self.shaped(&mut bytes, shape, q);
        Ok(n)
    }
}
