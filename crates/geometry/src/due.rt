// The CTU that is due: the one that is read or written next.

ghost use Rattle.std.specs.Prelude.{◌≡◌, ◌<◌};
ghost use Rattle.standard.specs.Picture.{due, merge_left, merge_up, ctu_count};
ghost use Rattle.standard.specs.Sets.{switches_of};

use super::described::Described;
use super::{due_of, switches_of};
use standard::{State, Switches};

#[derive(Clone, Copy)]
pub struct Due {
    pub of: Described,
    pub next: u32,
    ghost there: { next < ctu_count of.picture },
}

impl Due {
    ghost use Rattle.geometry.specs.Dues.{state_of};

    fn state(self) -> State
        ensures { result ≡ state_of self }
    {
        State {
            picture: self.of.picture,
            next: self.next,
        }
    }

    pub fn ctu(self) -> u32
        ensures { result ≡ due (state_of self) }
    {
        due_of(self.state())
    }

    pub fn switches(self) -> Switches
        ensures { result ≡ switches_of (state_of self) }
    {
        switches_of(self.state())
    }

    // The CTUs that a merge may reach.

    pub fn merge_left(self) -> Option<u32>
        ensures { result ≡ merge_left (state_of self) }
    {
        self.of.merge_left(self.next)
    }

    pub fn merge_up(self) -> Option<u32>
        ensures { result ≡ merge_up (state_of self) }
    {
        self.of.merge_up(self.next)
    }
}
