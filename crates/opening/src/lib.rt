// Open: the marks cleared, and the first CTU due.
#![tactic(auto)]

ghost use Rattle.standard.specs.Reasons.{open_reasons};
ghost use Rattle.standard.specs.Ensures.{Judged, OpenEnsures};

use geometry::Described;
use lent::Lent;
use standard::{Outcome, Refusal, State};

fn open_answer(state: State, marks: &[u8]) -> Result<Described, Refusal>
    ensures { Judged (open_reasons state marks.now) result }
{
    let lent = Lent {
        marks: Some(marks.len()),
        ..Lent::default()
    };
    lent::lent_answer(state, lent)
}

// Of the state only the description is read.
pub fn open(state: State, marks: &mut [u8]) -> Outcome<()>
    ensures { OpenEnsures state marks.old result marks.new }
{
    match open_answer(state, marks) {
        Err(refusal) => Outcome::refused(refusal, state),
        Ok(_) => {
            marks.fill(0);
            Outcome::accepted((), state.opened())
        }
    }
}
