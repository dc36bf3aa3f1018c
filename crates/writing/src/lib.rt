// Write: a set becomes the shortest bins that mean it, is stored, and the CTU after it is due.
#![tactic(auto)]

ghost use Rattle.std.specs.Prelude.{◌≡◌};
ghost use Rattle.standard.specs.Reasons.{TableFits, set_reasons, write_reasons};
ghost use Rattle.standard.specs.Ensures.{Decides, Wrote, WriteEnsures};
ghost use Rattle.geometry.specs.Dues.{state_of};
ghost use Rattle.lent.specs.InTable.{InTable};
ghost use Rattle.writing.specs.Writing.{FindsBeside, SetWritten, HasWritten};

use geometry::Due;
use lent::Lent;
use standard::{CtuSet, Outcome, Refusal, State};
use writer::{Ctu, NoRoom};

// What stands beside the CTU: the neighbour's set, where there is a neighbour. Bytes that are no set within the rules are
// refused.
#[tactic(auto, using(sets::proofs::Finding::found_stored, sets::proofs::Finding::sound_of))]
fn beside(due: Due, table: &[u8], near: Option<u32>) -> Result<Option<CtuSet>, Refusal>
    requires { InTable table.now near }
    ensures { FindsBeside (state_of due) table.now near result }
{
    let Some(k) = near else {
        return Ok(None);
    };
    let set = sets::get_set(due.switches(), table, k as usize).ok_or(Refusal::Stored)?;
    Ok(Some(set))
}

// The reasons of the set, and its bins where none holds.
#[tactic(auto, using(crate::proofs::Setting::no_room, crate::proofs::Setting::spelled))]
fn set_written(ctu: Ctu, q: CtuSet, out: &mut [u8]) -> Result<usize, Refusal>
    ensures { SetWritten ctu.switches ctu.left ctu.up q out.old out.new result }
{
    if !ctu.has_bins(q) {
        return Err(Refusal::NoBins);
    }
    // A match: over `map_err` and over `or` the proof did not close.
    match ctu.write_set(q, out) {
        Err(NoRoom) => Err(Refusal::NoRoom),
        Ok(n) => Ok(n),
    }
}

// The reasons from the neighbours' sets on, and the bins where none holds.
#[tactic(auto, using(lent::proofs::Ready::left_in_table, lent::proofs::Ready::up_in_table))]
fn bins_written(due: Due, q: CtuSet, out: &mut [u8], table: &[u8]) -> Result<usize, Refusal>
    requires { TableFits due.of.picture table.now }
    ensures { Decides (set_reasons (state_of due) q out.old table.now) result (λ n. Wrote (state_of due) q out.old table.now n out.new) (out.new ≡ out.old) }
{
    let left = beside(due, table, due.merge_left())?;
    let up = beside(due, table, due.merge_up())?;
    let ctu = Ctu {
        switches: due.switches(),
        left,
        up,
    };
    set_written(ctu, q, out)
}

// The CTU that is due and how many bins its set has, or the first of the reasons.
fn write_answer(
    state: State,
    q: CtuSet,
    out: &mut [u8],
    table: &[u8],
) -> Result<(Due, usize), Refusal>
    ensures { Decides (write_reasons state q out.old table.now) result (HasWritten state q out.old table.now out.new) (out.new ≡ out.old) }
{
    let lent = Lent {
        table: Some(table.len()),
        ..Lent::default()
    };
    let due = lent::due_answer(state, lent)?;
    let n = bins_written(due, q, out, table)?;
    Ok((due, n))
}

// What is stored at the end, and that the next CTU is due, is two calls, as in `read`: one function of both would be no shorter.
#[tactic(auto, using(lent::proofs::Ready::due_fits))]
pub fn write(state: State, q: CtuSet, out: &mut [u8], table: &mut [u8]) -> Outcome<usize>
    ensures { WriteEnsures state q out.old table.old result out.new table.new }
{
    match write_answer(state, q, out, table) {
        Err(refusal) => Outcome::refused(refusal, state),
        Ok((due, n)) => {
            sets::put_set(table, due.ctu() as usize, q);
            Outcome::accepted(n, state.advanced())
        }
    }
}
