// Read: the set that the bins of the next CTU mean is stored, and the CTU after it is due.
#![tactic(auto)]

ghost use Rattle.std.specs.Prelude.{◌*◌, ◌≤◌, length};
ghost use Rattle.standard.specs.Refusals.{Tells};
ghost use Rattle.standard.specs.Reasons.{CountExceedsTheBytes, TableFits, bins_reasons, read_reasons};
ghost use Rattle.standard.specs.Ensures.{Decides, ReadEnsures};
ghost use Rattle.geometry.specs.Dues.{state_of};
ghost use Rattle.lent.specs.InTable.{InTable};
ghost use Rattle.reading.specs.Reading.{Copied, Answered, HasRead};

use bins::{BinsError, Form};
use geometry::Due;
use lent::Lent;
use standard::{CtuSet, Outcome, Refusal, State, Switches};

// ---- the reasons to refuse

// Whether 8 times the bytes are fewer than the bins, by division: the product might wrap. The count is what a caller declares, and so
// stands beside the bytes.
fn count_too_large(bytes: &[u8], count: usize) -> bool
    ensures { Tells (CountExceedsTheBytes bytes.now count) result }
{
    count.div_ceil(8) > bytes.len()
}

// ---- the bins

// A merge copies the neighbour's set, which the table must hold within the rules. Bins merge only with a neighbour that
// is there.
fn copied(s: Switches, table: &[u8], near: Option<u32>) -> Result<CtuSet, Refusal>
    requires { InTable table.now near }
    ensures { Copied s table.now near result }
{
    let k = near.ok_or(Refusal::Stored)?;
    sets::get_set(s, table, k as usize).ok_or(Refusal::Stored)
}

// The reasons of the bins, in document 01's order, or the set that they mean.
#[tactic(auto, using(lent::proofs::Ready::left_in_table, lent::proofs::Ready::up_in_table))]
fn bins_answer(due: Due, bytes: &[u8], count: usize, table: &[u8]) -> Result<CtuSet, Refusal>
    requires fits { TableFits due.of.picture table.now }
    requires bound { count ≤ 8 * length bytes.now }
    ensures { Answered (state_of due) bytes.now count table.now (bins_reasons (state_of due) bytes.now count table.now) result }
{
    let s = due.switches();
    let left = due.merge_left();
    let up = due.merge_up();
    match bins::read_form(s, left.is_some(), up.is_some(), bytes, count) {
        Err(BinsError::TooEarly) => Err(Refusal::TooEarly),
        Err(BinsError::BinsRemain) => Err(Refusal::BinsRemain),
        Ok(Form::Left) => copied(s, table, left),
        Ok(Form::Up) => copied(s, table, up),
        Ok(Form::Full(q)) => Ok(q),
    }
}

// ---- the call

// The CTU that is due and its set, or the first of the reasons.
fn read_answer(
    state: State,
    bytes: &[u8],
    count: usize,
    table: &[u8],
) -> Result<(Due, CtuSet), Refusal>
    ensures { Decides (read_reasons state bytes.now count table.now) result (HasRead state bytes.now count table.now) (Unit {0}) }
{
    let lent = Lent {
        table: Some(table.len()),
        ..Lent::default()
    };
    let due = lent::due_answer(state, lent)?;
    if count_too_large(bytes, count) {
        return Err(Refusal::CountTooLarge);
    }
    let set = bins_answer(due, bytes, count, table)?;
    Ok((due, set))
}

#[tactic(auto, using(lent::proofs::Ready::due_fits))]
pub fn read(state: State, bytes: &[u8], count: usize, table: &mut [u8]) -> Outcome<CtuSet>
    ensures { ReadEnsures state bytes.now count table.old result table.new }
{
    match read_answer(state, bytes, count, table) {
        Err(refusal) => Outcome::refused(refusal, state),
        Ok((due, set)) => {
            sets::put_set(table, due.ctu() as usize, set);
            Outcome::accepted(set, state.advanced())
        }
    }
}
