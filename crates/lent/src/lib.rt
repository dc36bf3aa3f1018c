// What the calls share: what they are lent, the reasons with which they begin, and whether a CTU is due or a block is there.
#![tactic(auto)]

ghost use Rattle.std.specs.Prelude.{◌≡◌, ◌<◌, ◌≤◌, ◌++◌, IfOk};
ghost use Rattle.standard.specs.Refusals.{Tells};
ghost use Rattle.standard.specs.Reasons.{plane_of, description_reasons, lent_reasons, call_reasons, due_reasons, block_reasons};
ghost use Rattle.standard.specs.Ensures.{Judged};
ghost use Rattle.geometry.specs.Dues.{state_of};
ghost use Rattle.lent.specs.Lengths.{lists_of, lengths_of, PlanesRight, BytesRight, LentRight, Names};

use geometry::{Block, Described, Due};
use standard::{Refusal, State};

// ---- what a call is lent

#[derive(Clone, Copy)]
pub struct Planes<'a> {
    pub y: &'a [u16],
    pub cb: &'a [u16],
    pub cr: &'a [u16],
}

impl<'a> Planes<'a> {
    // Of a number that names no component, Cr's.
    pub fn of(self, component: u8) -> &'a [u16]
        ensures named { component < 3 → result.now ≡ plane_of (lists_of self.entry) component }
        ensures other { 3 ≤ component → result.now ≡ self.entry.cr.now }
    {
        match component {
            0 => self.y,
            1 => self.cb,
            _ => self.cr,
        }
    }

    pub fn lengths(self) -> PlaneLengths
        ensures { result ≡ lengths_of (lists_of self.entry) }
    {
        PlaneLengths {
            y: self.y.len(),
            cb: self.cb.len(),
            cr: self.cr.len(),
        }
    }
}

// How long three planes are.
#[derive(Clone, Copy)]
pub struct PlaneLengths {
    pub y: usize,
    pub cb: usize,
    pub cr: usize,
}

// How long that is which a call is lent; None where it is not lent it.
#[derive(Clone, Copy, Default)]
pub struct Lent {
    pub deblocked: Option<PlaneLengths>,
    pub filtered: Option<PlaneLengths>,
    pub marks: Option<usize>,
    pub table: Option<usize>,
}

fn planes_right(of: Described, planes: Option<PlaneLengths>) -> bool
    ensures { Tells (PlanesRight of.picture planes) result }
{
    match planes {
        None => true,
        Some(l) => {
            l.y == of.sample_count(0) && l.cb == of.sample_count(1) && l.cr == of.sample_count(2)
        }
    }
}

fn bytes_right(n: usize, bytes: Option<usize>) -> bool
    ensures { Tells (BytesRight n bytes) result }
{
    match bytes {
        None => true,
        Some(m) => m == n,
    }
}

impl Lent {
    #[inline(always)]
    fn right(self, of: Described) -> bool
        ensures { Tells (LentRight of.picture self) result }
    {
        planes_right(of, self.deblocked)
            && planes_right(of, self.filtered)
            && bytes_right(of.mark_count(), self.marks)
            && bytes_right(of.table_size(), self.table)
    }
}

// ---- the reasons with which calls begin, in document 01's order
//
// Those that judge what is lent are compiled into the calls: as functions of their own they are handed the description and the lengths
// through memory, and hand the picture back so.

// Of the description alone.
pub fn described_answer(state: State) -> Result<Described, Refusal>
    ensures verdict { Judged (description_reasons state) result }
    ensures of_call { IfOk result (λ d. d.picture ≡ state.picture) }
{
    Described::of(state.picture).ok_or(Refusal::Description)
}

// And of what is lent.
#[inline(always)]
pub fn lent_answer(state: State, lent: Lent) -> Result<Described, Refusal>
    ensures verdict { Judged (lent_reasons state (LentRight state.picture lent)) result }
    ensures of_call { IfOk result (λ d. d.picture ≡ state.picture) }
    ensures fits { IfOk result (λ d. LentRight state.picture lent) }
{
    let of = described_answer(state)?;
    if !lent.right(of) {
        return Err(Refusal::Length);
    }
    Ok(of)
}

// And of the state.
#[inline(always)]
pub fn call_answer(state: State, lent: Lent) -> Result<Described, Refusal>
    ensures verdict { Judged (call_reasons state (LentRight state.picture lent)) result }
    ensures of_call { IfOk result (λ d. d.picture ≡ state.picture) }
    ensures fits { IfOk result (λ d. LentRight state.picture lent) }
{
    let of = lent_answer(state, lent)?;
    if (state.next as usize) > of.ctu_count() {
        return Err(Refusal::Stored);
    }
    Ok(of)
}

// Of all with which calls begin, and whether a CTU is due.
#[inline(always)]
pub fn due_answer(state: State, lent: Lent) -> Result<Due, Refusal>
    ensures verdict { Judged (call_reasons state (LentRight state.picture lent) ++ due_reasons state) result }
    ensures of_call { IfOk result (λ d. state_of d ≡ state) }
    ensures fits { IfOk result (λ d. LentRight state.picture lent) }
{
    let of = call_answer(state, lent)?;
    if (state.next as usize) >= of.ctu_count() {
        return Err(Refusal::AllRead);
    }
    Ok(Due {
        of,
        next: state.next,
    })
}

// Of the description, and whether there is such a block.
pub fn named_answer(state: State, component: u8, ctb: u32) -> Result<Block, Refusal>
    ensures verdict { Judged (description_reasons state ++ block_reasons state component ctb) result }
    ensures of_call { IfOk result (Names state component ctb) }
{
    let of = described_answer(state)?;
    of.block(component, ctb).ok_or(Refusal::NoSuchBlock)
}

// Of all with which calls begin, and whether there is such a block.
#[inline(always)]
pub fn block_answer(state: State, lent: Lent, component: u8, ctb: u32) -> Result<Block, Refusal>
    ensures verdict { Judged (call_reasons state (LentRight state.picture lent) ++ block_reasons state component ctb) result }
    ensures of_call { IfOk result (Names state component ctb) }
    ensures fits { IfOk result (λ b. LentRight state.picture lent) }
{
    let of = call_answer(state, lent)?;
    of.block(component, ctb).ok_or(Refusal::NoSuchBlock)
}
