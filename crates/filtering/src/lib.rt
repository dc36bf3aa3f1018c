// Filter: the samples of a CTB, as the set of its CTU says, from the deblocked plane of its component
// into the filtered plane, and its mark becomes 2.
#![tactic(auto)]

ghost use Rattle.std.specs.Prelude.{◌≡◌, ◌⊎◌, ◌*◌, ◌≤◌, ◌<◌, length, IfOk, MatchOption};
ghost use Rattle.standard.specs.Picture.{plane_width, plane_height, rectangle};
ghost use Rattle.standard.specs.Sets.{component_of};
ghost use Rattle.standard.specs.Samples.{context_of};
ghost use Rattle.standard.specs.Refusals.{Tells};
ghost use Rattle.standard.specs.Table.{parameters_in};
ghost use Rattle.standard.specs.Reasons.{PlanesFit, MarksFit, TableFits, SetIsMissing, SetOutsideTheRules, ready_reasons, stored_reasons, filter_reasons};
ghost use Rattle.standard.specs.Ensures.{Judged, FilterEnsures};
ghost use Rattle.lent.specs.Lengths.{lists_of, Names};
ghost use Rattle.samples.specs.Around.{Agrees};
ghost use Rattle.filtering.specs.Filtering.{RowOutside, MarkOutside, WaitedOutside, ScannedTooLarge, Chosen, Takes, Sampled};
ghost use Rattle.lent.specs.States.{state_at};

use geometry::Block;
use lent::{Lent, Planes};
use marks::Allowed;
use planes::{Place, Plane};
use samples::Around;
use standard::{CtuSet, Offsets, Outcome, Refusal, State};

// ---- marks, and whether the set is in

// Whether one of a rectangle of marks is outside, in row y of it. The marks stand row after row.
fn row_outside(marks: &[u8], place: Place, y: usize, allowed: Allowed) -> bool
    requires { (place.width * place.height ≤ length marks.now) × (place.rectangle.y0 ≤ y) × (y < place.rectangle.y1) }
    ensures { Tells (RowOutside allowed.low allowed.high marks.now place.width place.rectangle y) result }
{
    let r = place.rectangle;
    let i = planes::index(place.width, place.height, r.x0, y);
    let n = r.x1 - r.x0;
    marks::some_outside(&marks[i..i + n], allowed)
}

// And in any row.
fn mark_outside(marks: &[u8], place: Place, allowed: Allowed) -> bool
    requires { place.width * place.height ≤ length marks.now }
    ensures { Tells (MarkOutside allowed.low allowed.high marks.now place.width place.rectangle) result }
{
    let r = place.rectangle;
    (r.y0..r.y1).any(|y| row_outside(marks, place, y, allowed))
}

// Whether the mark of a CTB is, that the filter of the block by this set waits for.
fn waited_outside(block: Block, set: Offsets, marks: &[u8], allowed: Allowed) -> bool
    requires { MarksFit block.of.picture marks.now }
    ensures { Tells (WaitedOutside block.of.picture block.component set block.ctb marks.now allowed.low allowed.high) result }
{
    let of = block.of;
    let from = of.mark_place(block.component, 0);
    let place = Place {
        width: of.columns(),
        height: of.rows(),
        rectangle: block.around(),
    };
    mark_outside(&marks[from..from + of.ctu_count()], place, allowed)
}

fn set_is_missing(block: Block, next: u32) -> bool
    ensures { Tells (SetIsMissing (state_at block.of next) block.ctb) result }
{
    next <= block.ctb
}

// Whether the set, or a CTB waited for, is missing. No mark is above 2 where this is asked.
fn not_ready(block: Block, next: u32, set: Offsets, marks: &[u8]) -> bool
    requires { MarksFit block.of.picture marks.now }
    ensures { Tells (SetIsMissing (state_at block.of next) block.ctb ⊎ WaitedOutside block.of.picture block.component set block.ctb marks.now 1 2) result }
{
    set_is_missing(block, next) || waited_outside(block, set, marks, Allowed { low: 1, high: 2 })
}

// ---- set and samples

// By number, as a call names a component, and as `depth_in` in `geometry` is of another type: definitions name both by field.
fn component_of(q: CtuSet, component: u8) -> Offsets
    ensures { result ≡ component_of q component }
{
    match component {
        0 => q.luma,
        1 => q.cb,
        _ => q.cr,
    }
}

// The block's own set in the table, where what its CTU's entry holds is within the rules.
#[tactic(auto, using(crate::proofs::Filtering::none_found))]
fn stored_set(block: Block, table: &[u8]) -> Option<Offsets>
    requires { TableFits block.of.picture table.now }
    ensures { MatchOption result (SetOutsideTheRules (state_at block.of 0) table.now block.ctb)
        (λ set. (¬ SetOutsideTheRules (state_at block.of 0) table.now block.ctb) × Chosen block.component block.ctb table.now set) }
{
    let s = geometry::switches_in(block.of.picture);
    let q = sets::get_set(s, table, block.ctb as usize)?;
    Some(component_of(q, block.component))
}

// Whether a deblocked sample that the filter of the block by this set looks at is above the depth.
#[tactic(auto, using(standard::proofs::Depths::depth_at_most_16))]
fn scanned_too_large(block: Block, set: Offsets, samples: &[u16]) -> bool
    requires { length samples.now ≡ plane_width block.of.picture block.component * plane_height block.of.picture block.component }
    ensures { Tells (ScannedTooLarge (state_at block.of 0) block.component set block.ctb samples.now) result }
{
    let plane = Plane {
        samples,
        width: block.plane_width(),
        height: block.plane_height(),
    };
    let top = planes::top_of(block.depth());
    plane.some_above(block.grown(), top)
}

// ---- the reasons to refuse, in document 01's order: the first that holds is the answer

// Marks of CTBs that are waited for, the own mark, and what is missing. What is waited for goes by the
// set that the table says, within the rules or not.
#[tactic(auto, using(crate::proofs::Marks::none_above, crate::proofs::Marks::not_in))]
fn marks_answer(block: Block, next: u32, marks: &[u8], table: &[u8]) -> Result<(), Refusal>
    requires { MarksFit block.of.picture marks.now × TableFits block.of.picture table.now }
    ensures { Judged (ready_reasons (state_at block.of next) block.component block.ctb marks.now table.now) result }
{
    let set = sets::offsets_at(table, block.ctb as usize, block.component);
    if waited_outside(block, set, marks, Allowed { low: 0, high: 2 }) {
        return Err(Refusal::Stored);
    }
    if marks::mark_of(block, marks) == 2 {
        return Err(Refusal::FilteredBefore);
    }
    if not_ready(block, next, set, marks) {
        return Err(Refusal::NotReady);
    }
    Ok(())
}

// The set, and the samples that it is for.
fn set_answer(block: Block, deblocked: Planes, table: &[u8]) -> Result<Offsets, Refusal>
    requires { PlanesFit block.of.picture (lists_of deblocked) × TableFits block.of.picture table.now }
    ensures verdict { Judged (stored_reasons (state_at block.of 0) block.component block.ctb (lists_of deblocked.entry) table.now) result }
    ensures chosen { IfOk result (Chosen block.component block.ctb table.now) }
{
    let set = stored_set(block, table).ok_or(Refusal::Stored)?;
    if scanned_too_large(block, set, deblocked.of(block.component)) {
        return Err(Refusal::Stored);
    }
    Ok(set)
}

// The parts, one after the other.
fn filter_answer(
    state: State,
    component: u8,
    ctb: u32,
    deblocked: Planes,
    filtered: Planes,
    marks: &[u8],
    table: &[u8],
) -> Result<(Block, Offsets), Refusal>
    ensures verdict { Judged (filter_reasons state component ctb (lists_of deblocked.entry) (lists_of filtered.entry) marks.now table.now) result }
    ensures of_call { IfOk result (λ t. Names state component ctb t.0 × Chosen component ctb table.now t.1) }
{
    let lent = Lent {
        deblocked: Some(deblocked.lengths()),
        filtered: Some(filtered.lengths()),
        marks: Some(marks.len()),
        table: Some(table.len()),
    };
    let block = lent::block_answer(state, lent, component, ctb)?;
    marks_answer(block, state.next, marks, table)?;
    let set = set_answer(block, deblocked, table)?;
    Ok((block, set))
}

// ---- the call

// Which of the blocks around a CTB its samples may be compared with, by the picture's parameters: today by its border alone, whatever
// the table holds.
fn answers(block: Block, table: &[u8]) -> Around
    requires { TableFits block.of.picture table.now }
    ensures { Agrees (context_of block.of.picture (parameters_in table.now) block.component) (rectangle block.of.picture block.component block.ctb) result }
{
    samples::in_picture(block.layout(), block.rectangle())
}

// The CTB's samples by its set, from a component's deblocked plane into its filtered plane.
fn filter_ctb(block: Block, set: Offsets, table: &[u8], plane: &[u16], out: &mut [u16])
    requires { Takes block set table.now plane.now out.old }
    ensures { Sampled block set table.now plane.now out.old out.new }
{
    let o = answers(block, table);
    samples::filter_block(block.layout(), set, o, block.rectangle(), plane, out);
}

// Planes one by one, since C lends them so.
pub fn filter(
    state: State,
    component: u8,
    ctb: u32,
    y: &[u16],
    cb: &[u16],
    cr: &[u16],
    out_y: &mut [u16],
    out_cb: &mut [u16],
    out_cr: &mut [u16],
    marks: &mut [u8],
    table: &[u8],
) -> Outcome<()>
    ensures { FilterEnsures state component ctb (record { y = y.now; cb = cb.now; cr = cr.now }) (record { y = out_y.old; cb = out_cb.old; cr = out_cr.old }) marks.old table.now result (record { y = out_y.new; cb = out_cb.new; cr = out_cr.new }) marks.new }
{
    let filtered = Planes {
        y: out_y,
        cb: out_cb,
        cr: out_cr,
    };
    match filter_answer(
        state,
        component,
        ctb,
        Planes { y, cb, cr },
        filtered,
        marks,
        table,
    ) {
        Err(refusal) => Outcome::refused(refusal, state),
        Ok((block, set)) => {
            marks[block.mark_place()] = 2;
            let plane = Planes { y, cb, cr }.of(component);
            // Three arms: a function that hands out one of three `&mut` cannot say that the other two stay as they were.
            match component {
                0 => filter_ctb(block, set, table, plane, out_y),
                1 => filter_ctb(block, set, table, plane, out_cb),
                _ => filter_ctb(block, set, table, plane, out_cr),
            }
            Outcome::accepted((), state)
        }
    }
}
