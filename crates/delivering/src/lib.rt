// Deliver: the samples of a CTB go into its component's plane, and its mark becomes 1.
#![tactic(auto)]

ghost use Rattle.std.specs.Prelude.{◌≡◌, ◌*◌, length, IfOk};
ghost use Rattle.standard.specs.Picture.{plane_width, plane_height, rectangle};
ghost use Rattle.standard.specs.Refusals.{Tells};
ghost use Rattle.standard.specs.Reasons.{MarksFit, area, DeliveredSampleTooLarge, samples_reasons, deliver_reasons};
ghost use Rattle.standard.specs.Calls.{Written, delivered};
ghost use Rattle.standard.specs.Ensures.{Judged, DeliverEnsures};
ghost use Rattle.lent.specs.Lengths.{lists_of, Names};
ghost use Rattle.lent.specs.States.{state_at};

use geometry::Block;
use lent::{Lent, Planes};
use planes::Place;
use standard::{Outcome, Refusal, State};

// ---- the reasons to refuse

fn samples_fit(block: Block, samples: &[u16]) -> bool
    ensures { Tells (length samples.now ≡ area (rectangle block.of.picture block.component block.ctb)) result }
{
    let r = block.rectangle();
    samples.len() == (r.x1 - r.x0) * (r.y1 - r.y0)
}

#[tactic(auto, using(standard::proofs::Depths::depth_at_most_16))]
fn sample_too_large(block: Block, samples: &[u16]) -> bool
    ensures { Tells (DeliveredSampleTooLarge (state_at block.of 0) block.component samples.now) result }
{
    planes::sample_above(samples, planes::top_of(block.depth()))
}

// The samples, and the CTB's mark, in document 01's order: the first reason that holds is the answer.
fn samples_answer(block: Block, samples: &[u16], marks: &[u8]) -> Result<(), Refusal>
    requires { MarksFit block.of.picture marks.now }
    ensures { Judged (samples_reasons (state_at block.of 0) block.component block.ctb samples.now marks.now) result }
{
    if !samples_fit(block, samples) {
        return Err(Refusal::Length);
    }
    let m = marks::mark_of(block, marks);
    if m > 2 {
        return Err(Refusal::Stored);
    }
    if m != 0 {
        return Err(Refusal::DeliveredBefore);
    }
    if sample_too_large(block, samples) {
        return Err(Refusal::SampleTooLarge);
    }
    Ok(())
}

fn deliver_answer(
    state: State,
    component: u8,
    ctb: u32,
    samples: &[u16],
    planes: Planes,
    marks: &[u8],
) -> Result<Block, Refusal>
    ensures verdict { Judged (deliver_reasons state component ctb samples.now (lists_of planes.entry) marks.now) result }
    ensures of_call { IfOk result (Names state component ctb) }
{
    let lent = Lent {
        deblocked: Some(planes.lengths()),
        marks: Some(marks.len()),
        ..Lent::default()
    };
    let block = lent::block_answer(state, lent, component, ctb)?;
    samples_answer(block, samples, marks)?;
    Ok(block)
}

// ---- the call

// The samples of a CTB into the plane of its component. A function of its own: within the call, where the CTB lies was divided out anew for each row.
#[inline(never)]
fn put_ctb(block: Block, samples: &[u16], plane: &mut [u16])
    requires samples_len { length samples.now ≡ area (rectangle block.of.picture block.component block.ctb) }
    requires plane_len { length plane.old ≡ plane_width block.of.picture block.component * plane_height block.of.picture block.component }
    ensures { Written (plane_width block.of.picture block.component) (plane_height block.of.picture block.component) (rectangle block.of.picture block.component block.ctb) (delivered (rectangle block.of.picture block.component block.ctb) samples.now) plane.old plane.new }
{
    let place = Place {
        width: block.plane_width(),
        height: block.plane_height(),
        rectangle: block.rectangle(),
    };
    planes::put_block(samples, plane, place);
}

// Planes one by one, since C lends them so.
pub fn deliver(
    state: State,
    component: u8,
    ctb: u32,
    samples: &[u16],
    y: &mut [u16],
    cb: &mut [u16],
    cr: &mut [u16],
    marks: &mut [u8],
) -> Outcome<()>
    ensures { DeliverEnsures state component ctb samples.now (record { y = y.old; cb = cb.old; cr = cr.old }) marks.old result (record { y = y.new; cb = cb.new; cr = cr.new }) marks.new }
{
    match deliver_answer(state, component, ctb, samples, Planes { y, cb, cr }, marks) {
        Err(refusal) => Outcome::refused(refusal, state),
        Ok(block) => {
            marks[block.mark_place()] = 1;
            // Three arms: a function that hands out one of three `&mut` cannot say that the other two stay as they were.
            match component {
                0 => put_ctb(block, samples, y),
                1 => put_ctb(block, samples, cb),
                _ => put_ctb(block, samples, cr),
            }
            Outcome::accepted((), state)
        }
    }
}
