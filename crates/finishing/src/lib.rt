// Finished rows: the leading part of the caller's own filtered plane, and the companion that answers how many rows it has.
#![tactic(auto)]

ghost use Rattle.std.specs.Prelude.{◌≡◌, ℕ, ◌*◌, ◌/◌, ◌≤◌, ◌<◌, min, length, slice_index, take, IfOk};
ghost use Rattle.standard.specs.Picture.{components, plane_width, plane_height, ctb_height, columns, ctu_count};
ghost use Rattle.standard.specs.Reasons.{PlanesFit, plane_of, MarksFit, mark_of, marks_reasons, rows_reasons};
ghost use Rattle.standard.specs.Calls.{FinishedRows};
ghost use Rattle.standard.specs.Ensures.{Judged, RowsEnsures, PartEnsures};
ghost use Rattle.lent.specs.Lengths.{lists_of};
ghost use Rattle.lent.specs.States.{state_at};

use geometry::Described;
use lent::{Lent, Planes};
use marks::Allowed;
use planes::Plane;
use standard::{Outcome, Refusal, State};

// ---- the companion

// The sample rows of the CTB rows that the first n CTBs fill. The last CTB row may be cut short.
fn sample_rows(of: Described, component: u8, n: usize) -> usize
    requires { n ≤ ctu_count of.picture }
    ensures { result ≡ min (n / columns of.picture * ctb_height of.picture component) (plane_height of.picture component) }
{
    let ctb_rows = n / of.columns();
    (ctb_rows * of.ctb_height(component)).min(of.plane_height(component))
}

// The component's own marks, which stand side by side.
fn own_marks<'a>(of: Described, component: u8, marks: &'a [u8]) -> &'a [u8]
    requires { MarksFit of.picture marks.now × (component < components of.picture) }
    ensures len { length result.now ≡ ctu_count of.picture }
    ensures each { (k : ℕ) → k < ctu_count of.picture → slice_index result.now k ≡ mark_of of.picture marks.now component k }
{
    let from = of.mark_place(component, 0);
    &marks[from..from + of.ctu_count()]
}

// The component and its marks, in one pass: those before that of the first CTB that is not filtered are 2, and so only the
// rest can have one above 2.
fn rows_answer(of: Described, component: u8, marks: &[u8]) -> Result<usize, Refusal>
    requires { MarksFit of.picture marks.now }
    ensures verdict { Judged (marks_reasons (state_at of 0) component marks.now) result }
    ensures rows { IfOk result (FinishedRows (state_at of 0) component marks.now) }
{
    if of.no_such_component(component) {
        return Err(Refusal::NoSuchBlock);
    }
    let own = own_marks(of, component, marks);
    let filtered = marks::leading_of_many(own, Allowed { low: 2, high: 2 });
    if marks::some_of_many(&own[filtered..], Allowed { low: 0, high: 2 }) {
        return Err(Refusal::Stored);
    }
    Ok(sample_rows(of, component, filtered))
}

// The picture, and how many sample rows of the component are finished.
fn count_answer(
    state: State,
    component: u8,
    filtered: Planes,
    marks: &[u8],
) -> Result<(Described, usize), Refusal>
    ensures verdict { Judged (rows_reasons state component (lists_of filtered.entry) marks.now) result }
    ensures of_call { IfOk result (λ r. r.0.picture ≡ state.picture) }
    ensures rows { IfOk result (λ r. FinishedRows state component marks.now r.1) }
{
    let lent = Lent {
        filtered: Some(filtered.lengths()),
        marks: Some(marks.len()),
        ..Lent::default()
    };
    let of = lent::call_answer(state, lent)?;
    let n = rows_answer(of, component, marks)?;
    Ok((of, n))
}

// How many sample rows are finished, or why the question is refused.
pub fn finished_count(
    state: State,
    component: u8,
    y: &[u16],
    cb: &[u16],
    cr: &[u16],
    marks: &[u8],
) -> Outcome<usize>
    ensures { RowsEnsures state component (record { y = y.now; cb = cb.now; cr = cr.now }) marks.now result }
{
    match count_answer(state, component, Planes { y, cb, cr }, marks) {
        Err(refusal) => Outcome::refused(refusal, state),
        Ok((_, n)) => Outcome::accepted(n, state),
    }
}

// ---- the rows

// The first n rows of the component's plane.
fn leading_part<'a>(of: Described, component: u8, planes: Planes<'a>, n: usize) -> &'a [u16]
    requires { PlanesFit of.picture (lists_of planes) × (component < components of.picture) × (n ≤ plane_height of.picture component) }
    ensures { result.now ≡ take (n * plane_width of.picture component) (plane_of (lists_of planes.entry) component) }
{
    let plane = Plane {
        samples: planes.of(component),
        width: of.plane_width(component),
        height: of.plane_height(component),
    };
    plane.leading_rows(n)
}

// Those rows of the component's plane, and none where the companion refuses.
pub fn finished_rows<'a>(
    state: State,
    component: u8,
    y: &'a [u16],
    cb: &'a [u16],
    cr: &'a [u16],
    marks: &[u8],
) -> &'a [u16]
    ensures { PartEnsures state component (record { y = y.now; cb = cb.now; cr = cr.now }) marks.now result.now }
{
    let planes = Planes { y, cb, cr };
    match count_answer(state, component, planes, marks) {
        Err(_) => &y[..0],
        Ok((of, n)) => leading_part(of, component, planes, n),
    }
}
