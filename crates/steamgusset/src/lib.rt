// The exported interface: a function for each call, on plain memory, for C and Rust to link. Its other half is
// include/steamgusset.h.
//
// The state crosses as numbers, each at the place that is named below. A set crosses as its bytes. Each call answers 0, or
// the number of its refusal; what else it has to say it leaves in lent memory. A refusal leaves all that is lent as it was.
#![tactic(auto)]

ghost use Rattle.std.specs.Prelude.{◌≡◌, ◌≤◌, MatchOption};
ghost use Rattle.steamgusset.specs.Boundary.{version, is_on, Held, numbers_of, state_of, in_byte, code_of, width_of, height_of, sizes_of};
ghost use Rattle.steamgusset.specs.Exports.{OpenCrosses, ReadCrosses, WriteCrosses, DeliverCrosses, FilterCrosses, RowsCrosses, SizesCross, BlockCrosses};

use geometry::Described;
use standard::{BitDepths, Picture, Refusal, SET_BYTES, State};

// ---- the version

const VERSION_MAJOR: u32 = 5;

const VERSION_MINOR: u32 = 0;

// Of the archive, for a caller to hold its header's to: the major number above the low 16 bits, the minor in them.
#[unsafe(no_mangle)]
pub extern "C" fn sg_version() -> u32
    ensures { result ≡ version }
{
    VERSION_MAJOR * 65536 + VERSION_MINOR
}

// ---- the layout of a state: where each number stands among those that cross, and how many they are

const WIDTH: usize = 0;

const HEIGHT: usize = WIDTH + 1;

const CTB: usize = HEIGHT + 1;

const FORMAT: usize = CTB + 1;

const LUMA_DEPTH: usize = FORMAT + 1;

const CHROMA_DEPTH: usize = LUMA_DEPTH + 1;

const LUMA: usize = CHROMA_DEPTH + 1;

const CHROMA: usize = LUMA + 1;

const NEXT: usize = CHROMA + 1;

const NUMBERS: usize = NEXT + 1;

// ---- what crosses

// The answer to numbers that no state holds.
const NOT_DESCRIBED: u32 = Refusal::Description as u32;

fn switch_of(n: u32) -> Option<bool>
    ensures { MatchOption result (¬ (n ≤ 1)) (λ on. (n ≤ 1) × (on ≡ is_on n)) }
{
    match n {
        0 => Some(false),
        1 => Some(true),
        _ => None,
    }
}

// The state that the numbers say; None where its fields do not hold them.
#[tactic(auto, unfolding(crate::specs::Boundary::state_of))]
fn held(a: &[u32; NUMBERS]) -> Option<State>
    ensures { MatchOption result (¬ Held a.now) (λ s. Held a.now × (s ≡ state_of a.now)) }
{
    let depth = BitDepths {
        luma: u8::try_from(a[LUMA_DEPTH]).ok()?,
        chroma: u8::try_from(a[CHROMA_DEPTH]).ok()?,
    };
    let picture = Picture {
        width: a[WIDTH],
        height: a[HEIGHT],
        ctb: a[CTB],
        format: u8::try_from(a[FORMAT]).ok()?,
        depth,
        luma: switch_of(a[LUMA])?,
        chroma: switch_of(a[CHROMA])?,
    };
    Some(State {
        picture,
        next: a[NEXT],
    })
}

// Both types are of other crates, so this is no `From`.
fn numbers_of(s: State) -> [u32; NUMBERS]
    ensures { result ≡ numbers_of s }
{
    let p = s.picture;
    let d = p.depth;
    let mut a = [0; NUMBERS];
    a[WIDTH] = p.width;
    a[HEIGHT] = p.height;
    a[CTB] = p.ctb;
    a[FORMAT] = p.format as u32;
    a[LUMA_DEPTH] = d.luma as u32;
    a[CHROMA_DEPTH] = d.chroma as u32;
    a[LUMA] = p.luma as u32;
    a[CHROMA] = p.chroma as u32;
    a[NEXT] = s.next;
    a
}

// A component's number in a byte. No picture has a component 255, so a larger number means no other.
fn in_byte(component: u32) -> u8
    ensures { result ≡ in_byte component }
{
    u8::try_from(component).unwrap_or(255)
}

// What a call answers that has no value.
fn code(answer: Result<(), Refusal>) -> u32
    ensures { result ≡ code_of answer }
{
    match answer {
        Err(r) => r.number(),
        Ok(()) => 0,
    }
}

// ---- the calls

#[unsafe(no_mangle)]
pub extern "C" fn sg_open(state: &mut [u32; NUMBERS], marks: &mut [u8]) -> u32
    ensures { OpenCrosses state.old marks.old result state.new marks.new }
{
    let Some(s) = held(state) else {
        return NOT_DESCRIBED;
    };
    let o = opening::open(s, marks);
    match o.answer {
        Err(r) => r.number(),
        Ok(()) => {
            *state = numbers_of(o.state);
            0
        }
    }
}

#[unsafe(no_mangle)]
pub extern "C" fn sg_read(
    state: &mut [u32; NUMBERS],
    bins: &[u8],
    count: usize,
    table: &mut [u8],
    set: &mut [u8; SET_BYTES],
) -> u32
    ensures { ReadCrosses state.old bins.now count table.old set.old result state.new table.new set.new }
{
    let Some(s) = held(state) else {
        return NOT_DESCRIBED;
    };
    let o = reading::read(s, bins, count, table);
    match o.answer {
        Err(r) => r.number(),
        Ok(q) => {
            *state = numbers_of(o.state);
            sets::say_set(set, q);
            0
        }
    }
}

#[unsafe(no_mangle)]
pub extern "C" fn sg_write(
    state: &mut [u32; NUMBERS],
    set: &[u8; SET_BYTES],
    out: &mut [u8],
    table: &mut [u8],
    count: &mut usize,
) -> u32
    ensures { WriteCrosses state.old set.now out.old table.old count.old result state.new out.new table.new count.new }
{
    let Some(s) = held(state) else {
        return NOT_DESCRIBED;
    };
    let o = writing::write(s, sets::set_said(set), out, table);
    match o.answer {
        Err(r) => r.number(),
        Ok(n) => {
            *state = numbers_of(o.state);
            *count = n;
            0
        }
    }
}

#[unsafe(no_mangle)]
pub extern "C" fn sg_deliver(
    state: &[u32; NUMBERS],
    component: u32,
    ctb: u32,
    samples: &[u16],
    y: &mut [u16],
    cb: &mut [u16],
    cr: &mut [u16],
    marks: &mut [u8],
) -> u32
    ensures { DeliverCrosses state.now component ctb samples.now (record { y = y.old; cb = cb.old; cr = cr.old }) marks.old result (record { y = y.new; cb = cb.new; cr = cr.new }) marks.new }
{
    let Some(s) = held(state) else {
        return NOT_DESCRIBED;
    };
    let i = in_byte(component);
    let o = delivering::deliver(s, i, ctb, samples, y, cb, cr, marks);
    code(o.answer)
}

#[unsafe(no_mangle)]
pub extern "C" fn sg_filter(
    state: &[u32; NUMBERS],
    component: u32,
    ctb: u32,
    y: &[u16],
    cb: &[u16],
    cr: &[u16],
    out_y: &mut [u16],
    out_cb: &mut [u16],
    out_cr: &mut [u16],
    marks: &mut [u8],
    table: &[u8],
) -> u32
    ensures { FilterCrosses state.now component ctb (record { y = y.now; cb = cb.now; cr = cr.now }) (record { y = out_y.old; cb = out_cb.old; cr = out_cr.old }) marks.old table.now result (record { y = out_y.new; cb = out_cb.new; cr = out_cr.new }) marks.new }
{
    let Some(s) = held(state) else {
        return NOT_DESCRIBED;
    };
    let i = in_byte(component);
    let o = filtering::filter(s, i, ctb, y, cb, cr, out_y, out_cb, out_cr, marks, table);
    code(o.answer)
}

// Of the finished rows, which are the caller's own, how many rows and how many samples there are.
#[unsafe(no_mangle)]
pub extern "C" fn sg_finished_rows(
    state: &[u32; NUMBERS],
    component: u32,
    y: &[u16],
    cb: &[u16],
    cr: &[u16],
    marks: &[u8],
    finished: &mut [usize; 2],
) -> u32
    ensures { RowsCrosses state.now component (record { y = y.now; cb = cb.now; cr = cr.now }) marks.now finished.old result finished.new }
{
    let Some(s) = held(state) else {
        return NOT_DESCRIBED;
    };
    let Some(of) = Described::of(s.picture) else {
        return NOT_DESCRIBED;
    };
    let i = in_byte(component);
    match finishing::finished_count(s, i, y, cb, cr, marks).answer {
        Err(r) => r.number(),
        Ok(n) => {
            *finished = [n, n * of.plane_width(i)];
            0
        }
    }
}

// ---- what a caller has to lend

// The width and the height of a component's plane. An absent component has a plane of no width and no height.
fn sides_of(of: Described, component: u8) -> (usize, usize)
    ensures { result ≡ (width_of of.picture component, height_of of.picture component) }
{
    if of.no_such_component(component) {
        (0, 0)
    } else {
        (of.plane_width(component), of.plane_height(component))
    }
}

#[tactic(auto, unfolding(crate::specs::Boundary::sizes_of))]
fn sizes_of(of: Described) -> [usize; 14]
    ensures { result ≡ sizes_of of.picture }
{
    let (y_width, y_height) = sides_of(of, 0);
    let (cb_width, cb_height) = sides_of(of, 1);
    let (cr_width, cr_height) = sides_of(of, 2);
    [
        y_width,
        cb_width,
        cr_width,
        y_height,
        cb_height,
        cr_height,
        of.sample_count(0),
        of.sample_count(1),
        of.sample_count(2),
        of.columns(),
        of.rows(),
        of.ctu_count(),
        of.mark_count(),
        of.table_size(),
    ]
}

#[unsafe(no_mangle)]
pub extern "C" fn sg_sizes(state: &[u32; NUMBERS], sizes: &mut [usize; 14]) -> u32
    ensures { SizesCross state.now sizes.old result sizes.new }
{
    let Some(s) = held(state) else {
        return NOT_DESCRIBED;
    };
    match lent::described_answer(s) {
        Err(r) => r.number(),
        Ok(of) => {
            *sizes = sizes_of(of);
            0
        }
    }
}

// Where the samples of a CTB lie in its plane.
#[unsafe(no_mangle)]
pub extern "C" fn sg_block(
    state: &[u32; NUMBERS],
    component: u32,
    ctb: u32,
    block: &mut [usize; 4],
) -> u32
    ensures { BlockCrosses state.now component ctb block.old result block.new }
{
    let Some(s) = held(state) else {
        return NOT_DESCRIBED;
    };
    let i = in_byte(component);
    match lent::named_answer(s, i, ctb) {
        Err(r) => r.number(),
        Ok(b) => {
            let r = b.rectangle();
            *block = [r.x0, r.x1, r.y0, r.y1];
            0
        }
    }
}
