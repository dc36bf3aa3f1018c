// Rows of sample adaptive offset (H.265 8.7.3): equal parts of the deblocked plane, and one of the
// filtered plane. For a sample no table is read and nothing is matched: comparisons mask the four
// offsets, and the sum saturates in the sample's own 16 bits, so that a row's loop has no branch and
// becomes vector code.
#![tactic(auto)]

ghost use Rattle.std.specs.Prelude.{◌≡◌, cond, ◌+◌, ◌-◌, ◌^◌, ◌≤◌, ◌<◌, ltb, pos, ◌+ℤ◌, ◌-ℤ◌, ◌*ℤ◌, length};
ghost use Rattle.standard.specs.Samples.{sign, band_idx, edge_idx, edge_idx_of};
ghost use Rattle.planes.specs.Places.{Filled};
ghost use Rattle.rows.specs.Moves.{scaled_by, moves_of, value_of, held, moved};
ghost use Rattle.rows.specs.Categories.{Numbers};
ghost use Rattle.rows.specs.Sample.{low_of, place_of, Only, Within};
ghost use Rattle.rows.specs.Parts.{edge_row, band_row, Equal, Banded};

use standard::Four;

// ---- the offsets of a block

// By how much samples are moved, SaoOffsetVal of 1 to 4, and the greatest sample.
#[derive(Clone, Copy)]
pub struct Moves {
    pub by: Four<i16>,
    pub top: u16,
}

fn scale(o: i8, shift: u32) -> i16
    requires { shift ≤ 6 }
    ensures { result ≡ o *ℤ pos (2 ^ shift) }
{
    (o as i16) * ((1u16 << shift) as i16)
}

// Offsets as coded, scaled to the depth.
pub fn scaled_by(o: Four<i8>, shift: u32) -> Four<i16>
    requires { shift ≤ 6 }
    ensures { result ≡ scaled_by shift o }
{
    Four {
        o1: scale(o.o1, shift),
        o2: scale(o.o2, shift),
        o3: scale(o.o3, shift),
        o4: scale(o.o4, shift),
    }
}

pub fn moves_of(o: Four<i16>, depth: u32) -> Moves
    requires { depth ≤ 16 }
    ensures { result ≡ moves_of depth o }
{
    Moves {
        by: o,
        top: planes::top_of(depth),
    }
}

// ---- a sample and an offset

// A number of 16 bits, less half of their range: in the same order, and signed, as vectors compare
// and add. As a `From` it would not say what is taken off.
fn lowered(n: u16) -> i16
    ensures { result ≡ low_of n }
{
    ((n as i32) - 32768) as i16
}

fn restored(v: i16) -> u16
    ensures { v ≡ low_of result }
{
    ((v as i32) + 32768) as u16
}

// A sample and an offset, lowered, and kept within 16 bits: one saturating sum of a vector's parts. Of
// i16's saturating_add the compiler makes none: with it edge takes 1.4 times as long.
fn add_held(s: u16, o: i16) -> i16
    ensures { result ≡ low_of (held 65535 (pos s +ℤ o)) }
{
    let v = (lowered(s) as i32) + (o as i32);
    if v < -32768 {
        return -32768;
    }
    if v > 32767 {
        return 32767;
    }
    v as i16
}

// A sample moved by an offset, and kept within 0 and top.
fn moved_by(s: u16, o: i16, top: u16) -> u16
    ensures { result ≡ held top (pos s +ℤ o) }
{
    restored(add_held(s, o).min(lowered(top)))
}

// ---- a sample by its neighbours

// The sign of a sample minus its neighbour.
fn sign_of(s: u16, a: u16) -> i16
    ensures { result ≡ sign (pos s -ℤ pos a) }
{
    s.cmp(&a) as i16
}

// o where n is k, and 0 elsewhere: a mask.
fn only(n: i16, k: i16, o: i16) -> i16
    ensures { Only n k o result }
{
    if n == k { o } else { 0 }
}

// The offset of a sum of two signs, that of its category: at most one of the four is not 0.
fn edge_offset(o: Four<i16>, n: i16) -> i16
    ensures { result ≡ value_of o (edge_idx (pos 2 +ℤ n)) }
{
    let a = only(n, -2, o.o1);
    let b = only(n, -1, o.o2);
    let c = only(n, 1, o.o3);
    let d = only(n, 2, o.o4);
    a + b + c + d
}

fn edge_sample(m: Moves, s: u16, a: u16, b: u16) -> u16
    ensures { result ≡ moved m (edge_idx_of s (Some a) (Some b)) s }
{
    moved_by(s, edge_offset(m.by, sign_of(s, a) + sign_of(s, b)), m.top)
}

// The category numbers of the sums -2, -1, 0, 1 and 2 of two signs.
const CATEGORIES: [u16; 5] = [1, 2, 0, 3, 4];

// They are those of the definitions, and the numbers of a sum and of its negation mirror each other.
// No row reads them: they are for who has to name one sample's category.
pub fn categories() -> [u16; 5]
    ensures { Numbers result }
{
    CATEGORIES
}

// ---- a sample by its band

// The band where the four of a block begin, and the depth of the samples, of which each 32nd part is a
// band.
#[derive(Clone, Copy)]
pub struct Bands {
    pub position: u16,
    pub depth: u32,
    ghost banded: { Banded depth position },
}

impl Bands {
    // A sample's band, less the position, modulo 32. A number beyond the depth has a place as well.
    fn place(self, s: u16) -> u16
        ensures { result ≡ place_of self.depth self.position s }
    {
        ((s >> (self.depth - 5)) + 32 - self.position) % 32
    }
}

// o where k is at least from and below to, and 0 elsewhere: a mask. Of the two tests the compiler
// makes one.
fn within(k: u16, from: u16, to: u16, o: i16) -> i16
    ensures { Within k from to o result }
{
    if from <= k && k < to { o } else { 0 }
}

// The offset of a place below 4; the other places have none.
fn band_offset(o: Four<i16>, k: u16) -> i16
    ensures { result ≡ value_of o (cond (ltb k 4) (k + 1) 0) }
{
    let a = within(k, 0, 1, o.o1);
    let b = within(k, 1, 2, o.o2);
    let c = within(k, 2, 3, o.o3);
    let d = within(k, 3, 4, o.o4);
    a + b + c + d
}

fn band_sample(m: Moves, bands: Bands, s: u16) -> u16
    ensures { result ≡ moved m (band_idx bands.depth bands.position s) s }
{
    moved_by(s, band_offset(m.by, bands.place(s)), m.top)
}

// ---- rows
//
// They go by an index. Over a zip of out and the parts the code would be the same, but of what is written
// through one a proof knows nothing afterwards. One function over a closure is no plainer than two loops of
// one line each.

// Samples whose neighbours are those of the parts a and b.
pub fn edge_row(m: Moves, cur: &[u16], a: &[u16], b: &[u16], out: &mut [u16])
    requires { Equal cur.now a.now b.now out.old }
    ensures { Filled (length out.old) (edge_row m cur.now a.now b.now) out.old out.new }
{
    for (i, o) in out.iter_mut().enumerate() {
        *o = edge_sample(m, cur[i], a[i], b[i]);
    }
}

pub fn band_row(m: Moves, bands: Bands, cur: &[u16], out: &mut [u16])
    requires { length cur.now ≡ length out.old }
    ensures { Filled (length out.old) (band_row m bands.depth bands.position cur.now) out.old out.new }
{
    for (i, o) in out.iter_mut().enumerate() {
        *o = band_sample(m, bands, cur[i]);
    }
}
