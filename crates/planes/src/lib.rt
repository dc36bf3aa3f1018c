// Planes: where a sample stands, a block copied in, a block scanned, and the leading rows.
#![tactic(auto)]

ghost use Rattle.std.specs.Prelude.{◌≡◌, ℕ, ◌+◌, ◌-◌, ◌*◌, ◌^◌, ◌≤◌, ◌<◌, length, slice_index, take};
ghost use Rattle.std.specs.Int.Bits.{bit_or};
ghost use Rattle.standard.specs.Refusals.{Tells};
ghost use Rattle.standard.specs.Reasons.{area};
ghost use Rattle.standard.specs.Samples.{at};
ghost use Rattle.standard.specs.Calls.{Written, delivered};
ghost use Rattle.planes.specs.Places.{Indexed, Placed, row, Filled};
ghost use Rattle.planes.specs.Scans.{together, SampleAbove, BlockAbove, row_below, pair_together};

use standard::Rectangle;

// Where column x of row y stands in a plane.
pub fn index(w: usize, h: usize, x: usize, y: usize) -> usize
    requires { (w ≤ 8192) × (h ≤ 8192) × (x < w) × (y < h) }
    ensures { Indexed w h x y result }
{
    y * w + x
}

// ---- a block copied in

// A rectangle, and the plane that it lies in: its columns and its rows.
#[derive(Clone, Copy)]
pub struct Place {
    pub width: usize,
    pub height: usize,
    pub rectangle: Rectangle,
    ghost placed: { Placed width height rectangle },
}

// A part of a row becomes another. By a loop: copy_from_slice calls memmove for each row, and off then takes 1.1 times plain C's
// time, where its target is below 1.
pub fn copy_row(samples: &[u16], out: &mut [u16])
    requires { length samples.now ≡ length out.old }
    ensures { Filled (length out.old) (λ j. slice_index samples.now j) out.old out.new }
{
    for (i, o) in out.iter_mut().enumerate() {
        *o = samples[i];
    }
}

// Row y of a delivered block. Its samples are themselves a plane, as large as the block.
fn put_row(samples: &[u16], plane: &mut [u16], place: Place, y: usize)
    requires samples_len { (length samples.now ≡ area place.rectangle) × (length plane.old ≡ place.width * place.height) }
    requires y0_le_y { (place.rectangle.y0 ≤ y) × (y < place.rectangle.y1) }
    ensures { Written place.width place.height (row place.rectangle.x0 place.rectangle.x1 y) (delivered place.rectangle samples.now) plane.old plane.new }
{
    let r = place.rectangle;
    let n = r.x1 - r.x0;
    let i = index(n, r.y1 - r.y0, 0, y - r.y0);
    let o = index(place.width, place.height, r.x0, y);
    copy_row(&samples[i..i + n], &mut plane[o..o + n]);
}

// A delivered block, row after row.
pub fn put_block(samples: &[u16], plane: &mut [u16], place: Place)
    requires samples_len { (length samples.now ≡ area place.rectangle) × (length plane.old ≡ place.width * place.height) }
    ensures { Written place.width place.height place.rectangle (delivered place.rectangle samples.now) plane.old plane.new }
{
    let r = place.rectangle;
    for y in r.y0..r.y1 {
        put_row(samples, plane, place, y);
    }
}

// ---- samples scanned

// The largest sample of a depth.
pub fn top_of(depth: u32) -> u16
    requires { depth ≤ 16 }
    ensures { result ≡ 2 ^ depth - 1 }
{
    ((1u32 << depth) - 1) as u16
}

// The samples ORed together: none is above that. It takes a sixth of the time of a test of each.
fn or_row(samples: &[u16]) -> u16
    ensures { result ≡ together (λ j. slice_index samples.now j) (length samples.now) }
{
    samples.iter().fold(0, |v, s| v | *s)
}

// Two rows ORed together. A row and the next at once take less time than one after the other.
fn or_rows(a: &[u16], b: &[u16]) -> u16
    requires { length b.now ≡ length a.now }
    ensures { result ≡ together (λ j. bit_or (slice_index a.now j) (slice_index b.now j)) (length a.now) }
{
    let mut v = 0;
    for (s, t) in a.iter().zip(b) {
        v |= *s | *t;
    }
    v
}

// The row below y, or y itself where it is the rectangle's last: as a least of two it would say less.
fn row_below(r: Rectangle, y: usize) -> usize
    requires { y < r.y1 }
    ensures { result ≡ row_below r y }
{
    if y + 1 < r.y1 { y + 1 } else { y }
}

// Whether a sample is above the top. Only where the samples together are, is one looked for: they are above it by a bit that one of them
// has, and no sample need be.
pub fn sample_above(samples: &[u16], top: u16) -> bool
    ensures { Tells (SampleAbove samples.now top) result }
{
    top < or_row(samples) && samples.iter().any(|s| top < *s)
}

// ---- a plane that is read

// All of a plane: row after row.
#[derive(Clone, Copy)]
pub struct Plane<'a> {
    pub samples: &'a [u16],
    pub width: usize,
    pub height: usize,
    ghost wide: { width ≤ 8192 },
    ghost high: { height ≤ 8192 },
    ghost long: { length samples.now ≡ width * height },
}

impl<'a> Plane<'a> {
    // Of row y the columns from x0 up to and without x1.
    fn row(self, x0: usize, x1: usize, y: usize) -> &'a [u16]
        requires { (x0 < x1) × (x1 ≤ self.width) × (y < self.height) }
        ensures len { length result.now ≡ x1 - x0 }
        ensures each { (j : ℕ) → j < x1 - x0 → slice_index result.now j ≡ at self.entry.samples.now self.entry.width (x0 + j) y }
    {
        let i = index(self.width, self.height, x0, y);
        let n = x1 - x0;
        &self.samples[i..i + n]
    }

    // Row y of the rectangle and the row below it.
    fn or_pair(self, r: Rectangle, y: usize) -> u16
        requires { Placed self.width self.height r × (r.y0 ≤ y) × (y < r.y1) }
        ensures { result ≡ pair_together self.entry.samples.now self.entry.width r y }
    {
        let upper = self.row(r.x0, r.x1, y);
        let lower = self.row(r.x0, r.x1, row_below(r, y));
        or_rows(upper, lower)
    }

    // Whether a sample of the rectangle is above the top. Two rows are passed over where their samples,
    // ORed together, are not above it; elsewhere a row is gone through column after column. So the scan is
    // left at the first such sample, in the order of rows and then of columns, and by a label: docs/DECISIONS.md
    // has that form ("Forms that document 01 names"). The rows are no `for`: the step is 2 or 1.
    pub fn some_above(self, r: Rectangle, top: u16) -> bool
        requires { Placed self.width self.height r }
        ensures { Tells (BlockAbove self.entry.samples.now self.entry.width r top) result }
    {
        let mut found = false;
        let mut y = r.y0;
        'scan: while y < r.y1 {
            if self.or_pair(r, y) <= top {
                y += 2;
            } else {
                for s in self.row(r.x0, r.x1, y) {
                    if top < *s {
                        found = true;
                        break 'scan;
                    }
                }
                y += 1;
            }
        }
        found
    }

    // The first n rows.
    pub fn leading_rows(self, n: usize) -> &'a [u16]
        requires { n ≤ self.height }
        ensures { result.now ≡ take (n * self.entry.width) self.entry.samples.now }
    {
        &self.samples[..n * self.width]
    }
}
