// Reads a CTU's parameters from packed bins: bits from the most significant bit of the first byte on, of which the
// first `count` are bins. What is taken at a cursor is a value that the rules allow, by the bins that spell it, and no
// bin more; or the bins end within those of a value.
#![tactic(auto)]

ghost use Rattle.std.specs.Prelude.{◌≡◌, cond, true, ◌++◌, ℕ, ◌+◌, ◌*◌, ◌^◌, ◌≤◌, ◌<◌, pos, neg_ℤ, length, drop, get_or};
ghost use Rattle.standard.specs.Sets.{Fits, Valid};
ghost use Rattle.standard.specs.Bins.{truncated, fixed_length, sign_bins, signs, magnitudes, type_bins, rest, rest_of_cr, full, bits_of, bins_of, number};
ghost use Rattle.standard.specs.Means.{any_on};
ghost use Rattle.bins.specs.Values.{AnyBin, bin_of, MagnitudesFit, magnitudes_bins, OfSize, OfSizes, EdgeOffsetsFit};
ghost use Rattle.bins.specs.Values.{OfType, AfterCb, EdgeOf, CbAndCrFit, cb_and_cr_bins, LumaBySwitch, luma_bins_by_switch, ChromaBySwitch, chroma_bins_by_switch};
ghost use Rattle.bins.specs.Values.{MergeFits, merge_bins, FormFits, bins_of_form};
ghost use Rattle.bins.specs.Forms.{ReadAs};

use geometry::Most;
use standard::{CtuSet, Four, Offsets, Switches};

// A place in the bins, which are the first `count` bits of the bytes.
#[derive(Clone, Copy)]
struct Cursor<'a> {
    bytes: &'a [u8],
    at: usize,
    count: usize,
    ghost place: { at ≤ count },
    ghost room: { count ≤ 8 * length bytes.now },
}

// What is taken is a value and the cursor after it; or the bins end before the value does.
type Taken<'a, T> = Option<(T, Cursor<'a>)>;

// The form that a CTU's bins have: a merge, whose set is the neighbour's, or a set in full.
#[derive(Clone, Copy, PartialEq, Eq)]
pub enum Form {
    Left,
    Up,
    Full(CtuSet),
}

// What is wrong with bins that have no form: they end too early, or some remain after it.
#[derive(Clone, Copy, PartialEq, Eq)]
pub enum BinsError {
    TooEarly,
    BinsRemain,
}

// The byte at i, and 0 past the end: `get` and a closure are no plainer.
fn byte_at(bytes: &[u8], i: usize) -> u64
    ensures value { result ≡ get_or bytes.now i 0 }
    ensures upper_bound { result < 256 }
{
    if i < bytes.len() { bytes[i] as u64 } else { 0 }
}

// The 40 bits from the byte q on as a number, the first one highest.
fn forty(bytes: &[u8], q: usize) -> u64
    requires { q ≤ length bytes.now }
    ensures { result ≡ number 40 (drop (8 * q) (bits_of bytes.now)) }
{
    byte_at(bytes, q) * 0x1_0000_0000
        + byte_at(bytes, q + 1) * 0x100_0000
        + byte_at(bytes, q + 2) * 0x1_0000
        + byte_at(bytes, q + 3) * 0x100
        + byte_at(bytes, q + 4)
}

// An offset of magnitude v: a sum of two things, and so no `From`.
fn offset(v: u32, negative: bool) -> i8
    requires { v < 128 }
    ensures { result ≡ cond negative (neg_ℤ (pos v)) (pos v) }
{
    let n = v as i32;
    if negative { (0 - n) as i8 } else { n as i8 }
}

impl<'a> Cursor<'a> {
    ghost use Rattle.bins.specs.Takes.{bins_at, Past, Takes};

    // The 32 bins from here on as a number, the first one highest. Bits at the count and past it are no bins, and are 0
    // here, so that a magnitude that the count cuts short shows as short.
    fn window(self) -> u32
        ensures { result ≡ number 32 (bins_at self.entry) }
    {
        let at = self.at;
        let w = forty(self.bytes, at / 8) << (24 + at % 8) >> 32;
        let left = self.count - at;
        if left < 32 {
            let missing = 32 - left;
            (w >> missing << missing) as u32
        } else {
            w as u32
        }
    }

    // The cursor n bins on.
    fn past(self, n: usize) -> Cursor<'a>
        requires { self.at + n ≤ self.count }
        ensures { Past self.entry n result }
    {
        Cursor {
            bytes: self.bytes,
            at: self.at + n,
            count: self.count,
        }
    }

    // A magnitude of at most M: its ones are the leading zeros of the window's complement. M itself has no zero after it.
    fn magnitude(self, m: Most) -> Taken<'a, u32>
        ensures { Takes (λ v. v ≤ m.value) (truncated m.value) self.entry result }
    {
        let ones = u32::leading_zeros(!self.window());
        if ones >= m.value {
            return Some((m.value, self.past(m.value as usize)));
        }
        if (ones as usize) < self.count - self.at {
            return Some((ones, self.past(ones as usize + 1)));
        }
        None
    }

    // A number of `width` bins, the highest first.
    fn fixed(self, width: u32) -> Taken<'a, u32>
        requires { (0 < width) × (width < 32) }
        ensures { Takes (λ v. v < 2 ^ width) (fixed_length width) self.entry result }
    {
        if self.count - self.at < width as usize {
            return None;
        }
        let v = self.window() >> (32 - width);
        Some((v, self.past(width as usize)))
    }

    fn flag(self) -> Taken<'a, bool>
        ensures { Takes AnyBin bin_of self.entry result }
    {
        let (v, next) = self.fixed(1)?;
        Some((v == 1, next))
    }

    // Four magnitudes of at most M. Each begins at the cursor that the one before hands back, so a closure over the four,
    // here and in `signs`, is no plainer.
    fn magnitudes(self, m: Most) -> Taken<'a, Four<u32>>
        ensures { Takes (MagnitudesFit m.value) (magnitudes_bins m.value) self.entry result }
    {
        let (o1, c1) = self.magnitude(m)?;
        let (o2, c2) = c1.magnitude(m)?;
        let (o3, c3) = c2.magnitude(m)?;
        let (o4, c4) = c3.magnitude(m)?;
        Some((Four { o1, o2, o3, o4 }, c4))
    }

    // The offset of magnitude v: 0 has no sign bin.
    fn sign(self, v: u32) -> Taken<'a, i8>
        requires { v < 32 }
        ensures { Takes (OfSize v) sign_bins self.entry result }
    {
        if v == 0 {
            return Some((0, self));
        }
        let (negative, next) = self.flag()?;
        Some((offset(v, negative), next))
    }

    // The offsets of four magnitudes.
    fn signs(self, f: Four<u32>) -> Taken<'a, Four<i8>>
        requires { (f.o1 < 32) × (f.o2 < 32) × (f.o3 < 32) × (f.o4 < 32) }
        ensures { Takes (OfSizes f) signs self.entry result }
    {
        let (o1, c1) = self.sign(f.o1)?;
        let (o2, c2) = c1.sign(f.o2)?;
        let (o3, c3) = c2.sign(f.o3)?;
        let (o4, c4) = c3.sign(f.o4)?;
        Some((Four { o1, o2, o3, o4 }, c4))
    }

    // A band's magnitudes, signs and position.
    fn band(self, m: Most) -> Taken<'a, Offsets>
        ensures { Takes (OfType 1 m.value) (rest m.value) self.entry result }
    {
        let (f, c1) = self.magnitudes(m)?;
        let (offsets, c2) = c1.signs(f)?;
        let (k, c3) = c2.fixed(5)?;
        Some((
            Offsets::Band {
                position: k as u8,
                offsets,
            },
            c3,
        ))
    }

    // An edge's magnitudes, whose signs are not coded: the first two offsets are not negative, the last two not positive.
    fn edge_offsets(self, m: Most) -> Taken<'a, Four<i8>>
        ensures { Takes (EdgeOffsetsFit m.value) (magnitudes m.value) self.entry result }
    {
        let (f, next) = self.magnitudes(m)?;
        Some((
            Four {
                o1: offset(f.o1, false),
                o2: offset(f.o2, false),
                o3: offset(f.o3, true),
                o4: offset(f.o4, true),
            },
            next,
        ))
    }

    // An edge's magnitudes and class.
    fn edge(self, m: Most) -> Taken<'a, Offsets>
        ensures { Takes (OfType 2 m.value) (rest m.value) self.entry result }
    {
        let (offsets, c1) = self.edge_offsets(m)?;
        let (k, c2) = c1.fixed(2)?;
        Some((
            Offsets::Edge {
                class: k as u8,
                offsets,
            },
            c2,
        ))
    }

    // Luma or Cb: its type, and what follows.
    fn component(self, m: Most) -> Taken<'a, Offsets>
        ensures { Takes (Fits m.value) (λ c. type_bins c ++ rest m.value c) self.entry result }
    {
        let (t, next) = self.magnitude(Most { value: 2 })?;
        if t == 0 {
            return Some((Offsets::Off, next));
        }
        if t == 1 {
            return next.band(m);
        }
        next.edge(m)
    }

    // An edge of a class that is known.
    fn edge_of(self, m: Most, class: u8) -> Taken<'a, Offsets>
        requires { class < 4 }
        ensures { Takes (EdgeOf m.value class) (rest_of_cr m.value) self.entry result }
    {
        let (offsets, next) = self.edge_offsets(m)?;
        Some((Offsets::Edge { class, offsets }, next))
    }

    // Cr, which takes Cb's type and class, and nothing else of it.
    fn cr(self, m: Most, cb: Offsets) -> Taken<'a, Offsets>
        requires { (n : ℕ) × Fits n cb }
        ensures { Takes (AfterCb m.value cb) (rest_of_cr m.value) self.entry result }
    {
        match cb {
            Offsets::Off => Some((Offsets::Off, self)),
            Offsets::Band { .. } => self.band(m),
            Offsets::Edge { class, .. } => self.edge_of(m, class),
        }
    }

    // Luma, which is off where its switch is.
    fn luma(self, on: bool, m: Most) -> Taken<'a, Offsets>
        ensures { Takes (LumaBySwitch on m.value) (luma_bins_by_switch on m.value) self.entry result }
    {
        if on {
            self.component(m)
        } else {
            Some((Offsets::Off, self))
        }
    }

    // Cb, and Cr after it, of the largest magnitudes m and n.
    fn cb_and_cr(self, m: Most, n: Most) -> Taken<'a, (Offsets, Offsets)>
        ensures { Takes (CbAndCrFit m.value n.value) (cb_and_cr_bins m.value n.value) self.entry result }
    {
        let (cb, c1) = self.component(m)?;
        let (cr, c2) = c1.cr(n, cb)?;
        Some(((cb, cr), c2))
    }

    // Both chroma components, which are off where their switch is.
    fn chroma(self, on: bool, m: Most, n: Most) -> Taken<'a, (Offsets, Offsets)>
        ensures { Takes (ChromaBySwitch on m.value n.value) (chroma_bins_by_switch on m.value n.value) self.entry result }
    {
        if on {
            self.cb_and_cr(m, n)
        } else {
            Some(((Offsets::Off, Offsets::Off), self))
        }
    }

    // The full form.
    fn full(self, s: Switches) -> Taken<'a, CtuSet>
        ensures { Takes (Valid s) (full s) self.entry result }
    {
        let (luma, c1) = self.luma(s.luma, geometry::most_of(s, 0))?;
        let ((cb, cr), c2) = c1.chroma(s.chroma, geometry::most_of(s, 1), geometry::most_of(s, 2))?;
        Some((CtuSet { luma, cb, cr }, c2))
    }

    // Whether the merge with a neighbour is taken: no bin says so where it is not there.
    fn merge(self, there: bool) -> Taken<'a, bool>
        ensures { Takes (MergeFits there) (merge_bins there) self.entry result }
    {
        if there {
            self.flag()
        } else {
            Some((false, self))
        }
    }

    // Merge left, else merge up, else the full form.
    fn form(self, s: Switches, has_left: bool, has_up: bool) -> Taken<'a, Form>
        ensures { Takes (FormFits s has_left has_up) (bins_of_form s has_left has_up) self.entry result }
    {
        let (left, c1) = self.merge(has_left)?;
        if left {
            return Some((Form::Left, c1));
        }
        let (up, c2) = c1.merge(has_up)?;
        if up {
            return Some((Form::Up, c2));
        }
        let (q, c3) = c2.full(s)?;
        Some((Form::Full(q), c3))
    }

    // The form of the bins from here on, of a CTU that has some.
    fn coded_form(self, s: Switches, has_left: bool, has_up: bool) -> Result<Form, BinsError>
        requires { any_on s ≡ true }
        ensures { ReadAs s has_left has_up (bins_at self.entry) result }
    {
        let (form, end) = self.form(s, has_left, has_up).ok_or(BinsError::TooEarly)?;
        if end.at < end.count {
            return Err(BinsError::BinsRemain);
        }
        Ok(form)
    }
}

// The form of a CTU's bins, of a count that the caller has held to the bytes. With both switches off a CTU has none, and is off.
pub fn read_form(
    s: Switches,
    has_left: bool,
    has_up: bool,
    bytes: &[u8],
    count: usize,
) -> Result<Form, BinsError>
    requires { count ≤ 8 * length bytes.now }
    ensures { ReadAs s has_left has_up (bins_of bytes.now count) result }
{
    if geometry::any_on(s) {
        let start = Cursor {
            bytes,
            at: 0,
            count,
        };
        return start.coded_form(s, has_left, has_up);
    }
    if count > 0 {
        return Err(BinsError::BinsRemain);
    }
    Ok(Form::Full(CtuSet {
        luma: Offsets::Off,
        cb: Offsets::Off,
        cr: Offsets::Off,
    }))
}
