// The bins of a set's components, put into lent bytes from the most significant bit of the first byte
// on, or counted. A set outside the rules has bins as well: a magnitude above the largest is all ones.
#![tactic(auto)]

ghost use Rattle.std.specs.Prelude.{◌≡◌, Bool, List, ℕ, ◌++◌, ◌+◌, ◌%◌, ◌≤◌, ◌<◌, nat_abs, length};
ghost use Rattle.standard.specs.Bins.{truncated, fixed_length, magnitudes, sign_bins, signs, type_idx, type_bins, rest, rest_of_cr, when};
ghost use Rattle.sink.specs.Puts.{Room, Puts};
ghost use Rattle.sink.specs.Sinks.{SinkLaws, has_bytes, PutInto, can_count, Counted, class_bins};
ghost use Rattle.sink.specs.Laws.{put_laws, count_laws};

use geometry::Most;
use standard::{Four, Offsets};

// What takes bins, one after another.
pub trait Sink {
    // So many bins more can be taken: asked of other bins by each function below, and so no fact of the sink alone.
    ghost has_room: { Self → ℕ → Type 0 };

    // What a sink has become that took bins.
    ghost takes: { Self → List Bool → Self → Type 0 };

    ghost laws: { SinkLaws has_room takes };

    // The `width` low bits of `value`, the high one first.
    fn bits(&mut self, width: u32, value: u32)
        requires room { has_room self.old width }
        requires width_bound { width < 32 }
        ensures { takes self.old (fixed_length width value) self.new };
}

// The place after the bins that were put.
#[derive(Clone, Copy)]
pub struct Put {
    pub at: usize,
}

impl Put {
    // The `width` low bits of `value`, the high one first, into what is left of one byte. The bits
    // after them in that byte become 0.
    fn part(self, out: &mut [u8], width: u32, value: u32) -> Put
        requires room { Room self.at width out.old }
        requires width_nonzero { (0 < width) × (self.at % 8 + width ≤ 8) }
        ensures { Puts self.at (fixed_length width value) out.old out.new result.at }
    {
        let at = self.at;
        let i = at / 8;
        let room = 8 - (at % 8) as u32;
        let old = out[i] as u32;
        let kept = old >> room << room;
        let new = value << (32 - width) >> (32 - room);
        out[i] = (kept + new) as u8;
        Put {
            at: at + width as usize,
        }
    }

    // The `width` low bits of `value`, the high one first.
    pub fn bits(self, out: &mut [u8], width: u32, value: u32) -> Put
        requires room { Room self.at width out.old }
        requires width_bound { width < 32 }
        ensures { Puts self.at (fixed_length width value) out.old out.new result.at }
    {
        let mut c = self;
        // Each round puts as many bits as its byte has room for, so no range counts the rounds.
        let mut left = width;
        while left > 0 {
            let room = 8 - (c.at % 8) as u32;
            let k = left.min(room);
            left -= k;
            c = c.part(out, k, value >> left);
        }
        c
    }
}

// Bytes that bins are put into.
#[derive(Drop)]
pub struct Bytes<'a> {
    pub out: &'a mut [u8],
    pub put: Put,
}

impl Sink for Bytes<'_> {
    ghost has_room = { has_bytes };

    ghost takes = { PutInto };

    ghost laws = { put_laws };

    fn bits(&mut self, width: u32, value: u32) {
        self.put = self.put.bits(self.out, width, value);
    }
}

// How many bins there are.
#[derive(Clone, Copy)]
pub struct Count {
    pub bins: usize,
}

impl Sink for Count {
    ghost has_room = { can_count };

    ghost takes = { Counted };

    ghost laws = { count_laws };

    #[tactic(auto, using(standard::proofs::Longest::fixed_length_lem))]
    fn bits(&mut self, width: u32, _value: u32) {
        self.bins += width as usize;
    }
}

pub fn magnitude(o: i8) -> u32
    ensures { result ≡ nat_abs o }
{
    u32::from(o.unsigned_abs())
}

fn type_idx(o: Offsets) -> u32
    ensures { result ≡ type_idx o }
{
    match o {
        Offsets::Off => 0,
        Offsets::Band { .. } => 1,
        Offsets::Edge { .. } => 2,
    }
}

// v ones and a zero, or m ones.
#[tactic(auto, using(crate::proofs::Ones::two_le, crate::proofs::Ones::zero_bits, crate::proofs::Ones::ones_bits, crate::proofs::Bits::truncated_length_part, crate::proofs::Bits::truncated_length_full))]
fn truncated<S: Sink>(to: &mut S, m: Most, v: u32)
    requires { S.has_room to.old (length (truncated m.value v)) }
    ensures { S.takes to.old (truncated m.value v) to.new }
{
    if v < m.value {
        return to.bits(v + 1, (2u32 << v) - 2);
    }
    to.bits(m.value, (1u32 << m.value) - 1);
}

// An offset of 0 has no sign.
fn sign<S: Sink>(to: &mut S, o: i8)
    requires { S.has_room to.old (length (sign_bins o)) }
    ensures { S.takes to.old (sign_bins o) to.new }
{
    if o == 0 {
        return;
    }
    if o < 0 {
        return to.bits(1, 1);
    }
    to.bits(1, 0);
}

#[tactic(auto, using(standard::proofs::Signed::backed), unfolding(standard::specs::Bins::magnitudes))]
fn magnitudes<S: Sink>(to: &mut S, m: Most, o: Four<i8>)
    requires { S.has_room to.old (length (magnitudes m.value o)) }
    ensures { S.takes to.old (magnitudes m.value o) to.new }
{
    truncated(to, m, magnitude(o.o1));
    truncated(to, m, magnitude(o.o2));
    truncated(to, m, magnitude(o.o3));
    truncated(to, m, magnitude(o.o4));
}

#[tactic(auto, using(standard::proofs::Signed::backed), unfolding(standard::specs::Bins::signs))]
fn signs<S: Sink>(to: &mut S, o: Four<i8>)
    requires { S.has_room to.old (length (signs o)) }
    ensures { S.takes to.old (signs o) to.new }
{
    sign(to, o.o1);
    sign(to, o.o2);
    sign(to, o.o3);
    sign(to, o.o4);
}

// The type of luma, or of Cb.
fn kind<S: Sink>(to: &mut S, o: Offsets)
    requires { S.has_room to.old (length (type_bins o)) }
    ensures { S.takes to.old (type_bins o) to.new }
{
    truncated(to, Most { value: 2 }, type_idx(o));
}

// What follows the type of Cr, which takes Cb's type and class.
#[tactic(auto, using(standard::proofs::Longest::fixed_length_lem), unfolding(standard::specs::Bins::rest_of_cr))]
fn rest_of_cr<S: Sink>(to: &mut S, m: Most, o: Offsets)
    requires { S.has_room to.old (length (rest_of_cr m.value o)) }
    ensures { S.takes to.old (rest_of_cr m.value o) to.new }
{
    match o {
        Offsets::Off => {}
        Offsets::Band { position, offsets } => {
            magnitudes(to, m, offsets);
            signs(to, offsets);
            to.bits(5, position as u32);
        }
        Offsets::Edge { offsets, .. } => magnitudes(to, m, offsets),
    }
}

#[tactic(auto, using(standard::proofs::Longest::fixed_length_lem))]
fn class<S: Sink>(to: &mut S, o: Offsets)
    requires { S.has_room to.old (length (class_bins o)) }
    ensures { S.takes to.old (class_bins o) to.new }
{
    if let Offsets::Edge { class, .. } = o {
        to.bits(2, class as u32);
    }
}

// What follows the type of luma, or of Cb.
#[tactic(auto, using(crate::proofs::Parts::rest_parts, crate::proofs::Parts::rest_length))]
fn rest<S: Sink>(to: &mut S, m: Most, o: Offsets)
    requires { S.has_room to.old (length (rest m.value o)) }
    ensures { S.takes to.old (rest m.value o) to.new }
{
    rest_of_cr(to, m, o);
    class(to, o);
}

// Luma, where its switch is on.
pub fn luma<S: Sink>(to: &mut S, on: bool, m: Most, y: Offsets)
    requires { S.has_room to.old (length (when on (type_bins y ++ rest m.value y))) }
    ensures { S.takes to.old (when on (type_bins y ++ rest m.value y)) to.new }
{
    if on {
        kind(to, y);
        rest(to, m, y);
    }
}

// Cb and Cr, where their switch is on.
pub fn chroma<S: Sink>(to: &mut S, on: bool, m: Most, cb: Offsets, n: Most, cr: Offsets)
    requires { S.has_room to.old (length (when on (type_bins cb ++ (rest m.value cb ++ rest_of_cr n.value cr)))) }
    ensures { S.takes to.old (when on (type_bins cb ++ (rest m.value cb ++ rest_of_cr n.value cr))) to.new }
{
    if on {
        kind(to, cb);
        rest(to, m, cb);
        rest_of_cr(to, n, cr);
    }
}
