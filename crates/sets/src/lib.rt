// A CTU's set compared, judged by the rules, stored in the table and read back. Judging and what follows
// go over a component's six bytes of the table: offsets are signed only where they become bytes, or bytes them.
#![tactic(auto)]

ghost use Rattle.std.specs.Prelude.{◌≡◌, ◌+◌, ◌*◌, ◌≤◌, nat_abs, length, take, drop};
ghost use Rattle.standard.specs.declared.Offsets.TheVariants.{Off};
ghost use Rattle.standard.specs.Sets.{most, four, Small, EdgeSigns, Fits, Shares, Valid};
ghost use Rattle.standard.specs.Table.{set_size, entry_size, offset_byte, offset_of, encode, entered, offsets_at};
ghost use Rattle.standard.specs.Refusals.{Tells};
ghost use Rattle.sets.specs.Entries.{list_of, offsets_in, says, set_of, Coded, CodedSet, LumaRuled, ChromaRuled, put, Finds, Encodes, Codes, Stands, StandsFor};

use standard::{CtuSet, ENTRY_BYTES, Four, Offsets, SET_BYTES, Switches};

// One component in an entry of the table: its type, its band position or class, and its offsets, each
// plus 128. The type is a number, since a table may hold any: `is_code` finds the others out.
#[derive(Clone, Copy, PartialEq, Eq)]
struct Six {
    kind: u8,
    place: u8,
    offsets: Four<u8>,
}

// The bytes of a set: an entry of the table, and what crosses in a call.
#[derive(Clone, Copy)]
struct SetBytes {
    luma: Six,
    cb: Six,
    cr: Six,
}

// ---- an offset, a component and a set, as bytes

// Sums, as the definitions have them: as a `From` they would not say that 128 is added.
fn byte_of(o: i8) -> u8
    ensures { result ≡ offset_byte o }
{
    (o as i32 + 128) as u8
}

fn offset_of(b: u8) -> i8
    ensures { result ≡ offset_of b }
{
    (b as i32 - 128) as i8
}

fn bytes_of(o: Four<i8>) -> Four<u8>
    ensures { result ≡ four (offset_byte o.o1) (offset_byte o.o2) (offset_byte o.o3) (offset_byte o.o4) }
{
    Four {
        o1: byte_of(o.o1),
        o2: byte_of(o.o2),
        o3: byte_of(o.o3),
        o4: byte_of(o.o4),
    }
}

fn offsets_of(b: Four<u8>) -> Four<i8>
    ensures { result ≡ offsets_in b }
{
    Four {
        o1: offset_of(b.o1),
        o2: offset_of(b.o2),
        o3: offset_of(b.o3),
        o4: offset_of(b.o4),
    }
}

impl From<Offsets> for Six {
    ghost from_gives = { Coded };

    fn from(o: Offsets) -> Six {
        match o {
            Offsets::Off => Six {
                kind: 0,
                place: 0,
                offsets: Four {
                    o1: 0,
                    o2: 0,
                    o3: 0,
                    o4: 0,
                },
            },
            Offsets::Band { position, offsets } => Six {
                kind: 1,
                place: position,
                offsets: bytes_of(offsets),
            },
            Offsets::Edge { class, offsets } => Six {
                kind: 2,
                place: class,
                offsets: bytes_of(offsets),
            },
        }
    }
}

// Bytes that encode nothing say something or other; `is_code` finds them out.
impl From<Six> for Offsets {
    ghost from_gives = { λ s o. o ≡ says s };

    #[tactic(auto, using(crate::proofs::Bytes::by_kind))]
    fn from(s: Six) -> Offsets {
        match s.kind {
            0 => Offsets::Off,
            1 => Offsets::Band {
                position: s.place,
                offsets: offsets_of(s.offsets),
            },
            _ => Offsets::Edge {
                class: s.place,
                offsets: offsets_of(s.offsets),
            },
        }
    }
}

impl From<CtuSet> for SetBytes {
    ghost from_gives = { CodedSet };

    fn from(q: CtuSet) -> SetBytes {
        SetBytes {
            luma: q.luma.into(),
            cb: q.cb.into(),
            cr: q.cr.into(),
        }
    }
}

impl From<SetBytes> for CtuSet {
    ghost from_gives = { λ b q. q ≡ set_of b };

    fn from(b: SetBytes) -> CtuSet {
        CtuSet {
            luma: b.luma.into(),
            cb: b.cb.into(),
            cr: b.cr.into(),
        }
    }
}

// ---- compared

#[tactic(auto, using(standard::proofs::Same::tells_same_offsets))]
fn same_offsets(a: Offsets, b: Offsets) -> bool
    ensures { Tells (a ≡ b) result }
{
    a == b
}

pub fn same_set(a: CtuSet, b: CtuSet) -> bool
    ensures { Tells (a ≡ b) result }
{
    same_offsets(a.luma, b.luma) && same_offsets(a.cb, b.cb) && same_offsets(a.cr, b.cr)
}

// ---- judged

// Whether the offset has no magnitude above m.
fn is_small(b: u8, m: u32) -> bool
    ensures { Tells (nat_abs (offset_of b) ≤ m) result }
{
    b.abs_diff(128) as u32 <= m
}

fn are_small(b: Four<u8>, m: u32) -> bool
    ensures { Tells (Small m (offsets_in b)) result }
{
    is_small(b.o1, m) && is_small(b.o2, m) && is_small(b.o3, m) && is_small(b.o4, m)
}

fn has_edge_signs(b: Four<u8>) -> bool
    ensures { Tells (EdgeSigns (offsets_in b)) result }
{
    b.o1 >= 128 && b.o2 >= 128 && b.o3 <= 128 && b.o4 <= 128
}

#[tactic(auto, using(crate::proofs::Bytes::by_kind))]
fn is_off(s: Six) -> bool
    ensures { Tells (says s ≡ Off) result }
{
    s.kind == 0
}

#[tactic(auto, using(crate::proofs::Bytes::by_kind))]
fn is_fit(s: Six, m: u32) -> bool
    ensures { Tells (Fits m (says s)) result }
{
    match s.kind {
        0 => true,
        1 => are_small(s.offsets, m) && s.place < 32,
        _ => are_small(s.offsets, m) && s.place < 4 && has_edge_signs(s.offsets),
    }
}

// The same, at the component's depth.
fn is_fit_at(s: Switches, component: u8, six: Six) -> bool
    ensures { Tells (Fits (most s component) (says six)) result }
{
    is_fit(six, geometry::most_of(s, component).value)
}

// Whether Cr has Cb's type and class.
#[tactic(auto, using(crate::proofs::Bytes::by_kind))]
fn is_shared(cb: Six, cr: Six) -> bool
    ensures { Tells (Shares (says cb) (says cr)) result }
{
    match cb.kind {
        0 => cr.kind == 0,
        1 => cr.kind == 1,
        _ => cr.kind >= 2 && cb.place == cr.place,
    }
}

fn is_luma_ruled(s: Switches, luma: Six) -> bool
    ensures { Tells (LumaRuled s (says luma)) result }
{
    if s.luma {
        is_fit_at(s, 0, luma)
    } else {
        is_off(luma)
    }
}

fn is_chroma_ruled(s: Switches, cb: Six, cr: Six) -> bool
    ensures { Tells (ChromaRuled s (says cb) (says cr)) result }
{
    if s.chroma {
        is_fit_at(s, 1, cb) && is_fit_at(s, 2, cr) && is_shared(cb, cr)
    } else {
        is_off(cb) && is_off(cr)
    }
}

fn is_ruled(s: Switches, b: SetBytes) -> bool
    ensures { Tells (Valid s (set_of b)) result }
{
    is_luma_ruled(s, b.luma) && is_chroma_ruled(s, b.cb, b.cr)
}

// Whether the set is within the rules.
pub fn is_valid(s: Switches, q: CtuSet) -> bool
    ensures { Tells (Valid s q) result }
{
    is_ruled(s, q.into())
}

// ---- stored

// That an entry lies in the table stands in three contracts and in no type: this half lends the table
// to write and the next to read, so a type would be two, for one function and for two.

// Byte by byte: `copy_from_slice` of an array goes through a copy of it, and `sg_read` then took 2.4 times as long where a CTU has no bins.
#[tactic(auto, using(crate::proofs::Lists::six_stored))]
fn put_six(table: &mut [u8], at: usize, s: Six)
    requires { at + 6 ≤ length table.old }
    ensures { table.new ≡ put table.old at (list_of s) }
{
    let o = s.offsets;
    table[at] = s.kind;
    table[at + 1] = s.place;
    table[at + 2] = o.o1;
    table[at + 3] = o.o2;
    table[at + 4] = o.o3;
    table[at + 5] = o.o4;
}

// The bytes of a set, from a place on. Compiled into its callers: as a function of its own it is handed the set through memory.
#[inline(always)]
fn put_bytes(bytes: &mut [u8], at: usize, q: CtuSet)
    requires { at + set_size ≤ length bytes.old }
    ensures { bytes.new ≡ put bytes.old at (encode q) }
{
    put_six(bytes, at, q.luma.into());
    put_six(bytes, at + 6, q.cb.into());
    put_six(bytes, at + 12, q.cr.into());
}

// That an entry lies in the table is asked, here and where one is read: a type of table and number would be made anew for each entry.
#[tactic(auto, using(crate::proofs::Lists::put_entered))]
pub fn put_set(table: &mut [u8], k: usize, q: CtuSet)
    requires { entry_size * k + entry_size ≤ length table.old }
    ensures { table.new ≡ entered table.old k q }
{
    put_bytes(table, ENTRY_BYTES * k, q);
}

// ---- read back

fn get_six(table: &[u8], at: usize) -> Six
    requires { at + 6 ≤ length table.now }
    ensures { list_of result ≡ take 6 (drop at table.now) }
{
    let &[kind, place, o1, o2, o3, o4] = table[at..].first_chunk::<6>().unwrap();
    Six {
        kind,
        place,
        offsets: Four { o1, o2, o3, o4 },
    }
}

// The bytes of a set, from a place on.
fn get_bytes(bytes: &[u8], at: usize) -> SetBytes
    requires { at + set_size ≤ length bytes.now }
    ensures luma { list_of result.luma ≡ take 6 (drop at bytes.now) }
    ensures cb { list_of result.cb ≡ take 6 (drop (at + 6) bytes.now) }
    ensures cr { list_of result.cr ≡ take 6 (drop (at + 12) bytes.now) }
{
    SetBytes {
        luma: get_six(bytes, at),
        cb: get_six(bytes, at + 6),
        cr: get_six(bytes, at + 12),
    }
}

// Whether some component is encoded so: the type is one of three, and Off has no byte but 0.
fn is_code(s: Six) -> bool
    ensures { Tells (Encodes (list_of s)) result }
{
    s == Six::from(Offsets::from(s))
}

fn are_codes(b: SetBytes) -> bool
    ensures { Tells (Codes b) result }
{
    is_code(b.luma) && is_code(b.cb) && is_code(b.cr)
}

// The set of an entry; none where its bytes encode no set within the rules.
#[tactic(auto, using(crate::proofs::Finding::holds))]
pub fn get_set(s: Switches, table: &[u8], k: usize) -> Option<CtuSet>
    requires { entry_size * k + entry_size ≤ length table.now }
    ensures { Finds s table.now k result }
{
    let b = get_bytes(table, ENTRY_BYTES * k);
    if are_codes(b) && is_ruled(s, b) {
        Some(b.into())
    } else {
        None
    }
}

// The set of one component of an entry, as its bytes say it: bytes that encode nothing say something
// or other.
#[tactic(auto, using(crate::proofs::Finding::by_component))]
pub fn offsets_at(table: &[u8], k: usize, component: u8) -> Offsets
    requires { entry_size * k + entry_size ≤ length table.now }
    ensures { result ≡ offsets_at table.now component k }
{
    let b = get_bytes(table, ENTRY_BYTES * k);
    match component {
        0 => b.luma.into(),
        1 => b.cb.into(),
        _ => b.cr.into(),
    }
}

// ---- said by the bytes of a set alone

// The component that six bytes encode, or where they encode none one that no set within the rules has.
fn offsets_said(s: Six) -> Offsets
    ensures { Stands (list_of s) result }
{
    if is_code(s) {
        return s.into();
    }
    Offsets::Band {
        position: 255,
        offsets: Four {
            o1: 0,
            o2: 0,
            o3: 0,
            o4: 0,
        },
    }
}

// The set that its bytes encode, within the rules or not.
pub fn set_said(e: &[u8; SET_BYTES]) -> CtuSet
    ensures { StandsFor e.now result }
{
    let b = get_bytes(e, 0);
    CtuSet {
        luma: offsets_said(b.luma),
        cb: offsets_said(b.cb),
        cr: offsets_said(b.cr),
    }
}

// And back: the bytes that encode a set.
#[tactic(auto, using(crate::proofs::Lists::put_alone))]
pub fn say_set(e: &mut [u8; SET_BYTES], q: CtuSet)
    ensures e_after { e.new ≡ encode q }
    ensures e_len { length e.new ≡ set_size }
{
    put_bytes(e, 0, q);
}
