// Reads records from standard input, filters the block of each by the proved filter, and prints sums
// of what it made. The records, and the lines that they must give, are written by the second program
// (second/src/stored.rs): `rt check` holds what this one prints to them.
//
// A record has 24 bytes:
//
//      0   width and height of the plane, its bit depth, the manner of its samples
//      4   the block: columns x0 up to and without x1, rows y0 up to and without y1
//      8   the set, as a component's six bytes of the table
//     14   1 where the samples are printed too
//     15   eight bits: a 1 bars a neighbour of the block, from the lowest bit on northwest, north,
//          northeast, west, east, southwest, south, southeast
//     16   eight bytes from which the deblocked samples are made
//
// No sample of the block is compared with one of a neighbour that is barred or outside the plane.
//
// The deblocked samples. The first four of the eight bytes are a number x, the next two a level, the
// low byte first, and the next one less than a period. For place i of the plane, row after row, x
// becomes the next number of xorshift32 (13, 17, 5); the sample is made of the low `depth` bits of
//
//     manner 0    byte i mod 8 of the eight
//     manner 1    x                                          noise
//     manner 2    the level and x mod 3 more                 few levels
//     manner 3    the level                                  flat
//     manner 4    0 where x is even, else 65535              extreme
//     manner 5    the level where i / period is even, else 65535 less the level: alternating
//
// The filtered plane is 65535 throughout before the block is filtered. What is printed is the sum of
// all its samples by 2^32; a second sum, which is 1 at first and becomes for each sample the next
// number of xorshift32 after the sum XOR the sample; and where asked for the samples themselves.
#![tactic(auto)]

ghost use Rattle.std.specs.Prelude.{◌≡◌, ◌*◌, ◌≤◌, true};
ghost use Rattle.standard.specs.Refusals.{Tells};
ghost use Rattle.samples.specs.Around.{NoMore};
ghost use Rattle.samples.specs.Blocks.{Legal};
ghost use Rattle.blocks.specs.Sound.{Sound};

use planes::Plane;
use records::{Draws, pair, read_record, sum_after};
use samples::Around;
use standard::{Four, Layout, Offsets, Rectangle};
use std::{fmt, io};

// How many bytes a record has.
const RECORD: usize = 24;

// The largest plane: a block of 64x64, a sample around it, and as much again, so that the block can
// lie anywhere in it. Any width and height will do whose product is no larger.
const SIDE: usize = 130;

const PLANE: usize = SIDE * SIDE;

// Why a record's block is not filtered: each is a line.
#[derive(Clone, Copy)]
enum Refused {
    NoRoom,
    NoBlock,
    NoPlane,
}

impl fmt::Display for Refused {
    fn fmt<W: fmt::Write>(&self, f: &mut fmt::Formatter<W>) -> fmt::Result {
        f.write_str(match self {
            Refused::NoRoom => "no room",
            Refused::NoBlock => "no block",
            Refused::NoPlane => "no plane",
        })
    }
}

// ---- samples

// How the samples of a plane are made.
#[derive(Clone, Copy)]
enum Manner {
    Given,
    Noise,
    FewLevels,
    Flat,
    Extreme,
    Alternating,
}

impl From<u8> for Manner {
    fn from(number: u8) -> Manner {
        match number {
            0 => Manner::Given,
            1 => Manner::Noise,
            2 => Manner::FewLevels,
            3 => Manner::Flat,
            4 => Manner::Extreme,
            _ => Manner::Alternating,
        }
    }
}

// The number whose low bits are the sample of place i.
fn made(record: &[u8; RECORD], manner: Manner, x: u32, i: usize) -> u32 {
    let level = pair(record[20], record[21]);
    let period = usize::from(record[22]) + 1;
    match manner {
        Manner::Given => u32::from(record[16 + i % 8]),
        Manner::Noise => x,
        Manner::FewLevels => level + x % 3,
        Manner::Flat => level,
        Manner::Extreme => x % 2 * 65535,
        Manner::Alternating if i / period % 2 == 0 => level,
        Manner::Alternating => 65535 - level,
    }
}

fn fill(record: &[u8; RECORD], top: u16, plane: &mut [u16]) {
    let manner = Manner::from(record[3]);
    let draws = Draws {
        last: u32::from_le_bytes([record[16], record[17], record[18], record[19]]),
    };
    for (i, (sample, x)) in plane.iter_mut().zip(draws).enumerate() {
        *sample = (made(record, manner, x, i) % 65536) as u16 & top;
    }
}

// ---- what a record says

// An offset plus 128, as in the table.
fn offset(b: u8) -> i8 {
    (b as i32 - 128) as i8
}

// The one place where the number of a type becomes the type.
fn set_of(record: &[u8; RECORD]) -> Offsets {
    let place = record[9];
    let offsets = Four {
        o1: offset(record[10]),
        o2: offset(record[11]),
        o3: offset(record[12]),
        o4: offset(record[13]),
    };
    match record[8] {
        0 => Offsets::Off,
        1 => Offsets::Band {
            position: place,
            offsets,
        },
        _ => Offsets::Edge {
            class: place,
            offsets,
        },
    }
}

// Offsets are scaled to depths above 10.
fn layout_of(record: &[u8; RECORD]) -> Layout {
    let depth = u32::from(record[2]);
    Layout {
        width: usize::from(record[0]),
        height: usize::from(record[1]),
        depth,
        shift: depth.saturating_sub(10),
    }
}

fn block_of(record: &[u8; RECORD]) -> Rectangle {
    Rectangle {
        x0: usize::from(record[4]),
        x1: usize::from(record[5]),
        y0: usize::from(record[6]),
        y1: usize::from(record[7]),
    }
}

// ---- what may be compared

// What an answer said, unless the bit bars it.
fn unless_barred(said: bool, bars: u8, bit: u8) -> bool
    ensures { result ≡ true → said ≡ true }
{
    said && bars & bit == 0
}

fn with_bars(o: Around, bars: u8) -> Around
    ensures { NoMore result o }
{
    Around {
        northwest: unless_barred(o.northwest, bars, 1),
        north: unless_barred(o.north, bars, 2),
        northeast: unless_barred(o.northeast, bars, 4),
        west: unless_barred(o.west, bars, 8),
        east: unless_barred(o.east, bars, 16),
        southwest: unless_barred(o.southwest, bars, 32),
        south: unless_barred(o.south, bars, 64),
        southeast: unless_barred(o.southeast, bars, 128),
    }
}

// ---- filtered

fn is_legal(set: Offsets) -> bool
    ensures { Tells (Legal set) result }
{
    match set {
        Offsets::Off => true,
        Offsets::Band { position, .. } => position < 32,
        Offsets::Edge { class, .. } => class < 4,
    }
}

fn is_sound(l: Layout, set: Offsets, r: Rectangle) -> bool
    ensures { Tells (Sound l set r) result }
{
    l.width <= 255
        && l.height <= 255
        && 8 <= l.depth
        && l.depth <= 16
        && l.shift <= 6
        && r.x0 < r.x1
        && r.x1 <= l.width
        && r.y0 < r.y1
        && r.y1 <= l.height
        && is_legal(set)
}

fn area(w: usize, h: usize) -> usize
    requires { (w ≤ 255) × (h ≤ 255) }
    ensures { result ≡ w * h }
{
    w * h
}

// Filters the block if the planes are its own and no sample is above the depth.
fn filter(
    l: Layout,
    set: Offsets,
    bars: u8,
    r: Rectangle,
    plane: &[u16],
    out: &mut [u16],
) -> Result<(), Refused>
    requires { Sound l set r }
{
    let n = area(l.width, l.height);
    if plane.len() != n || out.len() != n {
        return Err(Refused::NoPlane);
    }
    let top = planes::top_of(l.depth);
    let deblocked = Plane {
        samples: plane,
        width: l.width,
        height: l.height,
    };
    if deblocked.some_above(r, top) {
        return Err(Refused::NoPlane);
    }
    let o = with_bars(samples::in_picture(l, r), bars);
    samples::filter_block(l, set, o, r, plane, out);
    Ok(())
}

// Filters the record's block in planes of its size.
fn filter_said(record: &[u8; RECORD], plane: &mut [u16], out: &mut [u16]) -> Result<(), Refused> {
    let l = layout_of(record);
    let set = set_of(record);
    let r = block_of(record);
    if !is_sound(l, set, r) {
        return Err(Refused::NoBlock);
    }
    fill(record, planes::top_of(l.depth), plane);
    filter(l, set, record[15], r, plane, out)
}

// Filters the record's block in the front of the planes, and answers the filtered one.
fn filtered<'a>(
    record: &[u8; RECORD],
    plane: &mut [u16; PLANE],
    out: &'a mut [u16; PLANE],
) -> Result<&'a [u16], Refused> {
    let n = area(usize::from(record[0]), usize::from(record[1]));
    if n > PLANE {
        return Err(Refused::NoRoom);
    }
    let out = &mut out[..n];
    filter_said(record, &mut plane[..n], out)?;
    Ok(out)
}

// ---- what is printed

fn sum(plane: &[u16]) -> u32 {
    plane
        .iter()
        .fold(0u32, |v, sample| v.wrapping_add(u32::from(*sample)))
}

fn second_sum(plane: &[u16]) -> u32 {
    sum_after(1, plane.iter().map(|sample| u32::from(*sample)))
}

fn print_samples(rt: &impl Print, plane: &[u16]) -> io::Result<()> {
    for sample in plane {
        print!(rt; " {sample}")?;
    }
    Ok(())
}

fn print(rt: &impl Print, plane: &[u16], in_full: bool) -> io::Result<()> {
    print!(rt; "{:08x} {:08x}", sum(plane), second_sum(plane))?;
    if in_full {
        print_samples(rt, plane)?;
    }
    rt.write_all(b"\n")
}

// ---- record after record

// Filters the record's block, and prints what became of it.
fn answer(rt: &impl Print, record: &[u8; RECORD]) -> io::Result<()> {
    let mut plane = [0u16; PLANE];
    let mut out = [65535u16; PLANE];
    match filtered(record, &mut plane, &mut out) {
        Ok(out) => print(rt, out, record[14] != 0),
        Err(refused) => println!(rt; "{refused}"),
    }
}

// A proved loop has to end, and nothing says that the input does: no run has so many records.
fn main(rt: HostRuntime) -> io::Result<()> {
    let mut input = rt.stdin();
    for _ in 0..u64::MAX {
        let Some(record) = read_record(&mut input)? else {
            break;
        };
        answer(&rt, &record)?;
    }
    Ok(())
}
