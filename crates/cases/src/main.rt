// Reads records from standard input and prints for each, on a line, what the proved reader or writer
// of bins answers. The records, and the lines that they must give, are written by the second program
// (second/src/stored.rs): `rt check` holds what this one prints to them.
//
// A record is a head of 72 bytes and a body of 56. The head begins with three sets, as the first entries
// of a table: the left neighbour's, the upper neighbour's, and the one to be written. After them stand,
// numbers of two bytes with the low one first:
//
//     54   1 where there is a left neighbour, 55 where there is an upper one, else 0
//     56   0 to read, 1 to write
//     57   the description: format, luma depth, chroma depth, luma switch, chroma switch
//     62   width, height and CTB size, of two bytes each
//     68   how many bins there are to be read, of two bytes
//     70   how many bytes of the body are lent: bins to be read, or room for those to be written; 71 is 0
//
// A line has the set that was read, as its bytes in a table, or that the bins end too "early" or
// that some "remain"; the number of bins that were written, or that there is "no room", and after a
// colon all bytes that were lent. Or it names what the stage would refuse before it comes to the bins:
// the "description", a stored set of a "neighbour", the "set" to be written, the "count" of bins.
#![tactic(auto)]

ghost use Rattle.std.specs.Prelude.{◌<◌};

use bins::{BinsError, Form};
use records::{pair, print_bytes, print_set, read_record};
use standard::{BitDepths, CtuSet, Picture, Switches};
use std::{fmt, io};
use writer::{Ctu, NoRoom};

// How many bytes the head of a record has, and how many head and body.
const HEAD: usize = 72;

const RECORD: usize = HEAD + 56;

// Why a record gets no set and no bins: each is a word of a line.
#[derive(Clone, Copy)]
enum Refused {
    Description,
    Neighbour,
    NoNeighbour,
    Set,
    Length,
    Count,
    Early,
    Remain,
}

impl fmt::Display for Refused {
    fn fmt<W: fmt::Write>(&self, f: &mut fmt::Formatter<W>) -> fmt::Result {
        f.write_str(match self {
            Refused::Description => "description",
            Refused::Neighbour => "neighbour",
            Refused::NoNeighbour => "no neighbour",
            Refused::Set => "set",
            Refused::Length => "length",
            Refused::Count => "count",
            Refused::Early => "early",
            Refused::Remain => "remain",
        })
    }
}

impl From<BinsError> for Refused {
    fn from(error: BinsError) -> Refused {
        match error {
            BinsError::TooEarly => Refused::Early,
            BinsError::BinsRemain => Refused::Remain,
        }
    }
}

// What a record is answered: the set that was read; or how many bins were written, where there was room for
// them, and all bytes that were lent.
enum Answer<'a> {
    Read(CtuSet),
    Written(Result<usize, NoRoom>, &'a [u8]),
}

// ---- what a record says

// Not one with that of `replay`: there the fields lie otherwise, and its sizes have four bytes.
fn picture_of(record: &[u8; RECORD]) -> Picture {
    Picture {
        width: pair(record[62], record[63]),
        height: pair(record[64], record[65]),
        ctb: pair(record[66], record[67]),
        format: record[57],
        depth: BitDepths {
            luma: record[58],
            chroma: record[59],
        },
        luma: record[60] != 0,
        chroma: record[61] != 0,
    }
}

// The neighbour of entry k, where there is one.
fn neighbour(
    s: Switches,
    record: &[u8; RECORD],
    is_there: u8,
    k: usize,
) -> Result<Option<CtuSet>, Refused>
    requires { k < 3 }
{
    if is_there == 0 {
        return Ok(None);
    }
    let set = sets::get_set(s, record, k).ok_or(Refused::Neighbour)?;
    Ok(Some(set))
}

fn ctu_of(record: &[u8; RECORD]) -> Result<Ctu, Refused> {
    let picture = picture_of(record);
    if !geometry::is_described(picture) {
        return Err(Refused::Description);
    }
    let switches = geometry::switches_in(picture);
    let left = neighbour(switches, record, record[54], 0)?;
    let up = neighbour(switches, record, record[55], 1)?;
    Ok(Ctu { switches, left, up })
}

// ---- record after record

// The set of the bins. They merge only with a neighbour that is there: that one is missing is never answered.
fn set_read(ctu: Ctu, bytes: &[u8], count: usize) -> Result<CtuSet, Refused>
    requires { count < 65536 }
{
    if count.div_ceil(8) > bytes.len() {
        return Err(Refused::Count);
    }
    match bins::read_form(
        ctu.switches,
        ctu.left.is_some(),
        ctu.up.is_some(),
        bytes,
        count,
    )? {
        Form::Left => ctu.left.ok_or(Refused::NoNeighbour),
        Form::Up => ctu.up.ok_or(Refused::NoNeighbour),
        Form::Full(q) => Ok(q),
    }
}

// Reads or writes, as the record says.
fn answered(record: &mut [u8; RECORD]) -> Result<Answer<'_>, Refused> {
    let ctu = ctu_of(record)?;
    let end = HEAD + usize::from(record[70]);
    if end > RECORD {
        return Err(Refused::Length);
    }
    if record[56] == 0 {
        let count = pair(record[68], record[69]) as usize;
        let set = set_read(ctu, &record[HEAD..end], count)?;
        return Ok(Answer::Read(set));
    }
    let set = sets::get_set(ctu.switches, record, 2).ok_or(Refused::Set)?;
    let lent = &mut record[HEAD..end];
    let bins = ctu.write_set(set, lent);
    Ok(Answer::Written(bins, lent))
}

fn print(rt: &impl Print, answer: Result<Answer, Refused>) -> io::Result<()> {
    match answer {
        Err(refused) => print!(rt; "{refused}")?,
        Ok(Answer::Read(set)) => print_set(rt, set)?,
        Ok(Answer::Written(Ok(n), lent)) => {
            print!(rt; "{n}:")?;
            print_bytes(rt, lent)?
        }
        Ok(Answer::Written(Err(NoRoom), lent)) => {
            print!(rt; "no room:")?;
            print_bytes(rt, lent)?
        }
    }
    rt.write_all(b"\n")
}

// A proved loop has to end, and nothing says that the input does: no run has so many records.
fn main(rt: HostRuntime) -> io::Result<()> {
    let mut input = rt.stdin();
    for _ in 0..u64::MAX {
        let Some(mut record) = read_record(&mut input)? else {
            break;
        };
        print(&rt, answered(&mut record))?;
    }
    Ok(())
}
