// What the programs that answer records share: bytes that are read in full, numbers of two bytes, the
// numbers of xorshift32 and sums made with them, and what is printed in more than one of them.
#![tactic(auto)]

ghost use Rattle.std.specs.Prelude.{◌≡◌, ◌+◌, ◌*◌, ◌<◌, ◌≤◌, IfOk, length, take, bit_xor, MatchOption, Some};
ghost use Rattle.std.specs.Io.KnownBytes.{Consumes, IsAtEnd};
ghost use Rattle.std.specs.Iterator.{IsFinite};
ghost use Rattle.std.specs.Iterator.Runs.{WholeRun};
ghost use Rattle.std.specs.List.{fold};
ghost use Rattle.records.specs.Draws.{drawn_after};
ghost use Rattle.records.specs.Ends.{EndsBefore};

use standard::{CtuSet, SET_BYTES};
use std::io;
use std::io::Read;

// ---- numbers

pub fn pair(low: u8, high: u8) -> u32
    ensures { (result ≡ low + 256 * high) × (result < 65536) }
{
    u32::from(u16::from_le_bytes([low, high]))
}

// xorshift32
pub fn drawn_after(x: u32) -> u32
    ensures { result ≡ drawn_after x }
{
    let a = x ^ (x << 13);
    let b = a ^ (a >> 17);
    b ^ (b << 5)
}

// The numbers of xorshift32 after one that is not among them.
#[derive(Drop)]
pub struct Draws {
    pub last: u32,
}

impl Iterator for Draws {
    type Item = u32;

    ghost next_gives = { λ before drawn after. (after.last ≡ drawn_after before.last) × (drawn ≡ Some after.last) };

    fn next(&mut self) -> Option<u32> {
        self.last = drawn_after(self.last);
        Some(self.last)
    }
}

// A sum, gone on with: for each number in turn it becomes the number of xorshift32 after the sum XOR the number.
pub fn sum_after<I: Iterator<Item = u32>>(sum: u32, numbers: I) -> u32
    requires can { I.can_next numbers }
    requires ends { IsFinite (I.remaining numbers) }
    ensures { WholeRun I.next_gives numbers (λ p. result ≡ fold (λ v n. drawn_after (bit_xor v n)) sum p.items) }
{
    numbers.fold(sum, |v, n| drawn_after(v ^ n))
}

// ---- bytes that are read

// Reads until buf is full or the input ends, and answers how many bytes it put at the start of buf. A read that fails leaves at the
// start of buf what was read before it; an error is the reader's own. A reader gives some bytes each turn, so nothing counts the turns
// but what is done.
pub fn read_full<R: Read>(input: &mut R, buf: &mut [u8]) -> io::Result<usize>
    ensures kept { length buf.new ≡ length buf.old }
    ensures fits { IfOk result (λ n. n ≤ length buf.new) }
    ensures bytes { IfOk result (λ n. Consumes (R.remaining input.old) (R.remaining input.new)
        (take n buf.new)) }
    ensures end { IfOk result (λ n. n < length buf.new → IsAtEnd (R.remaining input.new)) }
{
    let mut done: usize = 0;
    while done < buf.len() {
        let n = input.read(&mut buf[done..])?;
        if n == 0 {
            break;
        }
        done += n;
    }
    Ok(done)
}

// A record of N bytes; none where the input ends before them.
pub fn read_record<R: Read, const N: usize>(input: &mut R) -> io::Result<Option<[u8; N]>>
    ensures { IfOk result (λ r. MatchOption r (EndsBefore N (R.remaining input.old) (R.remaining input.new))
        (λ whole. Consumes (R.remaining input.old) (R.remaining input.new) whole)) }
{
    let mut record = [0u8; N];
    let n = read_full(input, &mut record)?;
    if n < N { Ok(None) } else { Ok(Some(record)) }
}

// ---- what is printed

// Each byte as two hexadecimal digits.
pub fn print_bytes(rt: &impl Print, bytes: &[u8]) -> io::Result<()> {
    for byte in bytes {
        print!(rt; "{byte:02x}")?;
    }
    Ok(())
}

// A set, as its bytes in a table.
pub fn print_set(rt: &impl Print, set: CtuSet) -> io::Result<()> {
    let mut bytes = [0u8; SET_BYTES];
    sets::say_set(&mut bytes, set);
    print_bytes(rt, &bytes)
}
