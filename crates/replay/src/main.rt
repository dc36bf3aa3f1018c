// Makes the calls that standard input names, on buffers of its own, and prints for each call, on a
// line, what it answered and sums of all that it was lent. The calls, and the lines that they must
// give, are written by the second program (second/src/stored_runs.rs): `rt check` holds what this one
// prints to them.
//
// There are eight buffers: 0, 1, 2 the deblocked planes, 3, 4, 5 the filtered planes, 6 the marks, 7
// the table. A call is lent the leading part of each.
//
// The input is a row of commands. A command is a head of eight bytes, and for some more bytes after
// it. A number of several bytes has its low byte first. The head is the command's number, three bytes
// a, b, c, and a number n of four bytes.
//
//     0  state    21 bytes more: width, height and CTB size, of four bytes each; format, luma depth,
//                 chroma depth, luma switch and chroma switch; the next CTU, of four bytes
//     1  lengths  16 bytes more: how much of each buffer is lent from now on, of two bytes each
//     2  fill     all buffers, one after the other, from n: for each place n becomes the next number
//                 of xorshift32 (13, 17, 5), and the place n's low bits
//     3  poke     place b + 256 c of buffer a becomes n's low bits
//     4  open
//     5  read     a bytes more, the bins; their count is n, or where b is not 0 as much below 2^64 - 1
//     6  write    as many bytes more as a set has, the set; room for a bytes, each of them b
//     7  deliver  component a, CTB n; 10 bytes more: how many samples, a base and a spread, of two bytes
//                 each, and a number x of four; and b times 4 bytes: a place and a sample, of two bytes
//                 each. For each sample x becomes the next number of xorshift32; the sample is the base
//                 XOR those of x's bits that the spread has. Then the samples at the places are put in.
//     8  filter   component a, CTB n
//     9  rows     component a
//
// A line has the call's letter, the refusal's number or 0; the set that was read, as its
// bytes; or how many bins were written and the sum of the room; or how many rows are finished, and the
// length and the sum of the part handed out. Then stand the sums of the state, the deblocked planes,
// the filtered planes, the marks and the table. A sum is 1 at first and becomes for each number in
// turn the next number of xorshift32 after the sum XOR the number. Of a buffer it goes over the part
// that is lent and the 64 places after it, as far as there are so many.
#![tactic(auto)]

ghost use Rattle.std.specs.Prelude.{◌≤◌, length};

use records::{Draws, print_set, read_full, read_record, sum_after};
use standard::{BitDepths, Picture, Refusal, SET_BYTES, State};
use std::io;
use std::io::Read;

// How long the buffers are. They hold a picture of any format: each plane 128x128 samples, marks and
// table 64 CTUs in three components with entries of up to 32 bytes, and a delivery a CTB of 64x64. A
// row of samples or a CTU more is there for lengths that are too large.
const PLANE: usize = 128 * 129;

const CTUS: usize = 65;

const MARKS: usize = 3 * CTUS;

const TABLE: usize = 32 * CTUS;

const DELIVERY: usize = 64 * 65;

// The most bytes of bins that are given to be read, or lent for those to be written.
const BINS: usize = 64;

// How many places after the lent part of a buffer are summed with it.
const GUARD: usize = 64;

// ---- commands

// A command, by its number; those that are calls apart.
#[derive(Clone, Copy)]
enum Command {
    State,
    Lengths,
    Fill,
    Poke,
    Call(Call),
}

#[derive(Clone, Copy)]
enum Call {
    Open,
    Read,
    Write,
    Deliver,
    Filter,
    Rows,
}

impl From<u8> for Command {
    fn from(number: u8) -> Command {
        match number {
            0 => Command::State,
            1 => Command::Lengths,
            2 => Command::Fill,
            3 => Command::Poke,
            4 => Command::Call(Call::Open),
            5 => Command::Call(Call::Read),
            6 => Command::Call(Call::Write),
            7 => Command::Call(Call::Deliver),
            8 => Command::Call(Call::Filter),
            _ => Command::Call(Call::Rows),
        }
    }
}

#[derive(Clone, Copy)]
struct Head {
    command: Command,
    a: u8,
    b: u8,
    c: u8,
    n: u32,
}

impl Head {
    fn of(bytes: [u8; 8]) -> Head {
        let [command, a, b, c, n0, n1, n2, n3] = bytes;
        Head {
            command: Command::from(command),
            a,
            b,
            c,
            n: u32::from_le_bytes([n0, n1, n2, n3]),
        }
    }
}

fn length_of(low: u8, high: u8) -> usize {
    usize::from(u16::from_le_bytes([low, high]))
}

// ---- buffers

// What a place of a buffer holds: the low bits of a number.
trait Place: Copy + Into<u32> {
    fn low_bits(n: u32) -> Self;
}

impl Place for u16 {
    fn low_bits(n: u32) -> u16 {
        (n % 65536) as u16
    }
}

impl Place for u8 {
    fn low_bits(n: u32) -> u8 {
        (n % 256) as u8
    }
}

// A buffer, and how much of it is lent.
#[derive(Drop)]
struct Buffer<'a, T> {
    places: &'a mut [T],
    lent: usize,
}

impl<T: Place> Buffer<'_, T> {
    fn lent(&self) -> &[T] {
        let n = self.lent.min(self.places.len());
        &self.places[..n]
    }

    fn lent_mut(&mut self) -> &mut [T] {
        let n = self.lent.min(self.places.len());
        &mut self.places[..n]
    }

    // All places become the low bits of the numbers that are drawn.
    fn fill(&mut self, draws: &mut Draws) {
        for (place, n) in self.places.iter_mut().zip(draws) {
            *place = T::low_bits(n);
        }
    }

    fn poke(&mut self, at: usize, n: u32) {
        if at < self.places.len() {
            self.places[at] = T::low_bits(n);
        }
    }

    // A sum, gone on with over what is lent and the places after it.
    fn sum_after(&self, sum: u32) -> u32 {
        let n = self.lent.saturating_add(GUARD);
        sum_after(sum, self.places.iter().take(n).map(|x| (*x).into()))
    }
}

// The planes of the three components.
#[derive(Drop)]
struct Planes<'a> {
    y: Buffer<'a, u16>,
    cb: Buffer<'a, u16>,
    cr: Buffer<'a, u16>,
}

impl Planes<'_> {
    fn fill(&mut self, draws: &mut Draws) {
        self.y.fill(draws);
        self.cb.fill(draws);
        self.cr.fill(draws);
    }

    fn poke(&mut self, plane: u8, at: usize, n: u32) {
        match plane {
            0 => self.y.poke(at, n),
            1 => self.cb.poke(at, n),
            _ => self.cr.poke(at, n),
        }
    }

    fn sum(&self) -> u32 {
        self.cr.sum_after(self.cb.sum_after(self.y.sum_after(1)))
    }
}

// ---- what is printed

fn sum_of_state(state: State) -> u32 {
    let p = state.picture;
    let numbers = [
        p.width,
        p.height,
        p.ctb,
        u32::from(p.format),
        u32::from(p.depth.luma),
        u32::from(p.depth.chroma),
        u32::from(p.luma),
        u32::from(p.chroma),
        state.next,
    ];
    sum_after(1, numbers.iter().copied())
}

fn print_sum(rt: &impl Print, sum: u32) -> io::Result<()> {
    print!(rt; " {sum:08x}")
}

// The refusal's number, or 0; what else is answered is handed on to be printed.
fn print_answer<T: Drop>(rt: &impl Print, answer: Result<T, Refusal>) -> io::Result<Option<T>> {
    match answer {
        Ok(value) => {
            print!(rt; " 0")?;
            Ok(Some(value))
        }
        Err(refusal) => {
            print!(rt; " {}", refusal.number())?;
            Ok(None)
        }
    }
}

fn print_number(rt: &impl Print, answer: Result<usize, Refusal>) -> io::Result<()> {
    if let Some(n) = print_answer(rt, answer)? {
        print!(rt; " {n}")?;
    }
    Ok(())
}

// ---- what the input has after a head

fn picture_of(m: &[u8; 21]) -> Picture {
    Picture {
        width: u32::from_le_bytes([m[0], m[1], m[2], m[3]]),
        height: u32::from_le_bytes([m[4], m[5], m[6], m[7]]),
        ctb: u32::from_le_bytes([m[8], m[9], m[10], m[11]]),
        format: m[12],
        depth: BitDepths {
            luma: m[13],
            chroma: m[14],
        },
        luma: m[15] != 0,
        chroma: m[16] != 0,
    }
}

fn read_state(input: &mut impl Read) -> io::Result<State> {
    let mut m = [0u8; 21];
    read_full(input, &mut m)?;
    Ok(State {
        picture: picture_of(&m),
        next: u32::from_le_bytes([m[17], m[18], m[19], m[20]]),
    })
}

// Puts in a sample that the input has more, at its place.
fn put_in(input: &mut impl Read, samples: &mut Buffer<'_, u16>) -> io::Result<()> {
    let mut m = [0u8; 4];
    read_full(input, &mut m)?;
    samples.poke(length_of(m[0], m[1]), records::pair(m[2], m[3]));
    Ok(())
}

// The samples of a delivery, made in a buffer: so many are lent.
fn make_samples(input: &mut impl Read, times: u8, samples: &mut Buffer<'_, u16>) -> io::Result<()> {
    let mut m = [0u8; 10];
    read_full(input, &mut m)?;
    let base = u16::from_le_bytes([m[2], m[3]]);
    let spread = u16::from_le_bytes([m[4], m[5]]);
    let draws = Draws {
        last: u32::from_le_bytes([m[6], m[7], m[8], m[9]]),
    };
    for (sample, x) in samples.places.iter_mut().zip(draws) {
        *sample = base ^ (u16::low_bits(x) & spread);
    }
    for _ in 0..times {
        put_in(input, samples)?;
    }
    samples.lent = length_of(m[0], m[1]);
    Ok(())
}

// ---- a run

// What one command leaves to the next: the state, and the buffers.
#[derive(Drop)]
struct Run<'a> {
    state: State,
    deblocked: Planes<'a>,
    filtered: Planes<'a>,
    marks: Buffer<'a, u8>,
    table: Buffer<'a, u8>,
}

impl Run<'_> {
    // ---- commands that are no calls

    fn read_lengths(&mut self, input: &mut impl Read) -> io::Result<()> {
        let mut m = [0u8; 16];
        read_full(input, &mut m)?;
        self.deblocked.y.lent = length_of(m[0], m[1]);
        self.deblocked.cb.lent = length_of(m[2], m[3]);
        self.deblocked.cr.lent = length_of(m[4], m[5]);
        self.filtered.y.lent = length_of(m[6], m[7]);
        self.filtered.cb.lent = length_of(m[8], m[9]);
        self.filtered.cr.lent = length_of(m[10], m[11]);
        self.marks.lent = length_of(m[12], m[13]);
        self.table.lent = length_of(m[14], m[15]);
        Ok(())
    }

    fn fill(&mut self, seed: u32) {
        let mut draws = Draws { last: seed };
        self.deblocked.fill(&mut draws);
        self.filtered.fill(&mut draws);
        self.marks.fill(&mut draws);
        self.table.fill(&mut draws);
    }

    // By the buffer's number: the eight are of two types, and nothing else chooses among them.
    fn poke(&mut self, head: Head) {
        let at = length_of(head.b, head.c);
        match head.a {
            0..=2 => self.deblocked.poke(head.a, at, head.n),
            3..=5 => self.filtered.poke(head.a - 3, at, head.n),
            6 => self.marks.poke(at, head.n),
            _ => self.table.poke(at, head.n),
        }
    }

    // ---- the calls, each on the leading parts of its buffers

    fn open(&mut self, rt: &impl Print) -> io::Result<()> {
        rt.write_all(b"o")?;
        let o = opening::open(self.state, self.marks.lent_mut());
        self.state = o.state;
        print_answer(rt, o.answer)?;
        Ok(())
    }

    fn read(&mut self, rt: &impl Print, input: &mut impl Read, head: Head) -> io::Result<()> {
        rt.write_all(b"r")?;
        let mut bytes = [0u8; BINS];
        let n = usize::from(head.a).min(BINS);
        let bins = &mut bytes[..n];
        read_full(input, bins)?;
        let count = if head.b != 0 {
            usize::MAX - head.n as usize
        } else {
            head.n as usize
        };
        let o = reading::read(self.state, bins, count, self.table.lent_mut());
        self.state = o.state;
        if let Some(set) = print_answer(rt, o.answer)? {
            rt.write_all(b" ")?;
            print_set(rt, set)?;
        }
        Ok(())
    }

    fn write(&mut self, rt: &impl Print, input: &mut impl Read, head: Head) -> io::Result<()> {
        rt.write_all(b"w")?;
        let mut set = [0u8; SET_BYTES];
        read_full(input, &mut set)?;
        let mut room = [head.b; BINS];
        let n = usize::from(head.a).min(BINS);
        let o = writing::write(
            self.state,
            sets::set_said(&set),
            &mut room[..n],
            self.table.lent_mut(),
        );
        self.state = o.state;
        print_number(rt, o.answer)?;
        print_sum(rt, sum_after(1, room.iter().map(|b| u32::from(*b))))
    }

    fn deliver(&mut self, rt: &impl Print, input: &mut impl Read, head: Head) -> io::Result<()> {
        rt.write_all(b"d")?;
        let mut places = [0u16; DELIVERY];
        let mut samples = Buffer {
            places: &mut places,
            lent: 0,
        };
        make_samples(input, head.b, &mut samples)?;
        let Planes { y, cb, cr } = &mut self.deblocked;
        let o = delivering::deliver(
            self.state,
            head.a,
            head.n,
            samples.lent(),
            y.lent_mut(),
            cb.lent_mut(),
            cr.lent_mut(),
            self.marks.lent_mut(),
        );
        self.state = o.state;
        print_answer(rt, o.answer)?;
        Ok(())
    }

    fn filter(&mut self, rt: &impl Print, head: Head) -> io::Result<()> {
        rt.write_all(b"f")?;
        let deblocked = &self.deblocked;
        let Planes { y, cb, cr } = &mut self.filtered;
        let o = filtering::filter(
            self.state,
            head.a,
            head.n,
            deblocked.y.lent(),
            deblocked.cb.lent(),
            deblocked.cr.lent(),
            y.lent_mut(),
            cb.lent_mut(),
            cr.lent_mut(),
            self.marks.lent_mut(),
            self.table.lent(),
        );
        self.state = o.state;
        print_answer(rt, o.answer)?;
        Ok(())
    }

    fn rows(&mut self, rt: &impl Print, head: Head) -> io::Result<()> {
        rt.write_all(b"n")?;
        let Planes { y, cb, cr } = &self.filtered;
        let o = finishing::finished_count(
            self.state,
            head.a,
            y.lent(),
            cb.lent(),
            cr.lent(),
            self.marks.lent(),
        );
        print_number(rt, o.answer)?;
        let part = finishing::finished_rows(
            self.state,
            head.a,
            y.lent(),
            cb.lent(),
            cr.lent(),
            self.marks.lent(),
        );
        print!(rt; " {}", part.len())?;
        print_sum(rt, sum_after(1, part.iter().map(|s| u32::from(*s))))?;
        self.state = o.state;
        Ok(())
    }

    fn call(
        &mut self,
        rt: &impl Print,
        input: &mut impl Read,
        call: Call,
        head: Head,
    ) -> io::Result<()> {
        match call {
            Call::Open => self.open(rt),
            Call::Read => self.read(rt, input, head),
            Call::Write => self.write(rt, input, head),
            Call::Deliver => self.deliver(rt, input, head),
            Call::Filter => self.filter(rt, head),
            Call::Rows => self.rows(rt, head),
        }
    }

    fn print_sums(&self, rt: &impl Print) -> io::Result<()> {
        print_sum(rt, sum_of_state(self.state))?;
        print_sum(rt, self.deblocked.sum())?;
        print_sum(rt, self.filtered.sum())?;
        print_sum(rt, self.marks.sum_after(1))?;
        print_sum(rt, self.table.sum_after(1))?;
        rt.write_all(b"\n")
    }

    fn command(&mut self, rt: &impl Print, input: &mut impl Read, head: Head) -> io::Result<()> {
        match head.command {
            Command::State => {
                self.state = read_state(input)?;
                Ok(())
            }
            Command::Lengths => self.read_lengths(input),
            Command::Fill => {
                self.fill(head.n);
                Ok(())
            }
            Command::Poke => {
                self.poke(head);
                Ok(())
            }
            Command::Call(call) => {
                self.call(rt, input, call, head)?;
                self.print_sums(rt)
            }
        }
    }
}

// The state before the first command.
fn start() -> State {
    State {
        picture: Picture {
            width: 0,
            height: 0,
            ctb: 0,
            format: 0,
            depth: BitDepths { luma: 0, chroma: 0 },
            luma: false,
            chroma: false,
        },
        next: 0,
    }
}

// A buffer before the first command: nothing of it is lent.
fn unlent<T>(places: &mut [T]) -> Buffer<'_, T> {
    Buffer { places, lent: 0 }
}

// A proved loop has to end, and nothing says that the input does: no run has so many commands.
fn main(rt: HostRuntime) -> io::Result<()> {
    let mut input = rt.stdin();
    let mut y = [0u16; PLANE];
    let mut cb = [0u16; PLANE];
    let mut cr = [0u16; PLANE];
    let mut out_y = [0u16; PLANE];
    let mut out_cb = [0u16; PLANE];
    let mut out_cr = [0u16; PLANE];
    let mut marks = [0u8; MARKS];
    let mut table = [0u8; TABLE];
    let mut run = Run {
        state: start(),
        deblocked: Planes {
            y: unlent(&mut y),
            cb: unlent(&mut cb),
            cr: unlent(&mut cr),
        },
        filtered: Planes {
            y: unlent(&mut out_y),
            cb: unlent(&mut out_cb),
            cr: unlent(&mut out_cr),
        },
        marks: unlent(&mut marks),
        table: unlent(&mut table),
    };
    for _ in 0..u64::MAX {
        let Some(head) = read_record(&mut input)? else {
            break;
        };
        run.command(&rt, &mut input, Head::of(head))?;
    }
    Ok(())
}
