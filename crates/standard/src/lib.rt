// The types of the stage. What they mean stands in specs/, which a reader has to believe;
// the laws of those definitions, and document 01's ten cases, stand in proofs/.
#![tactic(auto)]

ghost use Rattle.std.specs.Prelude.{◌≡◌, ◌<◌, Ok, Err};
ghost use Rattle.standard.specs.Calls.{opened_state, state_after};
ghost use Rattle.standard.specs.Refusals.{number_of};

// BitDepthY of luma, and BitDepthC of Cb and Cr.
#[derive(Clone, Copy, PartialEq, Eq)]
pub struct BitDepths {
    pub luma: u8,
    pub chroma: u8,
}

// What a caller says of a picture. The fields hold any number, so that a description that breaks
// a rule can be handed in, and is refused. `format` is chroma_format_idc.
#[derive(Clone, Copy, PartialEq, Eq)]
pub struct Picture {
    pub width: u32,
    pub height: u32,
    pub ctb: u32,
    pub format: u8,
    pub depth: BitDepths,
    pub luma: bool,
    pub chroma: bool,
}

// The description, and the number of the next CTU to be read or written.
#[derive(Clone, Copy, PartialEq, Eq)]
pub struct State {
    pub picture: Picture,
    pub next: u32,
}

impl State {
    // A picture opened: no CTU is read.
    pub fn opened(self) -> State
        ensures { result ≡ opened_state self }
    {
        let picture = self.picture;
        State { picture, next: 0 }
    }

    // On to the next CTU.
    pub fn advanced(self) -> State
        requires { self.next < 4294967295 }
        ensures { result ≡ state_after self }
    {
        let picture = self.picture;
        let n = self.next;
        State {
            picture,
            next: n + 1,
        }
    }
}

// One value for each of the four offsets.
#[derive(Clone, Copy, PartialEq, Eq)]
pub struct Four<T> {
    pub o1: T,
    pub o2: T,
    pub o3: T,
    pub o4: T,
}

// One component's set. Offsets are as coded, before they are scaled to the depth. A position and a class are any number, so that a
// set outside the rules can be handed in, and is refused.
#[derive(Clone, Copy, PartialEq, Eq)]
pub enum Offsets {
    Off,
    Band { position: u8, offsets: Four<i8> },
    Edge { class: u8, offsets: Four<i8> },
}

// A CTU's set.
#[derive(Clone, Copy, PartialEq, Eq)]
pub struct CtuSet {
    pub luma: Offsets,
    pub cb: Offsets,
    pub cr: Offsets,
}

// What the bins of a CTU and the rules of its set depend on: the two switches, and the bit depth of
// each component, which decides M.
#[derive(Clone, Copy, PartialEq, Eq)]
pub struct Switches {
    pub luma: bool,
    pub chroma: bool,
    pub y: u32,
    pub cb: u32,
    pub cr: u32,
}

// How many bytes a set has where it crosses in a call, and how many an entry of the table has.
pub const SET_BYTES: usize = 18;

pub const ENTRY_BYTES: usize = SET_BYTES;

// Why a call is refused. Each has its number in document 01, which `number_of` in specs/Refusals says.
#[derive(Clone, Copy, PartialEq, Eq)]
pub enum Refusal {
    Description = 1,
    Length = 2,
    NoSuchBlock = 3,
    CountTooLarge = 4,
    TooEarly = 5,
    BinsRemain = 6,
    AllRead = 7,
    SampleTooLarge = 8,
    DeliveredBefore = 9,
    NotReady = 10,
    FilteredBefore = 11,
    NoBins = 12,
    NoRoom = 13,
    Stored = 14,
}

impl Refusal {
    pub fn number(self) -> u32
        ensures { result ≡ number_of self }
    {
        self as u32
    }
}

// Columns x0 up to and without x1, rows y0 up to and without y1.
#[derive(Clone, Copy, PartialEq, Eq)]
pub struct Rectangle {
    pub x0: usize,
    pub x1: usize,
    pub y0: usize,
    pub y1: usize,
}

// What the filter knows of a component: the size of its plane, its bit depth, and how far its
// offsets are shifted.
#[derive(Clone, Copy, PartialEq, Eq)]
pub struct Layout {
    pub width: usize,
    pub height: usize,
    pub depth: u32,
    pub shift: u32,
}

// What a call answers, and the state that it hands back: a value, or why the call is refused. The state stands beside the answer,
// since a refusal hands it back too.
#[derive(Clone, Copy)]
pub struct Outcome<T> {
    pub answer: Result<T, Refusal>,
    pub state: State,
}

impl<T> Outcome<T> {
    pub fn accepted(value: T, state: State) -> Outcome<T>
        ensures answer { result.answer ≡ Ok value }
        ensures state { result.state ≡ state }
    {
        Outcome {
            answer: Ok(value),
            state,
        }
    }

    pub fn refused(refusal: Refusal, state: State) -> Outcome<T>
        ensures answer { result.answer ≡ Err refusal }
        ensures state { result.state ≡ state }
    {
        Outcome {
            answer: Err(refusal),
            state,
        }
    }
}
