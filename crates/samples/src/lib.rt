// The filter of one block (H.265 8.7.3): the deblocked plane is read, the filtered plane is written.
// A match on type and one on class select the rule of a block, and below it the filter by edge goes by the
// two steps alone; what may not be compared lies outside the loops over samples. Neighbours are
// samples of the same deblocked plane.
#![tactic(auto)]

ghost use Rattle.std.specs.Prelude.{◌≡◌, true, ℕ, ◌+◌, ◌*◌, ◌≤◌, ◌<◌, pos, nat_abs, ◌+ℤ◌};
ghost use Rattle.standard.specs.declared.Rectangle.{Rectangle};
ghost use Rattle.standard.specs.Picture.{Inside};
ghost use Rattle.standard.specs.Sets.{NotNegative};
ghost use Rattle.standard.specs.Samples.{Context, in_picture, sample};
ghost use Rattle.standard.specs.Calls.{Written};
ghost use Rattle.planes.specs.Places.{block, row};
ghost use Rattle.samples.specs.Steps.{by, step_to, entry_of, Steps, StepsOf};
ghost use Rattle.samples.specs.Around.{side_of, row_of, pick_of, answer_of, answered, AllOf, AllOpen, Alike, Parted, Agrees, picture_around};
ghost use Rattle.samples.specs.Blocks.{Ready};
ghost use Rattle.samples.specs.Rules.{LentFrom, AsLarge, Becomes, kept, banded, Reaching, edged, edged_if, edged_in, open_in, BlockReady};
ghost use Rattle.std.proofs.Common.{rules};

use planes::{copy_row, index};
use rows::{Bands, Moves, band_row, edge_row, moves_of, scaled_by};
use standard::{Layout, Offsets, Rectangle};

// ---- steps to the neighbours

// Across or down, from a sample to one of its neighbours: a signed number, of which there are three.
#[derive(Clone, Copy)]
enum Way {
    Back = -1,
    Stay = 0,
    On = 1,
}

// Across and down.
#[derive(Clone, Copy)]
struct Step {
    dx: Way,
    dy: Way,
}

use Way::{Back, On, Stay};

// hPos and vPos: four classes by two neighbours.
const STEPS: [[Step; 2]; 4] = [
    [Step { dx: Back, dy: Stay }, Step { dx: On, dy: Stay }],
    [Step { dx: Stay, dy: Back }, Step { dx: Stay, dy: On }],
    [Step { dx: Back, dy: Back }, Step { dx: On, dy: On }],
    [Step { dx: On, dy: Back }, Step { dx: Back, dy: On }],
];

// They are those of the definitions, and in each class the second step is the first negated.
fn steps() -> [[Step; 2]; 4]
    ensures { Steps result }
{
    STEPS
}

// Of such a table, the step to neighbour k of a class.
fn entry(steps: [[Step; 2]; 4], class: usize, k: usize) -> Step
    requires { (class < 4) × (k < 2) }
    ensures { result ≡ entry_of steps class k }
{
    steps[class][k]
}

// The two steps of a class, by a match: document 01 names this form, and that of the table (docs/DECISIONS.md).
fn steps_of(class: u8) -> (Step, Step)
    requires { class < 4 }
    ensures { StepsOf class result }
{
    let s = steps();
    match class {
        0 => (entry(s, 0, 0), entry(s, 0, 1)),
        1 => (entry(s, 1, 0), entry(s, 1, 1)),
        2 => (entry(s, 2, 0), entry(s, 2, 1)),
        _ => (entry(s, 3, 0), entry(s, 3, 1)),
    }
}

impl Way {
    // The column, or row, that way from v. It is a sum, since a match would stand in the loop over rows.
    fn from_place(self, v: usize) -> usize
        requires { (v ≤ 8192) × NotNegative (pos v +ℤ by self) }
        ensures { result ≡ nat_abs (pos v +ℤ by self) }
    {
        ((v as isize) + (self as isize)) as usize
    }

    // The side of the column, or row, that way from x, of a block from a on up to and without b.
    fn side(self, a: usize, b: usize, x: usize) -> Side
        requires { (a ≤ x) × (x < b) }
        ensures { result ≡ side_of a b (pos x +ℤ by self) }
    {
        match self {
            Way::Back if x == a => Side::Before,
            Way::On if x == b - 1 => Side::After,
            _ => Side::Within,
        }
    }
}

// ---- what may be compared

// May a sample of a block be compared with a sample of each of the eight blocks around it?
#[derive(Clone, Copy)]
pub struct Around {
    pub northwest: bool,
    pub north: bool,
    pub northeast: bool,
    pub west: bool,
    pub east: bool,
    pub southwest: bool,
    pub south: bool,
    pub southeast: bool,
}

// Where a neighbour lies, across or down: before the block, in it or after it.
#[derive(Clone, Copy)]
enum Side {
    Before,
    Within,
    After,
}

// The answers of three blocks beside one another.
#[derive(Clone, Copy)]
struct Three {
    before: bool,
    within: bool,
    after: bool,
}

// The answers that bar what is outside the picture, and nothing else.
pub fn in_picture(l: Layout, r: Rectangle) -> Around
    ensures { result ≡ picture_around l r }
{
    let west = 0 < r.x0;
    let east = r.x1 < l.width;
    let north = 0 < r.y0;
    let south = r.y1 < l.height;
    Around {
        northwest: west && north,
        north,
        northeast: east && north,
        west,
        east,
        southwest: west && south,
        south,
        southeast: east && south,
    }
}

impl Three {
    fn at(self, across: Side) -> bool
        ensures { result ≡ pick_of self across }
    {
        match across {
            Side::Before => self.before,
            Side::Within => self.within,
            Side::After => self.after,
        }
    }

    // Whether nothing is barred.
    fn all(self) -> bool
        ensures { result ≡ true → AllOf self }
    {
        self.before && self.within && self.after
    }
}

impl Around {
    fn row(self, down: Side) -> Three
        ensures { result ≡ row_of self down }
    {
        match down {
            Side::Before => Three {
                before: self.northwest,
                within: self.north,
                after: self.northeast,
            },
            Side::Within => Three {
                before: self.west,
                within: true,
                after: self.east,
            },
            Side::After => Three {
                before: self.southwest,
                within: self.south,
                after: self.southeast,
            },
        }
    }

    fn answer(self, across: Side, down: Side) -> bool
        ensures { result ≡ answer_of self across down }
    {
        self.row(down).at(across)
    }

    // Whether the neighbour a step away from column x of row y of a block may be compared with it.
    fn is_free(self, s: Step, r: Rectangle, x: usize, y: usize) -> bool
        requires { Inside r x y }
        ensures { result ≡ answered self r (pos x +ℤ by s.dx) (pos y +ℤ by s.dy) }
    {
        self.answer(s.dx.side(r.x0, r.x1, x), s.dy.side(r.y0, r.y1, y))
    }

    // Whether nothing is barred.
    fn all_open(self) -> bool
        ensures { result ≡ true → AllOpen self }
    {
        self.row(Side::Before).all() && self.row(Side::Within).all() && self.row(Side::After).all()
    }
}

// ---- what becomes of samples

// The deblocked plane of a layout.
#[derive(Clone, Copy)]
struct Deblocked<'a> {
    layout: Layout,
    samples: &'a [u16],
}

impl Deblocked<'_> {
    // Where the neighbour of column x of row y stands.
    fn place(self, s: Step, x: usize, y: usize) -> usize
        requires bound { (self.layout.width ≤ 8192) × (self.layout.height ≤ 8192) × (x ≤ 8192) × (y ≤ 8192) }
        requires inside { in_picture self.layout.width self.layout.height (pos x +ℤ by s.dx) (pos y +ℤ by s.dy) ≡ true }
        ensures { result ≡ nat_abs (pos y +ℤ by s.dy) * self.entry.layout.width + nat_abs (pos x +ℤ by s.dx) }
    {
        let u = s.dx.from_place(x);
        let v = s.dy.from_place(y);
        index(self.layout.width, self.layout.height, u, v)
    }
}

// A rule by which samples of the deblocked plane become those of the filtered one.
trait Rule {
    ghost use Rattle.samples.specs.declared.Deblocked.{Deblocked};

    // Where the samples come from.
    ghost from: { Self → Deblocked };

    // What becomes of the sample in column x of row y.
    ghost sample: { Self → ℕ → ℕ → ℕ };

    // What the rule needs of a rectangle.
    ghost Fits: { Self → Rectangle → Type 0 };

    // Columns x0 up to and without x1 of row y.
    fn line(self, x0: usize, x1: usize, y: usize, out: &mut [u16])
        requires lent { LentFrom (from self) (row x0 x1 y) out.old × (x0 < x1) }
        requires fits { Fits self (row x0 x1 y) }
        ensures { Becomes (from self) (row x0 x1 y) (sample self) out.old out.new };

    // A row of a rectangle fits as the rectangle does.
    ghost row_fits: { (s : Self) (r : Rectangle) (y : ℕ) → r.y0 ≤ y → y < r.y1 → Fits s r → Fits s (row r.x0 r.x1 y) };
}

// The samples as they are.
impl Rule for Deblocked<'_> {
    ghost from = { λ s. s };

    ghost sample = { kept };

    ghost Fits = { λ s r. Unit {0} };

    fn line(self, x0: usize, x1: usize, y: usize, out: &mut [u16]) {
        let i = index(self.layout.width, self.layout.height, x0, y);
        let e = i + (x1 - x0);
        copy_row(&self.samples[i..e], &mut out[i..e]);
    }

    ghost row_fits = { λ s r y a b f. tt };
}

// By band.
#[derive(Clone, Copy)]
struct ByBand<'a> {
    from: Deblocked<'a>,
    moves: Moves,
    bands: Bands,
}

impl Rule for ByBand<'_> {
    ghost from = { λ s. s.from };

    ghost sample = { banded };

    ghost Fits = { λ s r. Unit {0} };

    fn line(self, x0: usize, x1: usize, y: usize, out: &mut [u16]) {
        let i = index(self.from.layout.width, self.from.layout.height, x0, y);
        let e = i + (x1 - x0);
        band_row(
            self.moves,
            self.bands,
            &self.from.samples[i..e],
            &mut out[i..e],
        );
    }

    ghost row_fits = { λ s r y a b f. tt };
}

// By edge, where both neighbours, the steps a and b away, lie in the picture.
#[derive(Clone, Copy)]
struct ByEdge<'a> {
    from: Deblocked<'a>,
    moves: Moves,
    a: Step,
    b: Step,
}

impl Rule for ByEdge<'_> {
    ghost from = { λ s. s.from };

    ghost sample = { edged };

    ghost Fits = { Reaching };

    fn line(self, x0: usize, x1: usize, y: usize, out: &mut [u16]) {
        let from = self.from;
        let k = x1 - x0;
        let i = index(from.layout.width, from.layout.height, x0, y);
        let j = from.place(self.a, x0, y);
        let n = from.place(self.b, x0, y);
        let ie = i + k;
        let je = j + k;
        let ne = n + k;
        edge_row(
            self.moves,
            &from.samples[i..ie],
            &from.samples[j..je],
            &from.samples[n..ne],
            &mut out[i..ie],
        );
    }

    ghost row_fits = { Prim.search rules };
}

// The rows of a rectangle, by a rule.
fn rows<R: Rule + Copy>(rule: R, r: Rectangle, out: &mut [u16])
    requires lent { LentFrom (R.from rule) r out.old }
    requires fits { R.Fits rule r }
    ensures { Becomes (R.from rule) r (R.sample rule) out.old out.new }
{
    if r.x0 < r.x1 {
        for y in r.y0..r.y1 {
            rule.line(r.x0, r.x1, y, out);
        }
    }
}

// ---- a block by edge

// A row in three parts: up to and without c, then up to and without d, and the rest; in each both
// neighbours of every sample may be compared with it, or in each of them they may not.
#[derive(Clone, Copy)]
struct Runs {
    c: usize,
    d: usize,
    first: bool,
    middle: bool,
    last: bool,
}

// A block, the rule by edge, and what lies around the block. Its functions borrow it: copies would take up to 0.9 kB of stack.
#[derive(Clone, Copy)]
struct EdgeBlock<'a> {
    rule: ByEdge<'a>,
    around: Around,
    r: Rectangle,
    ghost ready: { BlockReady rule around r },
}

// Each function asks that the filtered plane is as large: it is lent to each in turn, and is no part of the block.
impl EdgeBlock<'_> {
    // Whether both neighbours of column x of row y may be compared with it.
    fn is_open(&self, x: usize, y: usize) -> bool
        requires { Inside self.now.r x y }
        ensures { result ≡ open_in self.now.rule self.now.around self.now.r x y }
    {
        self.around.is_free(self.rule.a, self.r, x, y)
            && self.around.is_free(self.rule.b, self.r, x, y)
    }

    // All the columns between the first and the last have their neighbours across in the block.
    fn runs(&self, y: usize) -> Runs
        requires { Inside self.now.r self.now.r.x0 y }
        ensures { Parted (λ x. open_in self.now.rule self.now.around self.now.r x y) self.now.r.x0 self.now.r.x1 result }
    {
        let r = self.r;
        let z = r.x1 - 1;
        let e = (r.x0 + 1).min(z);
        let first = self.is_open(r.x0, y);
        let middle = self.is_open(e, y);
        let last = self.is_open(z, y);
        let c = r.x0 + usize::from(first != middle);
        let d = r.x1 - usize::from(last != middle);
        Runs {
            c,
            d,
            first,
            middle,
            last,
        }
    }

    // Samples whose neighbours may all be compared with them, by edge, or samples that stay.
    fn part(&self, whole: bool, p: Rectangle, out: &mut [u16])
        requires lent { LentFrom self.now.rule.from p out.old }
        requires reach { whole ≡ true → Reaching self.now.rule p }
        ensures { Becomes self.now.rule.from p (edged_if whole self.now.rule) out.old out.new }
    {
        if whole {
            rows(self.rule, p, out);
        } else {
            rows(self.rule.from, p, out);
        }
    }

    // Rows y0 up to and without y1, which are parted alike.
    fn band(&self, y0: usize, y1: usize, out: &mut [u16])
        requires filtered { AsLarge self.now.rule.from out.old }
        requires alike { (self.now.r.y0 ≤ y0) × (y0 ≤ y1) × (y1 ≤ self.now.r.y1) × Alike self.now.around self.now.r (step_to self.now.rule.a) (step_to self.now.rule.b) y0 y1 }
        ensures { Becomes self.now.rule.from (block self.now.r.x0 self.now.r.x1 y0 y1) (edged_in self.now.rule self.now.around self.now.r) out.old out.new }
    {
        if y0 < y1 {
            let k = self.runs(y0);
            let left = Rectangle {
                x0: self.r.x0,
                x1: k.c,
                y0,
                y1,
            };
            let middle = Rectangle {
                x0: k.c,
                x1: k.d,
                y0,
                y1,
            };
            let right = Rectangle {
                x0: k.d,
                x1: self.r.x1,
                y0,
                y1,
            };
            self.part(k.first, left, out);
            self.part(k.middle, middle, out);
            self.part(k.last, right, out);
        }
    }

    // The first row, the rows between and the last.
    fn bands(&self, out: &mut [u16])
        requires { AsLarge self.now.rule.from out.old }
        ensures { Becomes self.now.rule.from self.now.r (edged_in self.now.rule self.now.around self.now.r) out.old out.new }
    {
        let t = self.r.y0 + 1;
        let u = t.max(self.r.y1 - 1);
        self.band(self.r.y0, t, out);
        self.band(t, u, out);
        self.band(u, self.r.y1, out);
    }

    // Where nothing is barred, every row in one piece.
    fn filter(&self, out: &mut [u16])
        requires { AsLarge self.now.rule.from out.old }
        ensures { Becomes self.now.rule.from self.now.r (edged_in self.now.rule self.now.around self.now.r) out.old out.new }
    {
        if self.around.all_open() {
            rows(self.rule, self.r, out);
        } else {
            self.bands(out);
        }
    }
}

// ---- a block

// The filter of one block, under every context that the eight answers agree with.
pub fn filter_block(
    l: Layout,
    set: Offsets,
    o: Around,
    r: Rectangle,
    plane: &[u16],
    out: &mut [u16],
)
    requires { Ready l set o r plane.now out.old }
    ensures { (context : Context) → Agrees context r o → Written l.width l.height r (sample l context set plane.now) out.old out.new }
{
    let from = Deblocked {
        layout: l,
        samples: plane,
    };
    match set {
        Offsets::Off => rows(from, r, out),
        Offsets::Band { position, offsets } => {
            let moves = moves_of(scaled_by(offsets, l.shift), l.depth);
            let bands = Bands {
                position: u16::from(position),
                depth: l.depth,
            };
            rows(ByBand { from, moves, bands }, r, out);
        }
        Offsets::Edge { class, offsets } => {
            let moves = moves_of(scaled_by(offsets, l.shift), l.depth);
            let (a, b) = steps_of(class);
            let rule = ByEdge { from, moves, a, b };
            let block = EdgeBlock { rule, around: o, r };
            block.filter(out);
        }
    }
}
