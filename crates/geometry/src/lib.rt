// A description tested, and what it says: planes and CTBs of each component, the order of CTUs, places of marks.
#![tactic(auto)]

ghost use Rattle.std.specs.Prelude.{◌≡◌, ◌≤◌, min};
ghost use Rattle.standard.specs.Picture.{Side, Depth, Rules, components, depth_of, due};
ghost use Rattle.standard.specs.Sets.{switches_in, switches_of};
ghost use Rattle.standard.specs.Means.{any_on};
ghost use Rattle.standard.specs.Samples.{shift_of};
ghost use Rattle.standard.specs.Refusals.{Tells};
ghost use Rattle.geometry.specs.Geometry.{CtbSize};

use standard::{Picture, State, Switches};

mod block;
mod described;
mod divisors;
mod due;
mod most;

pub use block::Block;
pub use described::Described;
pub use due::Due;
pub use most::{Most, most_of};

// ---- the description

fn is_side(n: u32) -> bool
    ensures { Tells (Side n) result }
{
    n % 8 == 0 && matches!(n, 8..=8192)
}

fn is_depth(n: u8) -> bool
    ensures { Tells (Depth n) result }
{
    matches!(n, 8..=16)
}

fn is_ctb_size(n: u32) -> bool
    ensures { Tells (CtbSize n) result }
{
    matches!(n, 16 | 32 | 64)
}

pub fn is_described(p: Picture) -> bool
    ensures { Tells (Rules p) result }
{
    let d = p.depth;
    is_side(p.width)
        && is_side(p.height)
        && is_ctb_size(p.ctb)
        && p.format <= 3
        && is_depth(d.luma)
        && is_depth(d.chroma)
        // in monochrome
        && (p.format != 0 || d.chroma == d.luma && !p.chroma)
}

// ---- components

fn component_count(p: Picture) -> usize
    ensures { result ≡ components p }
{
    if p.format == 0 { 1 } else { 3 }
}

pub fn no_such_component(p: Picture, component: u8) -> bool
    ensures { Tells (components p ≤ component) result }
{
    component_count(p) <= (component as usize)
}

// ---- bit depth

// A component is a number here and everywhere: a call takes any, and refuses those that name none.
#[tactic(auto, unfolding(standard::specs::Picture::depth_of))]
pub fn depth_of(p: Picture, component: u8) -> u32
    ensures { result ≡ depth_of p component }
{
    let d = p.depth;
    match component {
        0 => d.luma as u32,
        _ => d.chroma as u32,
    }
}

// Min( bitDepth, 10 ): offsets are coded as if samples had no more bits.
fn coded_depth(depth: u32) -> u32
    ensures { result ≡ min depth 10 }
{
    depth.min(10)
}

#[tactic(auto, unfolding(standard::specs::Samples::shift_of))]
fn shift_of(p: Picture, component: u8) -> u32
    ensures { result ≡ shift_of p component }
{
    let depth = depth_of(p, component);
    depth - coded_depth(depth)
}

// ---- what bins and the rules of a set depend on

#[tactic(auto, unfolding(standard::specs::Sets::switches_in))]
pub fn switches_in(p: Picture) -> Switches
    ensures { result ≡ switches_in p }
{
    Switches {
        luma: p.luma,
        chroma: p.chroma,
        y: depth_of(p, 0),
        cb: depth_of(p, 1),
        cr: depth_of(p, 2),
    }
}

// Of the CTU that is due.
#[tactic(auto, unfolding(standard::specs::Sets::switches_of))]
pub fn switches_of(state: State) -> Switches
    ensures { result ≡ switches_of state }
{
    switches_in(state.picture)
}

// Whether a CTU has bins.
pub fn any_on(s: Switches) -> bool
    ensures { result ≡ any_on s }
{
    s.luma || s.chroma
}

// ---- the order of reading

// The CTU that is due.
#[tactic(auto, unfolding(standard::specs::Picture::address))]
pub fn due_of(state: State) -> u32
    ensures { result ≡ due state }
{
    state.next
}
