// A CTB of a component of a described picture: what deliver and filter name.

ghost use Rattle.std.specs.Prelude.{◌≡◌, ◌<◌, ◌≤◌, ◌*◌};
ghost use Rattle.standard.specs.Picture.{depth_of, components, plane_width, plane_height, ctu_count, rectangle, grown};
ghost use Rattle.standard.specs.Samples.{layout_of};
ghost use Rattle.standard.specs.Reasons.{mark_count, mark_place};
ghost use Rattle.geometry.specs.Geometry.{Counted, around};

use super::depth_of;
use super::described::Described;
use standard::{Layout, Rectangle};

#[derive(Clone, Copy)]
pub struct Block {
    pub of: Described,
    pub component: u8,
    pub ctb: u32,
    ghost component_in: { component < components of.picture },
    ghost ctb_in: { ctb < ctu_count of.picture },
}

impl Block {
    // Its samples.
    pub fn rectangle(self) -> Rectangle
        ensures { result ≡ rectangle self.of.picture self.component self.ctb }
    {
        self.of.ctb_rectangle(self.component, self.ctb)
    }

    // And one sample around them, inside the picture.
    pub fn grown(self) -> Rectangle
        ensures { result ≡ grown self.of.picture self.component (rectangle self.of.picture self.component self.ctb) }
    {
        self.of.grown_rectangle(self.component, self.rectangle())
    }

    // The columns and rows of the CTB and its up to eight neighbours.
    pub fn around(self) -> Rectangle
        ensures { result ≡ around self.of.picture self.ctb }
    {
        self.of.around(self.ctb)
    }

    pub fn mark_place(self) -> usize
        ensures value { result ≡ mark_place self.of.picture self.component self.ctb }
        ensures inside { result < mark_count self.of.picture }
    {
        self.of.mark_place(self.component, self.ctb)
    }

    // ---- of its component

    pub fn plane_width(self) -> usize
        ensures { Counted (plane_width self.of.picture self.component) 8192 result }
    {
        self.of.plane_width(self.component)
    }

    pub fn plane_height(self) -> usize
        ensures { Counted (plane_height self.of.picture self.component) 8192 result }
    {
        self.of.plane_height(self.component)
    }

    pub fn depth(self) -> u32
        ensures { result ≡ depth_of self.of.picture self.component }
    {
        depth_of(self.of.picture, self.component)
    }

    pub fn layout(self) -> Layout
        ensures { result ≡ layout_of self.of.picture self.component }
    {
        self.of.layout(self.component)
    }
}
