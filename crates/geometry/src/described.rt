// A picture whose description keeps the rules, and what it says.

ghost use Rattle.std.specs.Prelude.{◌≡◌, ◌*◌, ◌≤◌};
ghost use Rattle.standard.specs.Picture.{Rules, components, plane_width, plane_height, samples_of};
ghost use Rattle.standard.specs.Picture.{ctb_width, ctb_height, columns, rows, ctu_count, rectangle, grown, merge_left, merge_up};
ghost use Rattle.standard.specs.Samples.{layout_of};
ghost use Rattle.standard.specs.Table.{entry_size};
ghost use Rattle.standard.specs.Reasons.{mark_count, mark_place};
ghost use Rattle.standard.specs.Refusals.{Tells};
ghost use Rattle.geometry.specs.OneProof.{Rules-prop};
ghost use Rattle.geometry.specs.Geometry.{Counted, around};

use super::block::Block;
use super::divisors::divisors_of;
use super::{component_count, depth_of, due_of, is_described, no_such_component, shift_of};
use standard::{ENTRY_BYTES, Layout, Picture, Rectangle, State};

#[derive(Clone, Copy)]
pub struct Described {
    pub picture: Picture,
    ghost rules: { Rules picture } by { Rules-prop picture },
}

impl Described {
    ghost use Rattle.geometry.specs.Found.{FindsPicture, FindsBlock};

    // None exactly where the description breaks a rule.
    pub fn of(p: Picture) -> Option<Described>
        ensures { FindsPicture p result }
    {
        if is_described(p) {
            Some(Described { picture: p })
        } else {
            None
        }
    }

    // ---- components and planes

    pub fn no_such_component(self, component: u8) -> bool
        ensures { Tells (components self.picture ≤ component) result }
    {
        no_such_component(self.picture, component)
    }

    #[tactic(auto, using(standard::proofs::Divisors::plane_width_lem))]
    pub fn plane_width(self, component: u8) -> usize
        ensures { Counted (plane_width self.picture component) 8192 result }
    {
        let p = self.picture;
        (p.width as usize) / divisors_of(p.format, component).across
    }

    #[tactic(auto, using(standard::proofs::Divisors::plane_height_lem))]
    pub fn plane_height(self, component: u8) -> usize
        ensures { Counted (plane_height self.picture component) 8192 result }
    {
        let p = self.picture;
        (p.height as usize) / divisors_of(p.format, component).down
    }

    pub fn sample_count(self, component: u8) -> usize
        ensures { result ≡ samples_of self.picture component }
    {
        if self.no_such_component(component) {
            0
        } else {
            self.plane_width(component) * self.plane_height(component)
        }
    }

    #[tactic(auto, unfolding(standard::specs::Samples::layout_of))]
    pub fn layout(self, component: u8) -> Layout
        ensures { result ≡ layout_of self.picture component }
    {
        Layout {
            width: self.plane_width(component),
            height: self.plane_height(component),
            depth: depth_of(self.picture, component),
            shift: shift_of(self.picture, component),
        }
    }

    // ---- CTUs and CTBs

    // The last column and row may be cut short.
    pub fn columns(self) -> usize
        ensures { Counted (columns self.picture) 512 result }
    {
        let p = self.picture;
        p.width.div_ceil(p.ctb) as usize
    }

    pub fn rows(self) -> usize
        ensures { Counted (rows self.picture) 512 result }
    {
        let p = self.picture;
        p.height.div_ceil(p.ctb) as usize
    }

    pub fn ctu_count(self) -> usize
        ensures { Counted (ctu_count self.picture) 262144 result }
    {
        self.columns() * self.rows()
    }

    #[tactic(auto, using(standard::proofs::Divisors::ctb_width_lem))]
    fn ctb_width(self, component: u8) -> usize
        ensures { Counted (ctb_width self.picture component) 64 result }
    {
        let p = self.picture;
        (p.ctb as usize) / divisors_of(p.format, component).across
    }

    #[tactic(auto, using(standard::proofs::Divisors::ctb_height_lem))]
    pub fn ctb_height(self, component: u8) -> usize
        ensures { Counted (ctb_height self.picture component) 64 result }
    {
        let p = self.picture;
        (p.ctb as usize) / divisors_of(p.format, component).down
    }

    #[tactic(auto, unfolding(standard::specs::Picture::rectangle))]
    pub fn ctb_rectangle(self, component: u8, ctb: u32) -> Rectangle
        ensures { result ≡ rectangle self.picture component ctb }
    {
        let k = ctb as usize;
        let n = self.columns();
        let w = self.ctb_width(component);
        let h = self.ctb_height(component);
        let x = k % n * w;
        let y = k / n * h;
        Rectangle {
            x0: x,
            x1: (x + w).min(self.plane_width(component)),
            y0: y,
            y1: (y + h).min(self.plane_height(component)),
        }
    }

    // Written so that no end wraps.
    #[tactic(auto, unfolding(standard::specs::Picture::grown))]
    pub fn grown_rectangle(self, component: u8, r: Rectangle) -> Rectangle
        ensures { result ≡ grown self.picture component r }
    {
        Rectangle {
            x0: r.x0.saturating_sub(1),
            x1: r.x1.saturating_add(1).min(self.plane_width(component)),
            y0: r.y0.saturating_sub(1),
            y1: r.y1.saturating_add(1).min(self.plane_height(component)),
        }
    }

    // The columns and rows of CTB k and its up to eight neighbours.
    #[tactic(auto, unfolding(crate::specs::Geometry::around))]
    pub fn around(self, k: u32) -> Rectangle
        ensures { result ≡ around self.picture k }
    {
        let n = self.columns();
        let x = (k as usize) % n;
        let y = (k as usize) / n;
        Rectangle {
            x0: x.saturating_sub(1),
            x1: (x + 2).min(n),
            y0: y.saturating_sub(1),
            y1: (y + 2).min(self.rows()),
        }
    }

    // ---- what a call may name

    // None exactly where there is no such component, or no such CTB.
    pub fn block(self, component: u8, ctb: u32) -> Option<Block>
        ensures { FindsBlock self component ctb result }
    {
        if self.no_such_component(component) || self.ctu_count() <= (ctb as usize) {
            None
        } else {
            Some(Block {
                of: self,
                component,
                ctb,
            })
        }
    }

    // ---- what is lent beside planes

    pub fn mark_count(self) -> usize
        ensures { result ≡ mark_count self.picture }
    {
        component_count(self.picture) * self.ctu_count()
    }

    pub fn mark_place(self, component: u8, ctb: u32) -> usize
        ensures { result ≡ mark_place self.picture component ctb }
    {
        (component as usize) * self.ctu_count() + (ctb as usize)
    }

    pub fn table_size(self) -> usize
        ensures { result ≡ entry_size * ctu_count self.picture }
    {
        ENTRY_BYTES * self.ctu_count()
    }

    // ---- the order of reading

    // The CTUs that a merge may reach, of the CTU that is read as number `next`.

    #[tactic(auto, unfolding(standard::specs::Picture::merge_left, standard::specs::Picture::left_of))]
    pub fn merge_left(self, next: u32) -> Option<u32>
        ensures { result ≡ merge_left (record { picture = self.picture; next = next }) }
    {
        let picture = self.picture;
        let k = due_of(State { picture, next });
        if (k as usize) % self.columns() == 0 {
            None
        } else {
            Some(k - 1)
        }
    }

    #[tactic(auto, unfolding(standard::specs::Picture::merge_up, standard::specs::Picture::above_of))]
    pub fn merge_up(self, next: u32) -> Option<u32>
        ensures { result ≡ merge_up (record { picture = self.picture; next = next }) }
    {
        let picture = self.picture;
        due_of(State { picture, next }).checked_sub(self.columns() as u32)
    }
}
