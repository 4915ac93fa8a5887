// The kind of depths: what a value holds.
ghost use Rattle.std.specs.Prelude.{ℕ, ◌<◌, ◌≤◌, length, slice_index};

mod kind;

use std::fmt;

/// The numbers at the four places, the one at place 0 first.
pub type Places = [u16; 4];

/// Four numbers, each a remainder modulo 4096.
#[derive(Clone, Copy, PartialEq, Eq)]
pub struct Depth {
    places: Places,
    // four numbers, each a remainder, so that every value is a factor; the length has two bounds, since with an equation
    // in their place no proof of `decode` is found
    ghost four: { (4 ≤ length places) × (length places ≤ 4) },
    ghost below: { (k : ℕ) → slice_index places k < 4096 },
}

// Each number by the name of its place, as the rules have them, and not as a list.
impl fmt::Debug for Depth {
    fn fmt<W: fmt::Write>(&self, f: &mut fmt::Formatter<W>) -> fmt::Result {
        let [c0, c1, c2, c3] = self.places;
        f.debug_struct("Depth")
            .field("c0", &c0)
            .field("c1", &c1)
            .field("c2", &c2)
            .field("c3", &c3)
            .finish()
    }
}
