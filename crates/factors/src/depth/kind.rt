// Depths as a factor kind.
ghost use Rattle.std.specs.Prelude.{◌≡◌, ◌*◌, ◌^◌, ◌<◌, slice_index, refl};
ghost use Rattle.factors.specs.Depth.{depth_of, depth_ring, depth_coding};

use crate::depth::{Depth, Places};
use crate::factor::{Factor, check_width};
use crate::fault::CodeFault;
use std::array;

// the bits of a place in a code
const PLACE_BITS: u32 = 12;

// what each place is a remainder of
const MODULUS: u16 = 1 << PLACE_BITS;

impl Depth {
    /// The factor with these numbers, each taken modulo 4096.
    pub fn new(c0: u16, c1: u16, c2: u16, c3: u16) -> Depth
        ensures { result ≡ depth_of (c0, c1, c2, c3) }
    {
        reduced([c0, c1, c2, c3].map(u64::from))
    }

    /// The four numbers, the one at place 0 first.
    pub fn places(self) -> Places
        ensures { result ≡ self.places }
    {
        self.places
    }
}

// The factor that is left of four numbers.
#[tactic(auto, using(crate::specs::Depth::depth_same_places))]
fn reduced(numbers: [u64; 4]) -> Depth
    ensures { result ≡ depth_of (slice_index numbers 0, slice_index numbers 1, slice_index numbers 2, slice_index numbers 3) }
{
    Depth {
        places: numbers.map(|number| (number % u64::from(MODULUS)) as u16),
    }
}

fn product(x: u16, y: u16) -> u64
    ensures answers { result ≡ x * y }
    ensures below { result < 2 ^ 32 }
{
    u64::from(x) * u64::from(y)
}

impl Factor for Depth {
    const WIDTH: u32 = 48;

    ghost WIDTH = { 48 };

    ghost ring = { depth_ring };

    ghost coding = { depth_coding };

    ghost wide = { refl };

    fn zero() -> Depth {
        Depth::new(0, 0, 0, 0)
    }

    fn one() -> Depth {
        Depth::new(1, 0, 0, 0)
    }

    fn add(self, other: Depth) -> Depth {
        reduced(array::from_fn(|k| u64::from(self.places[k] + other.places[k])))
    }

    fn opposite(self) -> Depth {
        reduced(array::from_fn(|k| u64::from(MODULUS - self.places[k])))
    }

    // The sum for each place is written out, as the rule has it: for the sum of a chain over i no bound is found, and a
    // loop wants an invariant that says the rule again.
    fn multiply(self, other: Depth) -> Depth {
        let [x0, x1, x2, x3] = self.places;
        let [y0, y1, y2, y3] = other.places;
        reduced([
            product(x0, y0),
            product(x0, y1) + product(x1, y0),
            product(x0, y2) + product(x1, y1) + product(x2, y0),
            product(x0, y3) + product(x1, y2) + product(x2, y1) + product(x3, y0),
        ])
    }

    // The four terms are written out, as the rule has them; a loop wants an invariant that says the rule again.
    fn code(self) -> u64 {
        let [c0, c1, c2, c3] = self.places.map(u64::from);
        (c0 << (3 * PLACE_BITS)) + (c1 << (2 * PLACE_BITS)) + (c2 << PLACE_BITS) + c3
    }

    // The four places are written out: over k the shift would be by 3 - k places, with a cast of k, which is longer.
    fn decode(code: u64) -> Result<Depth, CodeFault> {
        check_width(code, Self::WIDTH)?;
        Ok(reduced([
            code >> (3 * PLACE_BITS),
            code >> (2 * PLACE_BITS),
            code >> PLACE_BITS,
            code,
        ]))
    }
}
