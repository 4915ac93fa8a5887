// Whole numbers as a factor kind.
ghost use Rattle.std.specs.Prelude.{◌≡◌, refl};
ghost use Rattle.factors.specs.Whole.{whole_of, whole_coded, whole_ring, whole_coding};

use crate::factor::{Factor, check_width};
use crate::fault::CodeFault;
use crate::whole::Whole;

impl Whole {
    /// The factor with this value.
    pub fn new(value: i32) -> Whole
        ensures made { result ≡ whole_of value }
        ensures same { result.value ≡ value }
    {
        Whole { value }
    }

    /// The value of the factor.
    pub fn value(self) -> i32
        ensures { result ≡ self.value }
    {
        self.value
    }
}

// The factor whose code is this pattern; in one piece with `decode` no proof is found.
#[tactic(auto, using(crate::specs::Whole::whole_same, crate::specs::Whole::coded_value))]
fn of_pattern(pattern: u32) -> Whole
    ensures { result ≡ whole_coded pattern }
{
    Whole::new(i32::from_be_bytes(pattern.to_be_bytes()))
}

impl Factor for Whole {
    const WIDTH: u32 = 32;

    ghost WIDTH = { 32 };

    ghost ring = { whole_ring };

    ghost coding = { whole_coding };

    ghost wide = { refl };

    fn zero() -> Whole {
        Whole::new(0)
    }

    fn one() -> Whole {
        Whole::new(1)
    }

    #[tactic(auto, using(crate::specs::Whole::whole_same, std::proofs::lemmas::Int::wraps))]
    fn add(self, other: Whole) -> Whole {
        Whole::new(self.value.wrapping_add(other.value))
    }

    #[tactic(auto, using(crate::specs::Whole::whole_same, std::proofs::lemmas::Int::wraps))]
    fn opposite(self) -> Whole {
        Whole::new(self.value.wrapping_neg())
    }

    fn multiply(self, other: Whole) -> Whole {
        Whole::new(self.value.wrapping_mul(other.value))
    }

    fn code(self) -> u64 {
        u64::from(u32::from_be_bytes(self.value.to_be_bytes()))
    }

    fn decode(code: u64) -> Result<Whole, CodeFault> {
        check_width(code, Self::WIDTH)?;
        Ok(of_pattern(code as u32))
    }
}
