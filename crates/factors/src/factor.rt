// What a factor kind is: a ring with codes.
ghost use Rattle.std.specs.Prelude.{◌≡◌, ◌^◌, ◌<◌, ℕ, cond, nat_lt};
ghost use Rattle.factors.specs.Ring.{Ring};
ghost use Rattle.factors.specs.Coding.{Coding, decoding};

use crate::fault::CodeFault;

/// A kind of factors: its values form a ring, and each has a code.
pub trait Factor: Copy {
    /// The width of a code in bits, at most 64.
    const WIDTH: u32;

    // the constant, as the contracts name it
    ghost WIDTH: { ℕ };

    // the operations with their laws
    ghost ring: { Ring Self };

    // codes below 2 to the width and factors, one to one
    ghost coding: { Coding Self };

    // the codes have the width that the constant says
    ghost wide: { coding.width ≡ WIDTH };

    fn zero() -> Self
        ensures { result ≡ ring.ops.zero };

    fn one() -> Self
        ensures { result ≡ ring.ops.one };

    fn add(self, other: Self) -> Self
        ensures { result ≡ ring.ops.add self other };

    fn opposite(self) -> Self
        ensures { result ≡ ring.opposite self };

    /// The product with `self` ahead of `other`; the order can matter.
    fn multiply(self, other: Self) -> Self
        ensures { result ≡ ring.ops.mul self other };

    /// The width as the contracts name it: `Self::WIDTH`.
    fn code_width() -> u32
        ensures { result ≡ coding.width }
    {
        Self::WIDTH
    }

    fn code(self) -> u64
        ensures { result ≡ coding.code self };

    fn decode(code: u64) -> Result<Self, CodeFault>
        ensures { result ≡ decoding coding code };
}

// Refuses a code with a bit at or above this width; a kind of width 64 has none to refuse.
pub(crate) fn check_width(code: u64, width: u32) -> Result<(), CodeFault>
    requires { width < 64 }
    ensures { result ≡ cond (nat_lt code (2 ^ width)) (Ok tt) (Err CodeFault.BitAboveWidth) }
{
    if code >> width != 0 {
        return Err(CodeFault::BitAboveWidth);
    }
    Ok(())
}
