// The kind of whole numbers: what a value holds.
ghost use Rattle.std.specs.Prelude.{◌^◌, ◌<◌};
ghost use Rattle.std.specs.Int.Signed.{mag};

mod kind;

/// A signed number of 32 bits; sums and products wrap.
#[derive(Clone, Copy, PartialEq, Eq, Debug)]
pub struct Whole {
    value: i32,
    // at least -2^31 and below 2^31, so that every value is a factor
    ghost fits: { mag value < 2 ^ 31 },
}
