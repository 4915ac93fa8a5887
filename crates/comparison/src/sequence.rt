// The fixed sequence of numbers that the calls are drawn from.
ghost use Rattle.std.specs.Prelude.{◌≡◌, ◌/◌, ◌%◌, ◌^◌, ◌<◌};
ghost use Rattle.comparison.specs.Sequences.{following};

// what takes a number of the sequence to the next one
const MULTIPLIER: u64 = 6_364_136_223_846_793_005;

const INCREMENT: u64 = 1_442_695_040_888_963_407;

// the low bits of a number repeat soon, so that these are left out
const SHORT_BITS: u32 = 32;

/// A sequence of numbers, each worked out from the one before. It has no end, so `next` answers a number: that of an
/// `Iterator` would answer an `Option`, which every draw would have to open.
#[derive(Drop)]
pub struct Sequence {
    state: u64,
}

impl Sequence {
    /// The sequence that begins after this number.
    pub fn new(seed: u64) -> Sequence
        ensures { result.state ≡ seed }
    {
        Sequence { state: seed }
    }

    /// The next number, any of 64 bits.
    pub fn next(&mut self) -> u64
        ensures answers { result ≡ following self.old.state }
        ensures steps { self.new.state ≡ following self.old.state }
    {
        self.state = self.state.wrapping_mul(MULTIPLIER).wrapping_add(INCREMENT);
        self.state
    }

    /// The next number, brought below a bound.
    pub fn below(&mut self, bound: u64) -> u64
        requires { 0 < bound }
        ensures answers { result ≡ following self.old.state / 2 ^ 32 % bound }
        ensures below { result < bound }
        ensures steps { self.new.state ≡ following self.old.state }
    {
        (self.next() >> SHORT_BITS) % bound
    }
}
