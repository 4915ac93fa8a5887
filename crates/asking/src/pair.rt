// Pairs of what stands for an upper and for a lower block.
use std::fmt;

/// What stands in the places of an upper and of a lower block: two blocks, or their numbers.
#[derive(Clone, Copy)]
pub struct Pair<T> {
    pub upper: T,
    pub lower: T,
}

impl<T: fmt::Display> fmt::Display for Pair<T> {
    fn fmt<W: fmt::Write>(&self, f: &mut fmt::Formatter<W>) -> fmt::Result {
        write!(f, "{} to {}", self.upper, self.lower)
    }
}
