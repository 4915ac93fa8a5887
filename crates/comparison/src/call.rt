// The calls of a book.
use asking::pair::Pair;
use factors::factor::Factor;
use std::fmt;

/// A call of a book with factors of the kind `F`, with the numbers in the places of its two blocks.
#[derive(Clone, Copy)]
pub enum Call<F> {
    Enter(Pair<usize>, F),
    Strike(Pair<usize>),
    Factor(Pair<usize>),
    Reach(Pair<usize>),
    Support(Pair<usize>),
    Need(Pair<usize>),
    Total(Pair<usize>),
}

impl<F: Factor> fmt::Display for Call<F> {
    fn fmt<W: fmt::Write>(&self, f: &mut fmt::Formatter<W>) -> fmt::Result {
        match *self {
            Call::Enter(pair, factor) => write!(f, "enter {pair} with code {}", factor.code()),
            Call::Strike(pair) => write!(f, "strike {pair}"),
            Call::Factor(pair) => write!(f, "factor {pair}"),
            Call::Reach(pair) => write!(f, "reach {pair}"),
            Call::Support(pair) => write!(f, "support {pair}"),
            Call::Need(pair) => write!(f, "need {pair}"),
            Call::Total(pair) => write!(f, "total {pair}"),
        }
    }
}
