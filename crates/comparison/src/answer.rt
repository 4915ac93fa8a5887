// What a book answers to a call.
ghost use Rattle.std.specs.Prelude.{◌≡◌};
ghost use Rattle.comparison.specs.Answers.{answer_of, book_after};

use crate::call::Call;
use asking::sound::SoundBook;
use books::book::Book;
use books::fault::BookFault;
use factors::factor::Factor;
use std::fmt;

/// What a book grants to a call.
#[derive(Clone, Copy, PartialEq, Eq)]
pub enum Answer {
    Entered,
    Struck,
    /// Whether a block reaches another, or a line is needed.
    Holds(bool),
    /// A support number.
    Support(u16),
    /// A factor or a total, by its code.
    Code(u64),
}

impl fmt::Display for Answer {
    fn fmt<W: fmt::Write>(&self, f: &mut fmt::Formatter<W>) -> fmt::Result {
        match *self {
            Answer::Entered => f.write_str("entered"),
            Answer::Struck => f.write_str("struck"),
            Answer::Holds(true) => f.write_str("yes"),
            Answer::Holds(false) => f.write_str("no"),
            Answer::Support(lines) => write!(f, "{lines} lines"),
            Answer::Code(code) => write!(f, "code {code}"),
        }
    }
}

/// Puts one call to a book, which grants or refuses it. It stands beside the `ask` of the tariff: a call has numbers and any kind
/// of factors, a question of the tariff has its own words, and one of them takes two calls.
pub fn ask<F: Factor, B: Book<Kind = F>>(
    asked: &mut SoundBook<B>,
    call: Call<F>,
) -> Result<Answer, BookFault>
    ensures answers { result ≡ answer_of F.Factor.ring.ops F.Factor.coding (B.Book.meaning asked.old) call }
    ensures leaves { B.Book.meaning asked.new ≡ book_after (B.Book.meaning asked.old) call }
{
    let book = &mut asked.book;
    match call {
        Call::Enter(pair, factor) => book
            .enter(pair.upper, pair.lower, factor)
            .map(|()| Answer::Entered),
        Call::Strike(pair) => book.strike(pair.upper, pair.lower).map(|()| Answer::Struck),
        Call::Factor(pair) => book
            .factor(pair.upper, pair.lower)
            .map(|factor| Answer::Code(factor.code())),
        Call::Reach(pair) => book.reach(pair.upper, pair.lower).map(Answer::Holds),
        Call::Support(pair) => book.support(pair.upper, pair.lower).map(Answer::Support),
        Call::Need(pair) => book.need(pair.upper, pair.lower).map(Answer::Holds),
        Call::Total(pair) => book
            .total(pair.upper, pair.lower)
            .map(|total| Answer::Code(total.code())),
    }
}
