// What a book of the tariff is asked, and to do.
ghost use Rattle.std.specs.Prelude.{◌≡◌};
ghost use Rattle.tariff.specs.Answers.{answer_of, book_after};

use crate::answer::Answer;
use crate::{Block, Line};
use asking::pair::Pair;
use asking::sound::SoundBook;
use books::book::Book;
use books::fault::BookFault;
use factors::whole::Whole;
use std::fmt;

/// A question to a book, or a change of it, in the words of the tariff; one of them, the count, takes two calls of the book.
#[derive(Clone, Copy)]
pub enum Question {
    Enter(Line),
    Strike(Pair<Block>),
    /// How often the lower block counts in the upper one.
    Count(Pair<Block>),
    /// Whether the upper block rests on the lower one.
    Rest(Pair<Block>),
    /// Whether the line between them is needed to show the whole reach.
    Need(Pair<Block>),
}

impl fmt::Display for Question {
    fn fmt<W: fmt::Write>(&self, f: &mut fmt::Formatter<W>) -> fmt::Result {
        match *self {
            Question::Enter(line) => write!(
                f,
                "{} takes in {} x {}",
                line.upper, line.lower, line.factor
            ),
            Question::Strike(pair) | Question::Need(pair) => write!(f, "{pair}"),
            Question::Count(pair) => write!(f, "{}", pair.lower),
            Question::Rest(pair) => write!(f, "{}", pair.upper),
        }
    }
}

/// Puts one question to a book, which grants or refuses it. It stands beside the `ask` of the comparison: a call has numbers and
/// any kind of factors, a question has the words of the tariff, and the count takes two calls.
pub fn ask<B: Book<Kind = Whole>>(
    asked: &mut SoundBook<B>,
    question: Question,
) -> Result<Answer, BookFault>
    ensures answers { result ≡ answer_of (B.Book.meaning asked.old) question }
    ensures leaves { B.Book.meaning asked.new ≡ book_after (B.Book.meaning asked.old) question }
{
    let book = &mut asked.book;
    match question {
        Question::Enter(line) => {
            let factor = Whole::new(line.factor);
            book.enter(line.upper.number(), line.lower.number(), factor)?;
            Ok(Answer::Entered)
        }
        Question::Strike(Pair { upper, lower }) => {
            book.strike(upper.number(), lower.number())?;
            Ok(Answer::Struck)
        }
        Question::Count(Pair { upper, lower }) => {
            let total = book.total(upper.number(), lower.number())?.value();
            let support = book.support(upper.number(), lower.number())?;
            Ok(Answer::Counts { total, support })
        }
        Question::Rest(Pair { upper, lower }) => {
            Ok(Answer::Rests(book.reach(upper.number(), lower.number())?))
        }
        Question::Need(Pair { upper, lower }) => {
            Ok(Answer::Needed(book.need(upper.number(), lower.number())?))
        }
    }
}
