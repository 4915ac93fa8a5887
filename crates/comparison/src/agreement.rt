// Two books that are put the same calls: whether they answer alike.
ghost use Rattle.std.specs.Prelude.{◌≡◌, ◌≢◌, true, is_ok, IfOk, IfErr};
ghost use Rattle.comparison.specs.Answers.{answer_of, book_after};
ghost use Rattle.comparison.specs.Counts.{counted};
ghost use Rattle.comparison.specs.Runs.{Tallied};

use crate::answer::{Answer, ask};
use crate::call::Call;
use crate::draw::draw_call;
use crate::sequence::Sequence;
use crate::tally::Tally;
use asking::answers::Answers;
use asking::sound::Books;
use books::book::Book;
use books::fault::BookFault;
use factors::factor::Factor;
use std::fmt;

/// How many calls two books are put.
pub const CALLS: u32 = 5000;

/// A call that two books answer differently.
#[derive(Clone, Copy)]
pub struct Difference<F> {
    earlier: u32,
    call: Call<F>,
    answers: Answers<Answer>,
}

impl<F: Factor> fmt::Display for Difference<F> {
    fn fmt<W: fmt::Write>(&self, f: &mut fmt::Formatter<W>) -> fmt::Result {
        write!(
            f,
            "{} calls answered alike, then {}: {}",
            self.earlier, self.call, self.answers
        )
    }
}

/// Puts one call to both books after earlier ones, and hands the answer back if it is the same.
fn agree<F: Factor, K: Book<Kind = F>, P: Book<Kind = F>>(
    books: &mut Books<K, P>,
    earlier: u32,
    call: Call<F>,
) -> Result<Result<Answer, BookFault>, Difference<F>>
    ensures answers { IfOk result (λ answer. answer ≡ answer_of F.Factor.ring.ops F.Factor.coding (K.Book.meaning books.old.kept) call) }
    ensures alike { K.Book.meaning books.old.kept ≡ P.Book.meaning books.old.plain → is_ok result ≡ true }
    ensures differs { IfErr result (λ difference. difference.answers.kept ≢ difference.answers.plain) }
    ensures leaves { (K.Book.meaning books.new.kept ≡ book_after (K.Book.meaning books.old.kept) call) × (P.Book.meaning books.new.plain ≡ book_after (P.Book.meaning books.old.plain) call) }
{
    let kept = ask(&mut books.kept, call);
    let plain = ask(&mut books.plain, call);
    if kept == plain {
        Ok(kept)
    } else {
        Err(Difference {
            earlier,
            call,
            answers: Answers { kept, plain },
        })
    }
}

/// Puts calls to two books of the same size, and counts the answers until one differs.
#[tactic(auto, using(crate::proofs::Runs::tallied_none, crate::proofs::Runs::tallied_more))]
pub fn compare<F: Factor, K: Book<Kind = F>, P: Book<Kind = F>>(
    books: &mut Books<K, P>,
    sequence: &mut Sequence,
    size: u8,
) -> Result<Tally, Difference<F>>
    ensures all { IfOk result (λ tally. counted tally ≡ 5000) }
    ensures tallies { IfOk result (λ tally. Tallied F.Factor.ring.ops F.Factor.coding (K.Book.meaning books.old.kept) 5000 (K.Book.meaning books.new.kept) tally) }
    ensures alike { K.Book.meaning books.old.kept ≡ P.Book.meaning books.old.plain → is_ok result ≡ true }
    ensures differs { IfErr result (λ difference. difference.answers.kept ≢ difference.answers.plain) }
{
    let mut tally = Tally::none();
    for earlier in 0..CALLS {
        let call = draw_call(sequence, size);
        tally.count(agree(books, earlier, call)?);
    }
    Ok(tally)
}
