// A town's tariff from its first line to a change, told for a person from a kept and from a plain book.
#![tactic(auto)]

ghost use Rattle.std.specs.Prelude.{◌≡◌};
ghost use Rattle.tariff.specs.Answers.{book_after};

use asking::answers::Answers;
use asking::sound::{Books, SoundBook};
use books::book::Book;
use books::cell::Cell;
use books::kept::KeptBook;
use books::plain::PlainBook;
use factors::whole::Whole;
use std::io;
use tariff::question::{Question, ask};
use tariff::task::{Task, Teller};
use tariff::{BLOCKS, CELLS};

/// Tells of two books side by side.
#[derive(Drop)]
struct TwoBooks<K: Book, P: Book> {
    books: Books<K, P>,
}

impl<K: Book<Kind = Whole>, P: Book<Kind = Whole>> TwoBooks<K, P> {
    fn say_opened(&mut self, rt: &HostRuntime) -> io::Result<()>
        ensures kept { K.Book.meaning self.new.books.kept ≡ K.Book.meaning self.old.books.kept }
        ensures plain { P.Book.meaning self.new.books.plain ≡ P.Book.meaning self.old.books.plain }
    {
        println!(rt;
            "A tariff is opened in two books: {} blocks kept, {} blocks plain. Its lines:",
            self.books.kept.book.size(),
            self.books.plain.book.size()
        )
    }
}

impl<K: Book<Kind = Whole>, P: Book<Kind = Whole>> Teller for TwoBooks<K, P> {
    ghost asked = { λ s question t. (K.Book.meaning t.books.kept ≡ book_after (K.Book.meaning s.books.kept) question) × (P.Book.meaning t.books.plain ≡ book_after (P.Book.meaning s.books.plain) question) };

    fn say(&mut self, rt: &HostRuntime, question: Question) -> io::Result<()> {
        let answers = Answers {
            kept: ask(&mut self.books.kept, question),
            plain: ask(&mut self.books.plain, question),
        };
        println!(rt; "  {question}: {answers}")
    }
}

fn main(rt: HostRuntime) -> io::Result<()> {
    let mut kept_cells: [Cell<Whole>; CELLS] = [Cell::blank(); CELLS];
    let mut plain_cells: [Cell<Whole>; CELLS] = [Cell::blank(); CELLS];
    let books = Books {
        kept: SoundBook {
            book: KeptBook::open(&mut kept_cells, BLOCKS.len()),
        },
        plain: SoundBook {
            book: PlainBook::open(&mut plain_cells, BLOCKS.len()),
        },
    };
    let mut teller = TwoBooks { books };
    teller.say_opened(&rt)?;
    Task { rt: &rt, teller }.tell()
}
