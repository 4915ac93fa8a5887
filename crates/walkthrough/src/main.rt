// A town's tariff from its first line to a change, told for a person.
#![tactic(auto)]

ghost use Rattle.std.specs.Prelude.{◌≡◌};
ghost use Rattle.tariff.specs.Answers.{book_after};

use asking::sound::SoundBook;
use books::book::Book;
use books::cell::Cell;
use books::plain::PlainBook;
use factors::whole::Whole;
use std::io;
use tariff::answer::Answer;
use tariff::question::{Question, ask};
use tariff::task::{Task, Teller};
use tariff::{BLOCKS, CELLS};

/// Tells of one book.
#[derive(Drop)]
struct OneBook<B: Book> {
    asked: SoundBook<B>,
}

impl<B: Book<Kind = Whole>> OneBook<B> {
    fn say_opened(&mut self, rt: &HostRuntime) -> io::Result<()>
        ensures { B.Book.meaning self.new.asked ≡ B.Book.meaning self.old.asked }
    {
        println!(rt;
            "A tariff of {} blocks is opened. Its lines:",
            self.asked.book.size()
        )
    }
}

impl<B: Book<Kind = Whole>> Teller for OneBook<B> {
    ghost asked = { λ s question t. B.Book.meaning t.asked ≡ book_after (B.Book.meaning s.asked) question };

    fn say(&mut self, rt: &HostRuntime, question: Question) -> io::Result<()> {
        match (question, ask(&mut self.asked, question)) {
            (Question::Enter(_), Ok(_)) | (Question::Rest(_), Ok(Answer::Rests(true))) => {
                println!(rt; "  {question}")
            }
            // of the blocks only those are listed that rest on the other
            (Question::Rest(_), _) => Ok(()),
            (Question::Strike(line), Ok(_)) => {
                println!(rt; "  {} no longer takes in {}", line.upper, line.lower)
            }
            (Question::Strike(line), Err(fault)) => {
                println!(rt;
                    "  {} takes in {}: not struck, {fault}",
                    line.upper, line.lower
                )
            }
            (_, Ok(answer)) => println!(rt; "  {question}: {answer}"),
            (_, Err(fault)) => println!(rt; "  {question}: refused, {fault}"),
        }
    }
}

fn main(rt: HostRuntime) -> io::Result<()> {
    let mut cells: [Cell<Whole>; CELLS] = [Cell::blank(); CELLS];
    let book = PlainBook::open(&mut cells, BLOCKS.len());
    let mut teller = OneBook {
        asked: SoundBook { book },
    };
    teller.say_opened(&rt)?;
    Task { rt: &rt, teller }.tell()
}
