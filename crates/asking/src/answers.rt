// What books answer, in print.
use books::fault::BookFault;
use std::fmt;

/// What one book answers: what it grants, or its refusal.
#[derive(Drop)]
struct Told<A>(Result<A, BookFault>);

impl<A: fmt::Display> fmt::Display for Told<A> {
    fn fmt<W: fmt::Write>(&self, f: &mut fmt::Formatter<W>) -> fmt::Result {
        match &self.0 {
            Ok(answer) => write!(f, "{answer}"),
            Err(fault) => write!(f, "refused ({fault})"),
        }
    }
}

/// The answers of a kept and of a plain book to the same call.
#[derive(Clone, Copy)]
pub struct Answers<A> {
    pub kept: Result<A, BookFault>,
    pub plain: Result<A, BookFault>,
}

impl<A: fmt::Display + Copy> fmt::Display for Answers<A> {
    fn fmt<W: fmt::Write>(&self, f: &mut fmt::Formatter<W>) -> fmt::Result {
        write!(f, "{} kept, {} plain", Told(self.kept), Told(self.plain))
    }
}
