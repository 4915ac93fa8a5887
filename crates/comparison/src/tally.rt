// How often calls are granted, and how often they are refused by which number.
ghost use Rattle.std.specs.Prelude.{◌≡◌, ◌+◌, ◌^◌, ◌<◌};
ghost use Rattle.comparison.specs.Counts.{counted, no_answers, tallying};

mod grants;
mod refusals;

use crate::answer::Answer;
use books::fault::BookFault;
use grants::Grants;
use refusals::Refusals;
use std::fmt;

/// The calls that were answered alike.
#[derive(Drop)]
pub struct Tally {
    grants: Grants,
    refusals: Refusals,
}

impl Tally {
    /// No call counted yet.
    pub fn none() -> Tally
        ensures { result ≡ no_answers }
    {
        Tally {
            grants: Grants::none(),
            refusals: Refusals::none(),
        }
    }

    /// Counts one call by its answer.
    pub fn count(&mut self, answer: Result<Answer, BookFault>)
        requires { counted self.old + 1 < 2 ^ 32 }
        ensures counts { self.new ≡ tallying self.old answer }
        ensures one { counted self.new ≡ counted self.old + 1 }
    {
        match answer {
            Ok(answer) => self.grants.count(answer),
            Err(fault) => self.refusals.count(fault),
        }
    }
}

impl fmt::Display for Tally {
    fn fmt<W: fmt::Write>(&self, f: &mut fmt::Formatter<W>) -> fmt::Result {
        writeln!(
            f,
            "{} granted, {} refused",
            self.grants.all(),
            self.refusals.all()
        )?;
        writeln!(f, "  granted: {}", self.grants)?;
        write!(f, "  refused: {}", self.refusals)
    }
}
