// The refused calls, counted by what they are refused for.
ghost use Rattle.std.specs.Prelude.{◌≡◌, ◌+◌, ◌^◌, ◌<◌};
ghost use Rattle.comparison.specs.Counts.{no_refusals, refused, refusing};

use books::fault::BookFault;
use std::fmt;

/// How many calls were refused by each number.
#[derive(Default, Drop)]
pub struct Refusals {
    no_block: u32,
    same_block: u32,
    line_stands: u32,
    circle: u32,
    no_line: u32,
}

impl Refusals {
    /// No call counted yet.
    pub fn none() -> Refusals
        ensures { result ≡ no_refusals }
    {
        Refusals::default()
    }

    /// Counts one call.
    pub fn count(&mut self, fault: BookFault)
        requires { refused self.old + 1 < 2 ^ 32 }
        ensures counts { self.new ≡ refusing self.old fault }
        ensures one { refused self.new ≡ refused self.old + 1 }
    {
        match fault {
            BookFault::NoBlock => self.no_block += 1,
            BookFault::SameBlock => self.same_block += 1,
            BookFault::LineStands => self.line_stands += 1,
            BookFault::Circle => self.circle += 1,
            BookFault::NoLine => self.no_line += 1,
        }
    }

    /// How many calls there are.
    pub fn all(&self) -> u64
        ensures { result ≡ refused self.now }
    {
        u64::from(self.no_block)
            + u64::from(self.same_block)
            + u64::from(self.line_stands)
            + u64::from(self.circle)
            + u64::from(self.no_line)
    }
}

impl fmt::Display for Refusals {
    fn fmt<W: fmt::Write>(&self, f: &mut fmt::Formatter<W>) -> fmt::Result {
        write!(
            f,
            "{} by number 1 (no block), {} by number 2 (same block), {} by number 3 (line stands), {} by number 4 (circle), {} by number 5 (no line)",
            self.no_block, self.same_block, self.line_stands, self.circle, self.no_line
        )
    }
}
