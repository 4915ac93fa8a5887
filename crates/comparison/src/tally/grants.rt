// The granted calls, counted by their answers.
ghost use Rattle.std.specs.Prelude.{◌≡◌, ◌+◌, ◌^◌, ◌<◌};
ghost use Rattle.comparison.specs.Counts.{granted, granting, no_grants};

use crate::answer::Answer;
use std::fmt;

/// How many calls were granted with each kind of answer, and what the numbers in the answers add up to.
#[derive(Default, Drop)]
pub struct Grants {
    entered: u32,
    struck: u32,
    affirmed: u32,
    denied: u32,
    supports: u32,
    support_sum: u64,
    codes: u32,
    code_sum: u64,
}

impl Grants {
    /// No call counted yet.
    pub fn none() -> Grants
        ensures { result ≡ no_grants }
    {
        Grants::default()
    }

    /// Counts one call.
    pub fn count(&mut self, answer: Answer)
        requires { granted self.old + 1 < 2 ^ 32 }
        ensures counts { self.new ≡ granting self.old answer }
        ensures one { granted self.new ≡ granted self.old + 1 }
    {
        match answer {
            Answer::Entered => self.entered += 1,
            Answer::Struck => self.struck += 1,
            Answer::Holds(true) => self.affirmed += 1,
            Answer::Holds(false) => self.denied += 1,
            Answer::Support(lines) => {
                self.supports += 1;
                self.support_sum = self.support_sum.wrapping_add(u64::from(lines));
            }
            Answer::Code(code) => {
                self.codes += 1;
                self.code_sum = self.code_sum.wrapping_add(code);
            }
        }
    }

    /// How many calls there are.
    pub fn all(&self) -> u64
        ensures { result ≡ granted self.now }
    {
        u64::from(self.entered)
            + u64::from(self.struck)
            + u64::from(self.affirmed)
            + u64::from(self.denied)
            + u64::from(self.supports)
            + u64::from(self.codes)
    }
}

impl fmt::Display for Grants {
    fn fmt<W: fmt::Write>(&self, f: &mut fmt::Formatter<W>) -> fmt::Result {
        write!(
            f,
            "{} lines entered, {} struck, {} times yes, {} times no, {} supports (sum {}), {} factors and totals (sum of codes {})",
            self.entered,
            self.struck,
            self.affirmed,
            self.denied,
            self.supports,
            self.support_sum,
            self.codes,
            self.code_sum
        )
    }
}
