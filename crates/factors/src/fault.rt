// The one refusal of a factor kind.
ghost use Rattle.std.specs.Prelude.{◌≡◌, Some};
ghost use Rattle.factors.specs.Coding.{code_fault_number, refusal_text};

use std::fmt;

/// Why a code is not the code of a factor.
#[derive(Clone, Copy, PartialEq, Eq, Debug)]
pub enum CodeFault {
    /// A bit at or above the width of the kind's code is set.
    BitAboveWidth = 13,
}

impl CodeFault {
    /// The number that the refusal is reported by.
    pub fn number(self) -> u8
        ensures { result ≡ code_fault_number self }
    {
        self as u8
    }
}

impl fmt::Display for CodeFault {
    ghost output = { λ fault. Some (refusal_text (code_fault_number fault)) };

    fn fmt<W: fmt::Write>(&self, f: &mut fmt::Formatter<W>) -> fmt::Result {
        write!(f, "number {}", self.number())
    }
}
