// The refusals of a book and of a size.
ghost use Rattle.std.specs.Prelude.{◌≡◌, Some};
ghost use Rattle.factors.specs.Coding.{refusal_text};
ghost use Rattle.books.specs.Calls.{fault_number, size_fault_number};

use std::fmt;

/// Why a call of a book is refused.
#[derive(Clone, Copy, PartialEq, Eq, Debug)]
pub enum BookFault {
    /// One of the two numbers is no block of the book.
    NoBlock = 1,
    /// A line would go from a block to itself.
    SameBlock = 2,
    /// The line stands already.
    LineStands = 3,
    /// The lower block reaches the upper one, so that the line would close a circle.
    Circle = 4,
    /// The line does not stand.
    NoLine = 5,
}

impl BookFault {
    /// The number that the refusal is reported by.
    pub fn number(self) -> u8
        ensures { result ≡ fault_number self }
    {
        self as u8
    }
}

// As a refused code prints: a trait for the number of a refusal would be longer than the lines that it saves.
impl fmt::Display for BookFault {
    ghost output = { λ fault. Some (refusal_text (fault_number fault)) };

    fn fmt<W: fmt::Write>(&self, f: &mut fmt::Formatter<W>) -> fmt::Result {
        write!(f, "number {}", self.number())
    }
}

/// Why no book of a size can be opened over some cells.
#[derive(Clone, Copy, PartialEq, Eq, Debug)]
pub enum SizeFault {
    /// The size is 0 or above 64.
    SizeOutOfRange = 16,
    /// There are fewer cells than pairs of blocks.
    TooFewCells = 17,
}

impl SizeFault {
    /// The number that the refusal is reported by.
    pub fn number(self) -> u8
        ensures { result ≡ size_fault_number self }
    {
        self as u8
    }
}
