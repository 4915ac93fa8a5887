// What a book of the tariff answers where it grants a question.
use std::fmt;

/// What a book grants.
#[derive(Clone, Copy)]
pub enum Answer {
    Entered,
    Struck,
    /// How often one block counts in another, and over how many lines that end at it.
    Counts { total: i32, support: u16 },
    /// Whether one block rests on another.
    Rests(bool),
    /// Whether a line is needed to show the whole reach.
    Needed(bool),
}

impl fmt::Display for Answer {
    fn fmt<W: fmt::Write>(&self, f: &mut fmt::Formatter<W>) -> fmt::Result {
        match *self {
            Answer::Entered => f.write_str("entered"),
            Answer::Struck => f.write_str("struck"),
            Answer::Counts { total, support } => write!(f, "{total} (over {support})"),
            Answer::Rests(true) => f.write_str("yes"),
            Answer::Rests(false) => f.write_str("no"),
            Answer::Needed(true) => f.write_str("needed"),
            Answer::Needed(false) => f.write_str("not needed"),
        }
    }
}
