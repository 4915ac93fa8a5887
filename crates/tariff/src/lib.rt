// A town's tariff: its blocks and the lines between them, what a book of it is asked, and the task that is told of it.
#![tactic(auto)]

ghost use Rattle.std.specs.Prelude.{◌≡◌};
ghost use Rattle.tariff.specs.Blocks.{block_number};

pub mod answer;
pub mod question;
pub mod task;

use std::fmt;

/// The blocks, in the order of their numbers.
#[derive(Clone, Copy)]
pub enum Block {
    DayFare,
    AirportTrip,
    BaseCharge,
    Luggage,
    AirportExtra,
    Discount,
}

impl Block {
    /// The number of the block in a book of the tariff.
    pub fn number(self) -> usize
        ensures { result ≡ block_number self }
    {
        self as usize
    }
}

impl fmt::Display for Block {
    fn fmt<W: fmt::Write>(&self, f: &mut fmt::Formatter<W>) -> fmt::Result {
        f.write_str(match self {
            Block::DayFare => "day fare",
            Block::AirportTrip => "airport trip",
            Block::BaseCharge => "base charge",
            Block::Luggage => "luggage",
            Block::AirportExtra => "airport extra",
            Block::Discount => "discount",
        })
    }
}

/// Every block of the tariff.
pub const BLOCKS: [Block; 6] = [
    Block::DayFare,
    Block::AirportTrip,
    Block::BaseCharge,
    Block::Luggage,
    Block::AirportExtra,
    Block::Discount,
];

/// How many cells a book of the tariff takes: one for each pair of blocks.
pub const CELLS: usize = BLOCKS.len() * BLOCKS.len();

/// One block takes in another as often as the factor says. The blocks are fields of the line and no pair in it, since each
/// line of the table below would be longer by that pair.
#[derive(Clone, Copy)]
pub struct Line {
    pub upper: Block,
    pub lower: Block,
    pub factor: i32,
}

/// The lines of the tariff.
pub const LINES: [Line; 7] = [
    Line {
        upper: Block::DayFare,
        lower: Block::BaseCharge,
        factor: 1,
    },
    Line {
        upper: Block::DayFare,
        lower: Block::Luggage,
        factor: 2,
    },
    Line {
        upper: Block::AirportExtra,
        lower: Block::Luggage,
        factor: 1,
    },
    Line {
        upper: Block::AirportTrip,
        lower: Block::DayFare,
        factor: 1,
    },
    Line {
        upper: Block::AirportTrip,
        lower: Block::AirportExtra,
        factor: 3,
    },
    Line {
        upper: Block::AirportTrip,
        lower: Block::Luggage,
        factor: 4,
    },
    Line {
        upper: Block::AirportTrip,
        lower: Block::Discount,
        factor: -2,
    },
];
