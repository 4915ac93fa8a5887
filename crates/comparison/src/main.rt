// The same calls on a kept and on a plain book, and every answer of the one compared with that of the other.
#![tactic(auto)]

mod agreement;
mod answer;
mod call;
mod draw;
mod sequence;
mod tally;

use agreement::{CALLS, compare};
use asking::sound::{Books, SoundBook};
use books::cell::Cell;
use books::kept::KeptBook;
use books::plain::PlainBook;
use books::size::LARGEST_SIZE;
use factors::depth::Depth;
use factors::factor::Factor;
use factors::whole::Whole;
use sequence::Sequence;
use std::io;

// the sizes of the books: the smallest, a small one and the largest
const SIZES: [u8; 3] = [1, 5, 64];

// enough cells for the largest book
const CELLS: usize = LARGEST_SIZE * LARGEST_SIZE;

// where the sequence begins
const SEED: u64 = 2026;

/// A kind of factors with its name.
trait Named: Factor {
    const NAME: &'static str;
}

impl Named for Whole {
    const NAME: &'static str = "whole";
}

impl Named for Depth {
    const NAME: &'static str = "depth";
}

/// Compares two books of one size and one kind of factors, and says how they answered.
fn run<F: Named>(rt: &HostRuntime, sequence: &mut Sequence, size: u8) -> io::Result<()> {
    let mut kept_cells = vec![in rt.alloc(); Cell::<F>::blank(); CELLS]?;
    let mut plain_cells = vec![in rt.alloc(); Cell::<F>::blank(); CELLS]?;
    let mut books = Books {
        kept: SoundBook {
            book: KeptBook::open(kept_cells.as_mut_slice(), usize::from(size)),
        },
        plain: SoundBook {
            book: PlainBook::open(plain_cells.as_mut_slice(), usize::from(size)),
        },
    };
    match compare(&mut books, sequence, size) {
        Ok(tally) => println!(rt;
            "size {size}, {} factors: {CALLS} calls answered alike, {tally}",
            F::NAME
        ),
        Err(difference) => {
            println!(rt; "size {size}, {} factors: {difference}", F::NAME)?;
            Err(io::Error::other("two books answer differently"))
        }
    }
}

fn main(rt: HostRuntime) -> io::Result<()> {
    let mut sequence = Sequence::new(SEED);
    for size in SIZES {
        run::<Whole>(&rt, &mut sequence, size)?;
        run::<Depth>(&rt, &mut sequence, size)?;
    }
    Ok(())
}
