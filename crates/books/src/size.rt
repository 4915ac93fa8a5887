// The sizes that a book can be opened with.
ghost use Rattle.std.specs.Prelude.{◌≡◌};
ghost use Rattle.books.specs.Calls.{sizing};

use crate::fault::SizeFault;

/// The largest number of blocks that a book can have.
pub const LARGEST_SIZE: usize = 64;

/// Whether a book of `size` blocks can be opened over `cells` cells.
pub fn check_size(size: usize, cells: usize) -> Result<(), SizeFault>
    ensures { result ≡ sizing size cells }
{
    if size == 0 || size > LARGEST_SIZE {
        return Err(SizeFault::SizeOutOfRange);
    }
    if cells < size * size {
        return Err(SizeFault::TooFewCells);
    }
    Ok(())
}
