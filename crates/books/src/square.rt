// The square of cells of a book: which cell is whose, and the lines that they hold.
//
// The cells and the number of blocks go beside each other: by the rules a book lends its whole slice to functions, and of a struct
// that borrowed it again nothing would be known once a method had written. Two blocks go as two numbers, each below that number,
// since loops vary one of them and leave the other.
ghost use Rattle.std.specs.Prelude.{◌≡◌, ◌+◌, ◌*◌, ◌<◌, ◌≤◌, true, false, not, ◌&&◌, ◌++◌, length, drop, replicate, Some, None, Ok, Err, nat_lt};
ghost use Rattle.books.specs.Calls.{refuse, opened_size, entering, striking, factoring, needing};
ghost use Rattle.books.specs.Graph.{reaches, needed};
ghost use Rattle.books.specs.Cells.{Square, cells_meaning, noted_support, relined, with_support, with_total, blank_cell};
ghost use Rattle.books.specs.Walks.{noted_total};
ghost use Rattle.books.specs.declared.fault.BookFault.TheVariants.{NoBlock, Circle};

use crate::cell::Cell;
use crate::fault::BookFault;
use crate::size::check_size;
use factors::factor::Factor;

/// The size of a book that is opened: the size asked for, or 0 where it is refused.
pub(crate) fn openable_size(size: usize, cells: usize) -> usize
    ensures { result ≡ opened_size size cells }
{
    check_size(size, cells).map_or(0, |()| size)
}

/// Makes every one of these cells alike. The library's `fill` would ask that a factor's clone cannot fail.
fn fill<F: Factor>(cells: &mut [Cell<F>], cell: Cell<F>)
    ensures { cells.new ≡ replicate (length cells.old) cell }
{
    cells.fill_with(move || cell);
}

/// Makes the first `count` cells blank.
pub(crate) fn blank_cells<F: Factor>(cells: &mut [Cell<F>], count: usize)
    requires { count ≤ length cells.old }
    ensures { cells.new ≡ replicate count (blank_cell F.Factor.ring.ops.zero) ++ drop count cells.old }
{
    fill(&mut cells[..count], Cell::blank());
}

/// Refuses a pair of which one is no block of a book of `n` blocks.
pub(crate) fn check_pair(n: usize, a: usize, b: usize) -> Result<(), BookFault>
    ensures answers { result ≡ refuse (not (nat_lt a n && nat_lt b n)) NoBlock (Ok tt) }
    ensures within { elim result [ Ok _ ↦ (a < n) × (b < n) × ((nat_lt a n && nat_lt b n) ≡ true) | Err e ↦ (e ≡ NoBlock) × ((nat_lt a n && nat_lt b n) ≡ false) ] }
{
    if a < n && b < n {
        Ok(())
    } else {
        Err(BookFault::NoBlock)
    }
}

/// The place of the cell of the pair `(a, b)`.
#[tactic(auto, using(crate::proofs::Squares::place_within))]
pub(crate) fn place<F: Factor>(cells: &[Cell<F>], n: usize, a: usize, b: usize) -> usize
    requires square { Square n cells.now }
    requires upper { a < n }
    requires lower { b < n }
    ensures value { result ≡ a * n + b }
    ensures within { result < length cells.now }
{
    a * n + b
}

/// The factor of the line of the pair `(a, b)`, if it stands.
pub(crate) fn line_at<F: Factor>(cells: &[Cell<F>], n: usize, a: usize, b: usize) -> Option<F>
    requires square { Square n cells.now }
    requires upper { a < n }
    requires lower { b < n }
    ensures { result ≡ (cells_meaning n cells.now).line a b }
{
    cells[place(cells, n, a, b)].line()
}

/// Refuses a line that may not be entered, whatever `b` reaches.
pub(crate) fn check_vacant<F: Factor>(
    cells: &[Cell<F>],
    n: usize,
    a: usize,
    b: usize,
) -> Result<(), BookFault>
    requires { Square n cells.now }
    ensures { elim result [ Ok _ ↦ (a < n) × (b < n) × ((cells_meaning n cells.now).line a b ≡ None) × (entering (cells_meaning n cells.now) a b ≡ refuse (reaches (cells_meaning n cells.now) b a) Circle (Ok tt)) | Err e ↦ entering (cells_meaning n cells.now) a b ≡ Err e ] }
{
    check_pair(n, a, b)?;
    if a == b {
        return Err(BookFault::SameBlock);
    }
    if line_at(cells, n, a, b).is_some() {
        return Err(BookFault::LineStands);
    }
    Ok(())
}

/// The factor of the line of the pair `(a, b)`, or why there is none.
pub(crate) fn standing_line<F: Factor>(
    cells: &[Cell<F>],
    n: usize,
    a: usize,
    b: usize,
) -> Result<F, BookFault>
    requires { Square n cells.now }
    ensures answers { result ≡ factoring (cells_meaning n cells.now) a b }
    ensures stands { elim result [ Ok f ↦ (a < n) × (b < n) × ((cells_meaning n cells.now).line a b ≡ Some f) × (striking (cells_meaning n cells.now) a b ≡ Ok tt) × (needing (cells_meaning n cells.now) a b ≡ Ok (needed (cells_meaning n cells.now) a b)) | Err e ↦ (striking (cells_meaning n cells.now) a b ≡ Err e) × (needing (cells_meaning n cells.now) a b ≡ Err e) ] }
{
    check_pair(n, a, b)?;
    line_at(cells, n, a, b).ok_or(BookFault::NoLine)
}

/// Sets the line of the pair `(a, b)` anew.
pub(crate) fn set_line<F: Factor>(
    cells: &mut [Cell<F>],
    n: usize,
    a: usize,
    b: usize,
    line: Option<F>,
)
    requires square { Square n cells.old }
    requires upper { a < n }
    requires lower { b < n }
    ensures { cells.new ≡ relined F.Factor.ring.ops.zero cells.old (a * n + b) line }
{
    let k = place(cells, n, a, b);
    cells[k] = cells[k].with_line(line);
}

// A reader and a writer for each field: with one of each for the whole cell, every caller and contract would take out its field.

/// The support number of the pair `(a, b)`.
pub(crate) fn support_at<F: Factor>(cells: &[Cell<F>], n: usize, a: usize, b: usize) -> u16
    requires square { Square n cells.now }
    requires upper { a < n }
    requires lower { b < n }
    ensures { result ≡ noted_support n cells.now a b }
{
    cells[place(cells, n, a, b)].support
}

/// Sets the support number of the pair `(a, b)` anew.
pub(crate) fn set_support<F: Factor>(
    cells: &mut [Cell<F>],
    n: usize,
    a: usize,
    b: usize,
    support: u16,
)
    requires square { Square n cells.old }
    requires upper { a < n }
    requires lower { b < n }
    ensures { cells.new ≡ with_support F.Factor.ring.ops.zero cells.old (a * n + b) support }
{
    let k = place(cells, n, a, b);
    cells[k].support = support;
}

/// What is noted as the total of the pair `(a, b)`.
pub(crate) fn noted<F: Factor>(cells: &[Cell<F>], n: usize, a: usize, b: usize) -> F
    requires square { Square n cells.now }
    requires upper { a < n }
    requires lower { b < n }
    ensures { result ≡ noted_total F.Factor.ring.ops n cells.now a b }
{
    cells[place(cells, n, a, b)].total
}

/// Sets the total of the pair `(a, b)` anew.
pub(crate) fn set_total<F: Factor>(cells: &mut [Cell<F>], n: usize, a: usize, b: usize, total: F)
    requires square { Square n cells.old }
    requires upper { a < n }
    requires lower { b < n }
    ensures { cells.new ≡ with_total F.Factor.ring.ops.zero cells.old (a * n + b) total }
{
    let k = place(cells, n, a, b);
    cells[k].total = total;
}
