// What a book keeps in its cells beside the lines.
ghost use Rattle.std.specs.Prelude.{◌≡◌, ℕ, ◌*◌, ◌<◌, true, false, List, drop, Some, None, ◌==◌};
ghost use Rattle.books.specs.Graph.{Circleless, stands, reaches, support, needed, total, no_lines, with_line};
ghost use Rattle.books.specs.Cells.{Square, cells_meaning, opened_cells};

use crate::cell::Cell;
use factors::factor::Factor;

// A line goes as two blocks and a factor: a method with a struct of a factor as a parameter is not given its trait's clauses yet.

/// What the cells of a book hold beside the lines, how a change of a line is worked into them, and how a query is answered
/// from them. Each function is given the first `n` × `n` cells of a book of `n` blocks, and those behind.
pub trait Upkeep<F: Factor> {
    ghost use Rattle.books.specs.declared.cell.Cell.{Cell};

    // the condition of the cells of a book of so many blocks; by the rules a book names it, so it stands with the functions
    ghost sound: { ℕ → List (Cell F) → Type 0 };

    // how blank cells become those of a new book
    ghost opened: { ℕ → List (Cell F) → List (Cell F) → Type 0 };

    // what a query may alter of the cells
    ghost queried: { ℕ → List (Cell F) → List (Cell F) → Type 0 };

    /// Makes blank cells those of a new book.
    fn prepare(cells: &mut [Cell<F>], n: usize)
        requires square { Square n cells.old }
        requires blank { cells.old ≡ opened_cells F.Factor.ring.ops.zero n cells.old }
        ensures opens { opened n cells.old cells.new }
        ensures leaves { cells_meaning n cells.new ≡ no_lines n }
        ensures keeps { sound n cells.new }
        ensures same { drop (n * n) cells.new ≡ drop (n * n) cells.old };

    /// Adds a line that does not stand and closes no circle.
    fn enter(cells: &mut [Cell<F>], n: usize, a: usize, b: usize, factor: F)
        requires sound { sound n cells.old }
        requires upper { a < n }
        requires lower { b < n }
        requires vacant { (cells_meaning n cells.old).line a b ≡ None }
        requires apart { reaches (cells_meaning n cells.old) b a ≡ false }
        ensures leaves { cells_meaning n cells.new ≡ with_line (cells_meaning n cells.old) a b (Some factor) }
        ensures keeps { sound n cells.new }
        ensures same { drop (n * n) cells.new ≡ drop (n * n) cells.old };

    /// Removes a line that stands.
    fn strike(cells: &mut [Cell<F>], n: usize, a: usize, b: usize, factor: F)
        requires sound { sound n cells.old }
        requires upper { a < n }
        requires lower { b < n }
        requires stands { (cells_meaning n cells.old).line a b ≡ Some factor }
        ensures leaves { cells_meaning n cells.new ≡ with_line (cells_meaning n cells.old) a b None }
        ensures keeps { sound n cells.new }
        ensures same { drop (n * n) cells.new ≡ drop (n * n) cells.old };

    /// Whether `a` reaches `b`.
    fn reaches(cells: &[Cell<F>], n: usize, a: usize, b: usize) -> bool
        requires sound { sound n cells.now }
        requires upper { a < n }
        requires lower { b < n }
        ensures { result ≡ reaches (cells_meaning n cells.now) a b };

    /// How many lines end at `b` whose upper block `a` reaches, which says also whether a line is needed.
    fn support(cells: &[Cell<F>], n: usize, a: usize, b: usize) -> u16
        requires sound { sound n cells.now }
        requires upper { a < n }
        requires lower { b < n }
        ensures answers { result ≡ support (cells_meaning n cells.now) a b }
        ensures needs { stands (cells_meaning n cells.now) a b ≡ true → needed (cells_meaning n cells.now) a b ≡ (result == 1) };

    /// The total from `a` to `b`.
    fn total(cells: &mut [Cell<F>], n: usize, a: usize, b: usize) -> F
        requires sound { sound n cells.old }
        requires upper { a < n }
        requires lower { b < n }
        ensures answers { result ≡ total F.Factor.ring.ops (cells_meaning n cells.old) a b }
        ensures leaves { cells_meaning n cells.new ≡ cells_meaning n cells.old }
        ensures keeps { sound n cells.new }
        ensures same { queried n cells.old cells.new };

    // Laws: the lines of the cells close no circle,
    ghost acyclic: { (n : ℕ) (cells : List (Cell F)) → sound n cells → Circleless (cells_meaning n cells) };

    // and a query need not alter anything.
    ghost unaltered: { (n : ℕ) (cells : List (Cell F)) → queried n cells cells };
}
