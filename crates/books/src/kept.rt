// The kept book: every answer stands in the cells, a change mends them, a query reads one.
ghost use Rattle.std.specs.Prelude.{◌≡◌, ◌*◌, ◌<◌, true, drop, refl, ◌==◌};
ghost use Rattle.books.specs.Graph.{Free, stands, reaches, support, needed, with_line};
ghost use Rattle.books.specs.Cells.{Square, Scratched, supports, cells_meaning};
ghost use Rattle.books.specs.Rows.{line_before, line_after};
ghost use Rattle.books.specs.Kept.{OnesUpto, KeptSound};

use crate::cell::Cell;
use crate::cell_book::CellBook;
use crate::rows::{Change, Entering, Striking, reaches_at, work_rows};
use crate::square::{noted, set_line, set_total, support_at};
use crate::upkeep::Upkeep;
use factors::factor::Factor;

/// The support number and the total of every pair are kept in its cell.
#[derive(Clone, Copy)]
pub struct Kept;

/// A book that keeps the line, the support number and the total of every pair in cells that the caller lends.
pub type KeptBook<'a, F> = CellBook<'a, F, Kept>;

/// Sets the total from each block to itself to one.
fn set_ones<F: Factor>(cells: &mut [Cell<F>], n: usize)
    requires { Square n cells.old }
    ensures totals { OnesUpto F.Factor.ring.ops n n cells.old cells.new }
    ensures scratched { Scratched n cells.old cells.new }
    ensures supports { supports cells.new ≡ supports cells.old }
{
    for i in 0..n {
        set_total(cells, n, i, i, F::one());
    }
}

/// Makes a change of the line `(a, b)`.
fn change_line<F: Factor, C: Change>(cells: &mut [Cell<F>], n: usize, a: usize, b: usize, factor: F)
    requires sound { KeptSound F.Factor.ring.ops n cells.old }
    requires upper { a < n }
    requires lower { b < n }
    requires line { (cells_meaning n cells.old).line a b ≡ line_before C.direction factor }
    requires free { Free (cells_meaning n cells.old) a b (line_after C.direction factor) }
    ensures leaves { cells_meaning n cells.new ≡ with_line (cells_meaning n cells.old) a b (line_after C.direction factor) }
    ensures keeps { KeptSound F.Factor.ring.ops n cells.new }
    ensures same { drop (n * n) cells.new ≡ drop (n * n) cells.old }
{
    set_line(cells, n, a, b, C::line(factor));
    work_rows::<F, C>(cells, n, a, b, factor);
}

/// The support number of `(a, b)`, which says also whether a line is needed.
fn support_of<F: Factor>(cells: &[Cell<F>], n: usize, a: usize, b: usize) -> u16
    requires sound { KeptSound F.Factor.ring.ops n cells.now }
    requires upper { a < n }
    requires lower { b < n }
    ensures answers { result ≡ support (cells_meaning n cells.now) a b }
    ensures needs { stands (cells_meaning n cells.now) a b ≡ true → needed (cells_meaning n cells.now) a b ≡ (result == 1) }
{
    support_at(cells, n, a, b)
}

/// Whether `a` reaches `b`.
fn reaches_of<F: Factor>(cells: &[Cell<F>], n: usize, a: usize, b: usize) -> bool
    requires sound { KeptSound F.Factor.ring.ops n cells.now }
    requires upper { a < n }
    requires lower { b < n }
    ensures { result ≡ reaches (cells_meaning n cells.now) a b }
{
    reaches_at(cells, n, a, b)
}

impl<F: Factor> Upkeep<F> for Kept {
    ghost sound = { KeptSound F.Factor.ring.ops };

    ghost opened = { λ n before after. OnesUpto F.Factor.ring.ops n n before after };

    ghost queried = { λ n before after. after ≡ before };

    ghost acyclic = { λ n cells sound. sound.circleless };

    ghost unaltered = { λ n cells. refl };

    #[tactic(auto, using(crate::proofs::KeptOpening::opened_kept_meaning, crate::proofs::KeptOpening::opened_kept))]
    fn prepare(cells: &mut [Cell<F>], n: usize) {
        set_ones(cells, n);
    }

    fn enter(cells: &mut [Cell<F>], n: usize, a: usize, b: usize, factor: F) {
        change_line::<F, Entering>(cells, n, a, b, factor);
    }

    fn strike(cells: &mut [Cell<F>], n: usize, a: usize, b: usize, factor: F) {
        change_line::<F, Striking>(cells, n, a, b, factor);
    }

    fn reaches(cells: &[Cell<F>], n: usize, a: usize, b: usize) -> bool {
        reaches_of(cells, n, a, b)
    }

    fn support(cells: &[Cell<F>], n: usize, a: usize, b: usize) -> u16 {
        support_of(cells, n, a, b)
    }

    #[tactic(auto, using(crate::proofs::KeptCells::kept_totalled))]
    fn total(cells: &mut [Cell<F>], n: usize, a: usize, b: usize) -> F {
        noted(cells, n, a, b)
    }
}
