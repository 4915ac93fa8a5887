// The total of a pair, worked out from the lines: the sums over all chains of no line, of one line, of two, and so on.
ghost use Rattle.std.specs.Prelude.{◌≡◌, ◌+◌, ◌*◌, ◌<◌};
ghost use Rattle.std.specs.List.{fold, range_with_len};
ghost use Rattle.books.specs.Graph.{walks, total};
ghost use Rattle.books.specs.Cells.{Square, Scratched, cells_meaning};
ghost use Rattle.books.specs.Walks.{Filled, noted_total, row_sum};

use crate::cell::Cell;
use crate::square::{line_at, noted, set_total};
use factors::factor::Factor;

/// The sum over the lines from `a` of the factor times what row `k` notes for the lower block.
#[tactic(auto, using(crate::proofs::Fillings::sum_more))]
fn sum_along<F: Factor>(cells: &[Cell<F>], n: usize, k: usize, a: usize) -> F
    requires square { Square n cells.now }
    requires row { k < n }
    requires block { a < n }
    ensures { result ≡ row_sum F.Factor.ring.ops n cells.now k a n }
{
    // a `for`: in a chain the closure that multiplies stands in another one, and what `noted` asks is not shown there
    let mut sum = F::zero();
    for c in 0..n {
        if let Some(factor) = line_at(cells, n, a, c) {
            sum = sum.add(factor.multiply(noted(cells, n, k, c)));
        }
    }
    sum
}

/// The sum over all chains of `k` lines from `a` to `b`, where the rows before row `k` hold those of fewer lines.
#[tactic(auto, using(crate::proofs::Fillings::filled_walks, crate::proofs::Fillings::walks_none))]
fn walks_of<F: Factor>(cells: &[Cell<F>], n: usize, k: usize, a: usize, b: usize) -> F
    requires square { Square n cells.now }
    requires row { k < n }
    requires block { a < n }
    requires filled { Filled F.Factor.ring.ops (cells_meaning n cells.now) b (k * n) cells.now }
    ensures { result ≡ walks F.Factor.ring.ops (cells_meaning n cells.now) k a b }
{
    if k > 0 {
        sum_along(cells, n, k - 1, a)
    } else if a == b {
        F::one()
    } else {
        F::zero()
    }
}

/// Fills row `k` of the working space with the sums over the chains of `k` lines that end at `b`.
fn fill_row<F: Factor>(cells: &mut [Cell<F>], n: usize, k: usize, b: usize)
    requires square { Square n cells.old }
    requires row { k < n }
    requires filled { Filled F.Factor.ring.ops (cells_meaning n cells.old) b (k * n) cells.old }
    ensures scratched { Scratched n cells.old cells.new }
    ensures filled { Filled F.Factor.ring.ops (cells_meaning n cells.old) b (k * n + n) cells.new }
{
    for a in 0..n {
        let walks = walks_of(cells, n, k, a, b);
        set_total(cells, n, k, a, walks);
    }
}

/// Fills every row of the working space.
fn fill_rows<F: Factor>(cells: &mut [Cell<F>], n: usize, b: usize)
    requires square { Square n cells.old }
    ensures scratched { Scratched n cells.old cells.new }
    ensures filled { Filled F.Factor.ring.ops (cells_meaning n cells.old) b (n * n) cells.new }
{
    for k in 0..n {
        fill_row(cells, n, k, b);
    }
}

/// What every row notes for `a`, added up.
fn sum_rows<F: Factor>(cells: &[Cell<F>], n: usize, a: usize) -> F
    requires square { Square n cells.now }
    requires block { a < n }
    ensures { result ≡ fold (λ sum k. F.Factor.ring.ops.add sum (noted_total F.Factor.ring.ops n cells.now k a)) F.Factor.ring.ops.zero (range_with_len 0 n) }
{
    (0..n).fold(F::zero(), |sum, k| sum.add(noted(cells, n, k, a)))
}

/// The total from `a` to `b`. The totals of the cells are working space.
pub(crate) fn total_of<F: Factor>(cells: &mut [Cell<F>], n: usize, a: usize, b: usize) -> F
    requires square { Square n cells.old }
    requires block { a < n }
    ensures answers { result ≡ total F.Factor.ring.ops (cells_meaning n cells.old) a b }
    ensures scratched { Scratched n cells.old cells.new }
{
    fill_rows(cells, n, b);
    sum_rows(cells, n, a)
}
