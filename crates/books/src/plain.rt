// The plain book: it keeps its lines and works every answer out from them.
ghost use Rattle.std.specs.Prelude.{◌≡◌, ◌*◌, ◌<◌, ◌≤◌, ◌&&◌, count_by, slice_index_or, true, false, length, drop, refl, Some, ◌==◌};
ghost use Rattle.std.specs.List.{range_with_len};
ghost use Rattle.books.specs.Graph.{Circleless, Free, stands, reaches, support, needed, with_line};
ghost use Rattle.books.specs.Cells.{Square, PlainSound, Scratched, cells_meaning};

use crate::cell::Cell;
use crate::cell_book::CellBook;
use crate::search::search;
use crate::square::{line_at, set_line};
use crate::upkeep::Upkeep;
use crate::walks::total_of;
use factors::factor::Factor;

/// Nothing is kept beside the lines: the support number and the total of a cell are working space.
#[derive(Clone, Copy)]
pub struct Plain;

/// A book that keeps its lines in cells that the caller lends, and nothing else that lasts.
pub type PlainBook<'a, F> = CellBook<'a, F, Plain>;

/// How many lines end at `b` whose upper block is marked.
fn count_marked<F: Factor>(cells: &[Cell<F>], n: usize, b: usize, marks: &[bool]) -> u16
    requires square { Square n cells.now }
    requires lower { b < n }
    requires room { n ≤ length marks.now }
    ensures { result ≡ count_by (λ l. stands (cells_meaning n cells.now) l b && slice_index_or marks.now l false) (range_with_len 0 n) }
{
    (0..n)
        .filter(|&l| line_at(cells, n, l, b).is_some() && marks[l])
        .count() as u16
}

/// How many lines end at `b` whose upper block `a` reaches.
#[tactic(auto, using(crate::proofs::Counts::count_range, crate::proofs::Supports::count_same, crate::proofs::Chains::needed_is_support_one), unfolding(crate::specs::Graph::support))]
fn count_support<F: Factor>(cells: &[Cell<F>], n: usize, a: usize, b: usize) -> u16
    requires square { Square n cells.now }
    requires circleless { Circleless (cells_meaning n cells.now) }
    requires upper { a < n }
    requires lower { b < n }
    ensures answers { result ≡ support (cells_meaning n cells.now) a b }
    ensures needs { stands (cells_meaning n cells.now) a b ≡ true → needed (cells_meaning n cells.now) a b ≡ (result == 1) }
{
    count_marked(cells, n, b, &search(cells, n, a))
}

/// Sets the line `(a, b)` anew, which must be free.
fn change_line<F: Factor>(cells: &mut [Cell<F>], n: usize, a: usize, b: usize, line: Option<F>)
    requires sound { PlainSound F.Factor.ring.ops.zero n cells.old }
    requires upper { a < n }
    requires lower { b < n }
    requires free { Free (cells_meaning n cells.old) a b line }
    ensures leaves { cells_meaning n cells.new ≡ with_line (cells_meaning n cells.old) a b line }
    ensures keeps { PlainSound F.Factor.ring.ops.zero n cells.new }
    ensures same { drop (n * n) cells.new ≡ drop (n * n) cells.old }
{
    set_line(cells, n, a, b, line);
}

impl<F: Factor> Upkeep<F> for Plain {
    ghost sound = { PlainSound F.Factor.ring.ops.zero };

    ghost opened = { λ n before after. after ≡ before };

    ghost queried = { λ n before after. Scratched n before after };

    ghost acyclic = { λ n cells sound. sound.circleless };

    ghost unaltered = { λ n cells. record { same_lines = refl; same_factors = refl; beyond = refl } };

    #[tactic(auto, using(crate::proofs::Openings::blank_meaning, crate::proofs::Openings::blank_sound))]
    fn prepare(cells: &mut [Cell<F>], n: usize) {}

    fn enter(cells: &mut [Cell<F>], n: usize, a: usize, b: usize, factor: F) {
        change_line(cells, n, a, b, Some(factor));
    }

    fn strike(cells: &mut [Cell<F>], n: usize, a: usize, b: usize, factor: F) {
        change_line(cells, n, a, b, None);
    }

    fn reaches(cells: &[Cell<F>], n: usize, a: usize, b: usize) -> bool {
        search(cells, n, a)[b]
    }

    fn support(cells: &[Cell<F>], n: usize, a: usize, b: usize) -> u16 {
        count_support(cells, n, a, b)
    }

    fn total(cells: &mut [Cell<F>], n: usize, a: usize, b: usize) -> F {
        total_of(cells, n, a, b)
    }
}
