// The search for the blocks that a block reaches.
ghost use Rattle.std.specs.Prelude.{◌≡◌, ℕ, ◌<◌, ◌≤◌, true, false, ◌||◌, length, MatchOption, slice_index_or};
ghost use Rattle.books.specs.Graph.{Circleless, stands, reaches};
ghost use Rattle.books.specs.Cells.{Square, cells_meaning};

use crate::cell::Cell;
use crate::marks::{Marks, no_marks};
use crate::square::line_at;
use factors::factor::Factor;

/// A block that is seen and not yet visited; `n` goes beside the marks as where the first marked block is looked for.
fn next_block(seen: &[bool], visited: &[bool], n: usize) -> Option<usize>
    requires seen { n ≤ length seen.now }
    requires visited { n ≤ length visited.now }
    ensures { MatchOption result ((l : ℕ) → l < n → slice_index_or seen.now l false ≡ true → slice_index_or visited.now l false ≡ true) (λ l. (l < n) × (slice_index_or seen.now l false ≡ true) × (slice_index_or visited.now l false ≡ false)) }
{
    // over the numbers: a chain over both lists costs more for each of them
    (0..n).find(|&l| seen[l] && !visited[l])
}

/// Marks each block to which a line leads from `l` as seen.
fn mark_lower<F: Factor>(cells: &[Cell<F>], n: usize, l: usize, seen: &mut [bool])
    requires square { Square n cells.now }
    requires block { l < n }
    requires room { n ≤ length seen.old }
    ensures { (j : ℕ) → j < n → slice_index_or seen.new j false ≡ (slice_index_or seen.old j false || stands (cells_meaning n cells.now) l j) }
{
    for j in 0..n {
        if line_at(cells, n, l, j).is_some() {
            seen[j] = true;
        }
    }
}

/// The blocks that `a` reaches; each is visited once.
pub(crate) fn search<F: Factor>(cells: &[Cell<F>], n: usize, a: usize) -> Marks
    requires square { Square n cells.now }
    requires circleless { Circleless (cells_meaning n cells.now) }
    requires block { a < n }
    ensures { (j : ℕ) → j < n → slice_index_or result j false ≡ reaches (cells_meaning n cells.now) a j }
{
    // two lists, and not one of three states: what is answered is the one that says what is seen
    let mut seen = no_marks();
    let mut visited = no_marks();
    seen[a] = true;
    while let Some(l) = next_block(&seen, &visited, n) {
        visited[l] = true;
        mark_lower(cells, n, l, &mut seen);
    }
    seen
}
