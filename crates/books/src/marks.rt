// Marks of blocks: a set of blocks on the stack.
ghost use Rattle.std.specs.Prelude.{◌≡◌, ℕ, ◌<◌, ◌≤◌, true, false, length, replicate, MatchOption, slice_index_or};

use crate::size::LARGEST_SIZE;

/// A mark for each block that a book can have.
pub(crate) type Marks = [bool; LARGEST_SIZE];

/// No block is marked.
pub(crate) fn no_marks() -> Marks
    ensures { result ≡ replicate 64 false }
{
    [false; LARGEST_SIZE]
}

/// The first marked block of the first `n`. That is the number of the book's blocks, and not the length of the list; were a shorter
/// slice handed over, each contract of the work set would cut it anew.
pub(crate) fn first_marked(marks: &[bool], n: usize) -> Option<usize>
    requires { n ≤ length marks.now }
    ensures { MatchOption result ((l : ℕ) → l < n → slice_index_or marks.now l false ≡ false) (λ l. (l < n) × (slice_index_or marks.now l false ≡ true)) }
{
    marks[..n].iter().position(|marked| *marked)
}
