// The rows of a kept book: how a change of one line is worked into each row that reaches it.
//
// Loops run over the numbers of blocks: each names a column, or a row, in more than one place of the square.
ghost use Rattle.std.specs.Prelude.{◌≡◌, ℕ, ◌+◌, ◌*◌, ◌<◌, ◌≤◌, true, false, length, if◌then◌else◌, ◌≢◌, slice_set};
ghost use Rattle.books.specs.Graph.{stands};
ghost use Rattle.books.specs.Cells.{Square, Scratched, noted_support, cells_meaning, with_support, with_total};
ghost use Rattle.books.specs.Walks.{noted_total};
ghost use Rattle.books.specs.Rows.Direction.{down, up};
ghost use Rattle.books.specs.Rows.{Direction, line_before, line_after, line_added, Steppable, stepped, turned, support_row, reached, Settled, SteppedBy, Turnable, Resupported, Retotalled, with_chains, Added, Supported, Totalled, Working};

use crate::cell::Cell;
use crate::marks::{first_marked, no_marks};
use crate::square::{line_at, noted, set_support, set_total, support_at};
use factors::factor::Factor;

/// One of the two changes of a line, as it is worked into the rows of a kept book.
pub(crate) trait Change {
    // a strike lowers support numbers, an entry raises them
    ghost direction: { Direction };

    /// What stands at the pair of the line afterwards.
    fn line<F: Factor>(factor: F) -> Option<F>
        ensures { result ≡ line_after direction factor };

    /// The factor with which the chains over the line are added to totals.
    fn added<F: Factor>(factor: F) -> F
        ensures { result ≡ line_added F.Factor.ring direction factor };

    /// The support number, one line less or more.
    fn step(support: u16) -> u16
        requires { Steppable direction support }
        ensures { result ≡ stepped direction support };

    /// Whether that step loses or gains the block.
    fn turns(support: u16) -> bool
        ensures { result ≡ turned direction support };
}

/// The line stands no more.
pub(crate) struct Striking;

impl Change for Striking {
    ghost direction = { down };

    fn line<F: Factor>(factor: F) -> Option<F> {
        None
    }

    fn added<F: Factor>(factor: F) -> F {
        factor.opposite()
    }

    fn step(support: u16) -> u16 {
        support - 1
    }

    fn turns(support: u16) -> bool {
        support == 1
    }
}

/// The line stands from now on.
pub(crate) struct Entering;

impl Change for Entering {
    ghost direction = { up };

    fn line<F: Factor>(factor: F) -> Option<F> {
        Some(factor)
    }

    fn added<F: Factor>(factor: F) -> F {
        factor
    }

    fn step(support: u16) -> u16 {
        support + 1
    }

    fn turns(support: u16) -> bool {
        support == 0
    }
}

/// Whether `a` reaches `b`, by the support number of the pair.
pub(crate) fn reaches_at<F: Factor>(cells: &[Cell<F>], n: usize, a: usize, b: usize) -> bool
    requires square { Square n cells.now }
    requires upper { a < n }
    requires lower { b < n }
    ensures { result ≡ reached a (support_row n cells.now a) b }
{
    a == b || support_at(cells, n, a, b) > 0
}

/// Adds the chains that go on from `b` to the total of `(i, j)`; `ahead` stands for what comes before `b`.
fn add_chain<F: Factor>(cells: &mut [Cell<F>], n: usize, i: usize, b: usize, j: usize, ahead: F)
    requires square { Square n cells.old }
    requires row { i < n }
    requires lower { b < n }
    requires column { j < n }
    ensures adds { reached b (support_row n cells.old b) j ≡ true → cells.new ≡ with_total F.Factor.ring.ops.zero cells.old (i * n + j) (with_chains F.Factor.ring.ops n cells.old i b ahead j) }
    ensures leaves { reached b (support_row n cells.old b) j ≡ false → cells.new ≡ cells.old }
{
    if reaches_at(cells, n, b, j) {
        let total = noted(cells, n, i, j).add(ahead.multiply(noted(cells, n, b, j)));
        set_total(cells, n, i, j, total);
    }
}

/// Adds the chains over a line `(a, b)` with this factor to the totals of row `i`.
fn add_chains<F: Factor>(cells: &mut [Cell<F>], n: usize, i: usize, a: usize, b: usize, factor: F)
    requires square { Square n cells.old }
    requires row { i < n }
    requires upper { a < n }
    requires lower { b < n }
    requires apart { i ≢ b }
    ensures adds { Added F.Factor.ring.ops n i b (F.Factor.ring.ops.mul (noted_total F.Factor.ring.ops n cells.old i a) factor) n cells.old cells.new }
    ensures rest { Retotalled F.Factor.ring.ops n i cells.old cells.new }
{
    let ahead = noted(cells, n, i, a).multiply(factor);
    for j in 0..n {
        add_chain(cells, n, i, b, j, ahead);
    }
}

/// Steps the support number of `(i, j)`, and marks `j` if that loses or gains it.
fn step_support<F: Factor, C: Change>(
    cells: &mut [Cell<F>],
    n: usize,
    i: usize,
    j: usize,
    marks: &mut [bool],
)
    requires square { Square n cells.old }
    requires row { i < n }
    requires column { j < n }
    requires room { n ≤ length marks.old }
    requires steppable { Steppable C.direction (noted_support n cells.old i j) }
    ensures steps { cells.new ≡ with_support F.Factor.ring.ops.zero cells.old (i * n + j) (stepped C.direction (noted_support n cells.old i j)) }
    ensures turns { marks.new ≡ (if turned C.direction (noted_support n cells.old i j) then slice_set marks.old j true else marks.old) }
{
    let support = support_at(cells, n, i, j);
    set_support(cells, n, i, j, C::step(support));
    if C::turns(support) {
        marks[j] = true;
    }
}

/// Takes the lines from `l` out of the support numbers of row `i`, or into them.
fn turn_block<F: Factor, C: Change>(
    cells: &mut [Cell<F>],
    n: usize,
    i: usize,
    l: usize,
    marks: &mut [bool],
)
    requires square { Square n cells.old }
    requires row { i < n }
    requires block { l < n }
    requires room { n ≤ length marks.old }
    requires steppable { (j : ℕ) → j < n → stands (cells_meaning n cells.old) l j ≡ true → Steppable C.direction (noted_support n cells.old i j) }
    ensures steps { SteppedBy C.direction n i (stands (cells_meaning n cells.old) l) cells.old cells.new marks.old marks.new }
    ensures rest { Resupported n i cells.old cells.new }
{
    for j in 0..n {
        if line_at(cells, n, l, j).is_some() {
            step_support::<F, C>(cells, n, i, j, marks);
        }
    }
}

/// Takes a changed line to `b` out of the support numbers of row `i`, or into them, and with it the lines from every block that is
/// lost or gained.
fn turn_row<F: Factor, C: Change>(cells: &mut [Cell<F>], n: usize, i: usize, b: usize)
    requires square { Square n cells.old }
    requires row { i < n }
    requires lower { b < n }
    requires starts { Turnable C.direction n i b cells.old }
    ensures settles { Settled (cells_meaning n cells.old) i (support_row n cells.new i) }
    ensures rest { Resupported n i cells.old cells.new }
{
    let mut marks = no_marks();
    step_support::<F, C>(cells, n, i, b, &mut marks);
    while let Some(l) = first_marked(&marks, n) {
        marks[l] = false;
        turn_block::<F, C>(cells, n, i, l, &mut marks);
    }
}

/// Works a change of the line `(a, b)` with this factor into row `i`, if the row reaches it.
fn work_row<F: Factor, C: Change>(
    cells: &mut [Cell<F>],
    n: usize,
    i: usize,
    a: usize,
    b: usize,
    factor: F,
)
    requires working { Working F.Factor.ring.ops n a b (line_before C.direction factor) (line_after C.direction factor) i cells.old }
    requires row { i < n }
    ensures works { Working F.Factor.ring.ops n a b (line_before C.direction factor) (line_after C.direction factor) (i + 1) cells.new }
    ensures supported { Supported n (i + 1) cells.new }
    ensures totalled { Totalled F.Factor.ring.ops n (i + 1) cells.new }
    ensures scratched { Scratched n cells.old cells.new }
{
    if reaches_at(cells, n, i, a) {
        add_chains(cells, n, i, a, b, C::added(factor));
        turn_row::<F, C>(cells, n, i, b);
    }
}

/// Works a change of the line `(a, b)` into every row.
pub(crate) fn work_rows<F: Factor, C: Change>(
    cells: &mut [Cell<F>],
    n: usize,
    a: usize,
    b: usize,
    factor: F,
)
    requires { Working F.Factor.ring.ops n a b (line_before C.direction factor) (line_after C.direction factor) 0 cells.old }
    ensures supported { Supported n n cells.new }
    ensures totalled { Totalled F.Factor.ring.ops n n cells.new }
    ensures scratched { Scratched n cells.old cells.new }
{
    for i in 0..n {
        work_row::<F, C>(cells, n, i, a, b, factor);
    }
}
