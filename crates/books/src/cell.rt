// The cell of a pair of blocks.
ghost use Rattle.std.specs.Prelude.{◌≡◌};
ghost use Rattle.books.specs.Cells.{blank_cell, cell_line, with_cell_line};

use factors::factor::Factor;

/// What stands at a pair of blocks. The widest fields come first, which leaves the least padding.
// The rules give a cell these four fields: with an Option of a factor, one of whole factors would take 16 bytes in place of 12.
#[derive(Clone, Copy)]
pub struct Cell<F> {
    pub(crate) total: F,
    pub(crate) factor: F,
    pub(crate) support: u16,
    pub(crate) stands: bool,
}

impl<F: Factor> Cell<F> {
    /// The cell of a pair without a line.
    pub fn blank() -> Self
        ensures { result ≡ blank_cell F.Factor.ring.ops.zero }
    {
        Cell {
            total: F::zero(),
            factor: F::zero(),
            support: 0,
            stands: false,
        }
    }

    /// The factor of the line, if it stands.
    pub fn line(self) -> Option<F>
        ensures { result ≡ cell_line self }
    {
        self.stands.then_some(self.factor)
    }

    /// The same cell with another line, or with none.
    pub(crate) fn with_line(self, line: Option<F>) -> Self
        ensures { result ≡ with_cell_line F.Factor.ring.ops.zero self line }
    {
        Cell {
            factor: line.unwrap_or(F::zero()),
            stands: line.is_some(),
            ..self
        }
    }
}
