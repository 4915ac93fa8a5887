// A book over cells that the caller lends: which calls are refused, and what each does.
ghost use Rattle.std.specs.Prelude.{◌≡◌, ◌*◌, length, drop};
ghost use Rattle.books.specs.Graph.{no_lines};
ghost use Rattle.books.specs.Calls.{opened_size};
ghost use Rattle.books.specs.Cells.{Square, opened_cells};

use crate::book::Book;
use crate::cell::Cell;
use crate::fault::BookFault;
use crate::square::{blank_cells, check_pair, check_vacant, openable_size, standing_line};
use crate::upkeep::Upkeep;
use factors::factor::Factor;
use std::marker::PhantomData;

/// A book that keeps its lines in cells that the caller lends; `U` says what else the cells hold.
#[derive(Drop)]
pub struct CellBook<'a, F, U> {
    cells: &'a mut [Cell<F>],
    size: usize,
    upkeep: PhantomData<U>,
    // at most 64 blocks, and a cell for each pair of them
    ghost square: { Square size cells.now },
}

impl<'a, F: Factor, U: Upkeep<F>> CellBook<'a, F, U> {
    ghost use Rattle.books.specs.Books.{held, book_meaning};

    /// A book of `size` blocks without lines, or of size 0 where `check_size` refuses.
    pub fn open(cells: &'a mut [Cell<F>], size: usize) -> Self
        ensures sized { result.size ≡ opened_size size (length cells.old) }
        ensures opens { U.opened result.size (opened_cells F.Factor.ring.ops.zero result.size cells.old) (held result) }
        ensures leaves { book_meaning result ≡ no_lines result.size }
        ensures keeps { U.sound result.size (held result) }
        ensures same { drop (result.size * result.size) (held result) ≡ drop (result.size * result.size) cells.old }
    {
        let opened = openable_size(size, cells.len());
        blank_cells(cells, opened * opened);
        U::prepare(cells, opened);
        CellBook {
            cells,
            size: opened,
            upkeep: PhantomData,
        }
    }
}

impl<F: Factor, U: Upkeep<F>> Book for CellBook<'_, F, U> {
    ghost use Rattle.books.specs.Books.{held, book_meaning, book_alters, book_lawful};

    type Kind = F;

    ghost meaning = { book_meaning };

    ghost sound = { λ s. U.sound s.size (held s) };

    ghost alters = { book_alters U.queried };

    ghost lawful = { λ s sound. book_lawful s (U.acyclic s.size (held s) sound) };

    fn size(&mut self) -> usize {
        self.size
    }

    fn enter(&mut self, a: usize, b: usize, factor: F) -> Result<(), BookFault> {
        let n = self.size;
        let cells = &mut *self.cells;
        check_vacant(cells, n, a, b)?;
        if U::reaches(cells, n, b, a) {
            return Err(BookFault::Circle);
        }
        U::enter(cells, n, a, b, factor);
        Ok(())
    }

    fn strike(&mut self, a: usize, b: usize) -> Result<(), BookFault> {
        let n = self.size;
        let cells = &mut *self.cells;
        let factor = standing_line(cells, n, a, b)?;
        U::strike(cells, n, a, b, factor);
        Ok(())
    }

    fn factor(&mut self, a: usize, b: usize) -> Result<F, BookFault> {
        let n = self.size;
        let cells = &mut *self.cells;
        standing_line(cells, n, a, b)
    }

    fn reach(&mut self, a: usize, b: usize) -> Result<bool, BookFault> {
        let n = self.size;
        let cells = &mut *self.cells;
        check_pair(n, a, b)?;
        Ok(U::reaches(cells, n, a, b))
    }

    fn support(&mut self, a: usize, b: usize) -> Result<u16, BookFault> {
        let n = self.size;
        let cells = &mut *self.cells;
        check_pair(n, a, b)?;
        Ok(U::support(cells, n, a, b))
    }

    fn need(&mut self, a: usize, b: usize) -> Result<bool, BookFault> {
        let n = self.size;
        let cells = &mut *self.cells;
        standing_line(cells, n, a, b)?;
        Ok(U::support(cells, n, a, b) == 1)
    }

    fn total(&mut self, a: usize, b: usize) -> Result<F, BookFault> {
        let n = self.size;
        let cells = &mut *self.cells;
        check_pair(n, a, b)?;
        Ok(U::total(cells, n, a, b))
    }
}
