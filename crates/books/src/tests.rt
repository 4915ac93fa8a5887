// Sizes and the worked examples, run on a plain and on a kept book.
use crate::book::Book;
use crate::cell::Cell;
use crate::cell_book::CellBook;
use crate::fault::{BookFault, SizeFault};
use crate::kept::Kept;
use crate::plain::Plain;
use crate::size::check_size;
use crate::upkeep::Upkeep;
use factors::depth::Depth;
use factors::whole::Whole;
use std::test::Fail;

#[test]
fn sizes_and_cells_have_their_limits(rt: HostRuntime) {
    assert_eq!(rt; check_size(64, 4096), Ok(()));
    assert_eq!(rt; check_size(64, 4095), Err(SizeFault::TooFewCells));
    assert_eq!(rt; check_size(65, 4225), Err(SizeFault::SizeOutOfRange));
    assert_eq!(rt; check_size(0, 4096), Err(SizeFault::SizeOutOfRange));
    assert_eq!(rt; SizeFault::SizeOutOfRange.number(), 16);
    assert_eq!(rt; SizeFault::TooFewCells.number(), 17);
}

/// What a book answers about three lines.
#[derive(Clone, Copy, PartialEq, Debug)]
struct ThreeLines {
    total: Result<Whole, BookFault>,
    support: Result<u16, BookFault>,
    need: Result<bool, BookFault>,
    line_back: Result<(), BookFault>,
    total_after_strike: Result<Whole, BookFault>,
    need_after_strike: Result<bool, BookFault>,
    reach_after_strike: Result<bool, BookFault>,
}

fn three_lines<U: Upkeep<Whole>>() -> Result<ThreeLines, BookFault> {
    let mut cells: [Cell<Whole>; 16] = [Cell::blank(); 16];
    let mut book = CellBook::<Whole, U>::open(&mut cells, 4);
    book.enter(0, 1, Whole::new(2))?;
    book.enter(1, 2, Whole::new(3))?;
    book.enter(0, 2, Whole::new(5))?;
    let total = book.total(0, 2);
    let support = book.support(0, 2);
    let need = book.need(0, 2);
    let line_back = book.enter(2, 0, Whole::new(1));
    book.strike(1, 2)?;
    Ok(ThreeLines {
        total,
        support,
        need,
        line_back,
        total_after_strike: book.total(0, 2),
        need_after_strike: book.need(0, 2),
        reach_after_strike: book.reach(1, 2),
    })
}

fn three_lines_worked_out() -> ThreeLines {
    ThreeLines {
        total: Ok(Whole::new(11)),
        support: Ok(2),
        need: Ok(false),
        line_back: Err(BookFault::Circle),
        total_after_strike: Ok(Whole::new(5)),
        need_after_strike: Ok(true),
        reach_after_strike: Ok(false),
    }
}

#[test]
fn three_lines_are_asked_about_before_and_after_a_strike(rt: HostRuntime) -> Result<(), Fail> {
    assert_eq!(rt; three_lines::<Plain>()?, three_lines_worked_out());
    Ok(())
}

#[test]
fn a_kept_book_answers_before_and_after_a_strike(rt: HostRuntime) -> Result<(), Fail> {
    assert_eq!(rt; three_lines::<Kept>()?, three_lines_worked_out());
    Ok(())
}

/// How a book of one line answers calls that it refuses, and the factor of the line then.
#[derive(Clone, Copy, PartialEq, Debug)]
struct Refusals {
    line_of_no_block: Result<(), BookFault>,
    line_to_itself: Result<(), BookFault>,
    line_again: Result<(), BookFault>,
    strike_of_no_line: Result<(), BookFault>,
    need_of_no_line: Result<bool, BookFault>,
    factor: Result<Whole, BookFault>,
}

fn refused_calls<U: Upkeep<Whole>>() -> Result<Refusals, BookFault> {
    let mut cells: [Cell<Whole>; 16] = [Cell::blank(); 16];
    let mut book = CellBook::<Whole, U>::open(&mut cells, 4);
    book.enter(0, 1, Whole::new(2))?;
    Ok(Refusals {
        line_of_no_block: book.enter(4, 4, Whole::new(1)),
        line_to_itself: book.enter(2, 2, Whole::new(1)),
        line_again: book.enter(0, 1, Whole::new(7)),
        strike_of_no_line: book.strike(1, 0),
        need_of_no_line: book.need(0, 2),
        factor: book.factor(0, 1),
    })
}

fn refused_calls_worked_out() -> Refusals {
    Refusals {
        line_of_no_block: Err(BookFault::NoBlock),
        line_to_itself: Err(BookFault::SameBlock),
        line_again: Err(BookFault::LineStands),
        strike_of_no_line: Err(BookFault::NoLine),
        need_of_no_line: Err(BookFault::NoLine),
        factor: Ok(Whole::new(2)),
    }
}

#[test]
fn refusals_come_in_their_order(rt: HostRuntime) -> Result<(), Fail> {
    assert_eq!(rt; refused_calls::<Plain>()?, refused_calls_worked_out());
    Ok(())
}

#[test]
fn a_kept_book_refuses_in_order(rt: HostRuntime) -> Result<(), Fail> {
    assert_eq!(rt; refused_calls::<Kept>()?, refused_calls_worked_out());
    Ok(())
}

/// The total over a chain of two lines and one beside it, each with a depth at the second place.
fn depths_along_chains<U: Upkeep<Depth>>() -> Result<Depth, BookFault> {
    let step = Depth::new(0, 1, 0, 0);
    let mut cells: [Cell<Depth>; 16] = [Cell::blank(); 16];
    let mut book = CellBook::<Depth, U>::open(&mut cells, 4);
    book.enter(0, 1, step)?;
    book.enter(1, 2, step)?;
    book.enter(0, 2, step)?;
    book.total(0, 2)
}

#[test]
fn depths_are_multiplied_along_chains(rt: HostRuntime) {
    assert_eq!(rt; depths_along_chains::<Plain>(), Ok(Depth::new(0, 1, 1, 0)));
}

#[test]
fn a_kept_book_multiplies_depths_along_chains(rt: HostRuntime) {
    assert_eq!(rt; depths_along_chains::<Kept>(), Ok(Depth::new(0, 1, 1, 0)));
}

/// The size of a book over too few cells, and whether its block 0 reaches itself.
fn not_opened<U: Upkeep<Whole>>() -> (usize, Result<bool, BookFault>) {
    let mut cells: [Cell<Whole>; 3] = [Cell::blank(); 3];
    let mut book = CellBook::<Whole, U>::open(&mut cells, 2);
    (book.size(), book.reach(0, 0))
}

#[test]
fn a_book_that_is_not_opened_has_no_blocks(rt: HostRuntime) {
    assert_eq!(rt; not_opened::<Plain>(), (0, Err(BookFault::NoBlock)));
}

#[test]
fn a_kept_book_that_is_not_opened_has_no_blocks(rt: HostRuntime) {
    assert_eq!(rt; not_opened::<Kept>(), (0, Err(BookFault::NoBlock)));
}
