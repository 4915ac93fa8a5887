// Books of lines between blocks: what a book is, and its implementations over cells that the caller lends.
#![tactic(auto)]

pub mod book;
pub mod cell;
pub mod cell_book;
pub mod examples;
pub mod fault;
pub mod kept;
pub mod laws;
mod marks;
pub mod plain;
mod rows;
mod search;
pub mod size;
mod square;
#[cfg(test)]
mod tests;
mod upkeep;
mod walks;
