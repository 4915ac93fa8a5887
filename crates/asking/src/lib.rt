// What the programs that ask a book share: a book with its condition, pairs, and answers in print.
#![tactic(auto)]

pub mod answers;
pub mod pair;
pub mod sound;
