// Factor kinds: rings whose elements have codes of a fixed width.
#![tactic(auto)]

pub mod depth;
pub mod factor;
pub mod fault;
#[cfg(test)]
mod tests;
pub mod whole;
