// Memories in use: what a caller's chips hold afterwards, by contract, and tests of every kind.
#![tactic(auto)]

pub mod lent;
#[cfg(test)]
mod tests;
