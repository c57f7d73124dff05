// Outside memories over lent chips: one chip of bytes, or a pair of chips of words.
#![tactic(auto)]

pub mod packed;
pub mod paired;
