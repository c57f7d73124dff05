// Pages: clear instructions of an image in lent words, which are zero when the page is given up.
#![tactic(auto)]

pub mod check;
mod fill;
pub mod page;
pub mod search;
