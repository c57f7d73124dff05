// Images: a header and its records, packed in bits.
#![tactic(auto)]

mod bounds;
pub mod check;
pub mod header;
mod measure;
