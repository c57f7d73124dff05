// Two memories as one: one after the other, or in turn.
#![tactic(auto)]

pub mod arranged;
pub mod arrangement;
pub mod interleaved;
pub mod joined;
pub mod place;
