// The schedules of ChiLow, which are made ahead of the data.
#![tactic(auto)]

pub mod key;
pub mod tweak;
