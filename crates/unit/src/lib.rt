// The unit: it holds a cipher and a memory of any kind, takes keys and images, and fetches instructions.
#![tactic(auto)]

pub mod calls;
mod checks;
mod decide;
mod program;
pub mod run;
mod slots;
mod standing;
pub mod unit;
pub mod unit_core;
