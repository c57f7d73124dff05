// ChiChi, the nonlinear layer of ChiLow, and its inverse, over the width of the state.
#![tactic(auto)]

pub mod nonlinear;
pub mod width;
