// The data paths of ChiLow: decryption and encryption of a block by schedules.
#![tactic(auto)]

pub mod data;
pub mod decrypt;
pub mod encrypt;
pub mod path;
pub mod schedules;
