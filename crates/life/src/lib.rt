// What a unit can be asked and what it answers; in specs/, what a unit is, the history of its calls, and the law of its life.
#![tactic(auto)]

use refusal::Refusal;

pub mod make;
pub mod sealed;

/// Whether a unit has a key: none yet, one that is live, or none since it was locked.
#[derive(Clone, Copy, PartialEq, Eq, Debug)]
pub enum Condition {
    Unkeyed,
    Live,
    Locked,
}

/// What a unit can be asked, and what a stranger can do to its memory.
#[derive(Clone, Copy)]
pub enum Call<'a> {
    /// Load a key.
    Load { key: u128 },
    /// Install an image.
    Install { image: &'a [u8] },
    /// Fetch the instruction of a byte address.
    Fetch { address: u32 },
    /// Put a number into a slot of the memory, past the unit.
    Overwrite { slot: u32, number: u64 },
}

// Stays: no Result, since a call that has nothing to tell is answered plainer by `Done` than by `Ok(None)`.
/// What a unit answers.
#[derive(Clone, Copy, PartialEq, Eq, Debug)]
pub enum Answer {
    Done,
    Instruction(u32),
    Refused(Refusal),
}

/// What a unit tells of itself: the slots of its memory, the records installed, the strikes before the lock (none without
/// a live key), and the version in force.
#[derive(Clone, Copy, PartialEq, Eq, Debug)]
pub struct Status {
    pub slots: u32,
    pub installed: u32,
    pub strikes_left: u32,
    pub in_force: Option<u32>,
}
