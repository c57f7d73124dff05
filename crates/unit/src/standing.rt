// How a unit stands.

/// Whether a unit has a key: none yet, one that is live and has had so many strikes, or none since it was locked.
#[derive(Clone, Copy, PartialEq, Eq, Debug)]
pub enum Standing {
    Unkeyed,
    Live { strikes: u32 },
    Locked,
}
