// How the slots of two memories are arranged as those of one.
ghost use Rattle.std.specs.Prelude.{◌≡◌, ℕ, List};
ghost use Rattle.parts.specs.declared.place.Place.{Place};
ghost use Rattle.parts.specs.Laws.{Arranges};

use crate::place::Place;

/// An arrangement of the slots of two memories.
pub trait Arrangement {
    /// The slots of both, from those of each.
    ghost held: { List ℕ → List ℕ → List ℕ };

    /// How many these are, of so many and so many.
    ghost slots: { ℕ → ℕ → ℕ };

    /// How many of these are the first memory's.
    ghost used_first: { ℕ → ℕ → ℕ };

    /// And how many the second's.
    ghost used_second: { ℕ → ℕ → ℕ };

    /// Where a slot lies if the first memory has so many.
    ghost place: { ℕ → ℕ → Place };

    /// How many slots two memories have as one.
    fn slots(first: u32, second: u32) -> u32
        ensures { result ≡ slots first second };

    /// Where a slot lies if the first memory has so many.
    fn place(first: u32, slot: u32) -> Place
        ensures { result ≡ place first slot };

    /// Each slot is the number at its place, no two have one place, and there are as many as said, up to the most.
    ghost arranges: { Arranges held slots used_first used_second place };
}
