// Two memories as one, in an arrangement of their slots.
ghost use Rattle.std.specs.Prelude.{◌≡◌};
ghost use Rattle.parts.specs.Arranged.{arranged_rest};
ghost use Rattle.parts.specs.Sounds.{arranged-sound};

use crate::arrangement::Arrangement;
use crate::place::{read_at, write_at};
use memory::Memory;
use memory::bounds::{check_slot, check_write};
use refusal::Refusal;
use std::marker::PhantomData;

/// Two memories, their slots arranged as those of one.
#[derive(Drop)]
pub struct Arranged<A, F, S> {
    first: F,
    second: S,
    arrangement: PhantomData<A>,
}

impl<A: Arrangement, F: Memory, S: Memory> Memory for Arranged<A, F, S> {
    ghost held = { λ m. A.held (F.held m.first) (S.held m.second) };

    ghost rest = { λ m. arranged_rest A.Arrangement (F.held m.first) (S.held m.second) (F.rest m.first) (S.rest m.second) };

    ghost sound = { λ m. arranged-sound A.arranges (F.held m.first) (S.held m.second) (F.sound m.first) (S.sound m.second) };

    fn slots(&self) -> u32 {
        A::slots(self.first.slots(), self.second.slots())
    }

    fn read(&self, slot: u32) -> Result<u64, Refusal> {
        check_slot(self.slots(), slot)?;
        let place = A::place(self.first.slots(), slot);
        read_at(&self.first, &self.second, place)
    }

    fn write(&mut self, slot: u32, number: u64) -> Result<(), Refusal> {
        check_write(self.slots(), slot, number)?;
        let place = A::place(self.first.slots(), slot);
        write_at(&mut self.first, &mut self.second, place, number);
        Ok(())
    }
}

impl<A, F, S> Arranged<A, F, S> {
    /// Makes one memory of two.
    pub fn new(first: F, second: S) -> Arranged<A, F, S>
        ensures first { result.first ≡ first }
        ensures second { result.second ≡ second }
    {
        Arranged {
            first,
            second,
            arrangement: PhantomData,
        }
    }

    /// Hands the two memories back.
    pub fn into_parts(self) -> (F, S)
        ensures first { result.0 ≡ self.first }
        ensures second { result.1 ≡ self.second }
    {
        let Arranged {
            first,
            second,
            arrangement: _,
        } = self;
        (first, second)
    }
}
