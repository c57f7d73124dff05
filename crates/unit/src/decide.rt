// What a unit does, by one match on its standing and the call.
ghost use Rattle.std.specs.Prelude.{◌≡◌};
ghost use Rattle.refusal.specs.Table.{note_of};
ghost use Rattle.life.specs.declared.Answer.TheVariants.{Refused};
ghost use Rattle.life.specs.declared.Call.TheVariants.{Install, Fetch, Overwrite};
ghost use Rattle.life.specs.declared.Condition.TheVariants.{Live};
ghost use Rattle.life.specs.Deeds.{refused_with};
ghost use Rattle.life.specs.State.{after};
ghost use Rattle.unit.specs.Standing.{condition_of};
ghost use Rattle.unit.specs.View.{state_of, Keeps, Does};

use crate::program::is_rejection;
use crate::slots::write_records;
use crate::standing::Standing;
use crate::unit::Unit;
use cipher::WordCipher;
use life::{Answer, Call};
use memory::Memory;
use refusal::Refusal;

impl<C: WordCipher, M: Memory> Unit<C, M> {
    // Performs a call of any kind.
    pub(crate) fn decide(&mut self, call: Call<'_>) -> Answer
        ensures { Does C.WordCipher M.Memory self.old call.entry result self.new }
    {
        match (self.core.standing, call) {
            (Standing::Live { .. }, Call::Load { .. }) => Answer::Refused(Refusal::KeyInUse),
            (_, Call::Load { key }) => {
                self.core.begin(key);
                Answer::Done
            }
            (Standing::Live { .. }, Call::Install { image }) => self.install_live(image),
            (Standing::Live { .. }, Call::Fetch { address }) => self.fetch_live(address),
            (_, Call::Install { .. } | Call::Fetch { .. }) => Answer::Refused(Refusal::NoKey),
            (_, Call::Overwrite { slot, number }) => self.write_slot(slot, number),
        }
    }

    // Stays: that the key is live is asked here and of three calls more; without one there are no strikes to count.
    fn refuse(&mut self, refusal: Refusal) -> Answer
        requires { condition_of self.old.core.standing ≡ Live }
        ensures answer { result ≡ Refused refusal }
        ensures after { state_of C.WordCipher M.Memory self.new ≡ after (refused_with (note_of refusal).number) (state_of C.WordCipher M.Memory self.old) }
        ensures kept { Keeps C.WordCipher M.Memory self.old.core.cipher self.old.memory self.new }
    {
        if is_rejection(refusal) {
            self.core.strike();
        }
        Answer::Refused(refusal)
    }

    fn write_slot(&mut self, slot: u32, number: u64) -> Answer
        ensures { Does C.WordCipher M.Memory self.old (Overwrite slot number) result self.new }
    {
        match self.memory.write(slot, number) {
            Ok(()) => Answer::Done,
            Err(refusal) => Answer::Refused(refusal),
        }
    }

    fn fetch_live(&mut self, address: u32) -> Answer
        requires { condition_of self.old.core.standing ≡ Live }
        ensures { Does C.WordCipher M.Memory self.old (Fetch address) result self.new }
    {
        match self.core.look_up(&self.memory, address) {
            Ok(instruction) => Answer::Instruction(instruction),
            Err(refusal) => self.refuse(refusal),
        }
    }

    fn install_live(&mut self, image: &[u8]) -> Answer
        requires { condition_of self.old.core.standing ≡ Live }
        ensures { Does C.WordCipher M.Memory self.old (Install image.entry) result self.new }
    {
        match self.core.check_install(self.memory.slots(), image) {
            Ok(header) => {
                write_records(&mut self.memory, image, &header);
                self.core.place(header);
                Answer::Done
            }
            Err(refusal) => self.refuse(refusal),
        }
    }
}
