// The calls of a unit, each with what it does and under the law of a unit's life.
ghost use Rattle.std.specs.Prelude.{◌≡◌, []};
ghost use Rattle.life.specs.declared.Call.TheVariants.{Load, Install, Fetch, Overwrite};
ghost use Rattle.life.specs.Coding.{coding};
ghost use Rattle.life.specs.Life.{Agrees};
ghost use Rattle.life.specs.State.{fresh};
ghost use Rattle.unit.specs.View.{suite_of, state_of, status_of, Keeps, Does, Lives};

use crate::unit::Unit;
use crate::unit_core::Core;
use cipher::WordCipher;
use life::{Answer, Call, Status};
use memory::Memory;

impl<C: WordCipher, M: Memory> Unit<C, M> {
    /// A unit of a cipher and a memory: unkeyed, with no strikes and nothing installed.
    pub fn new(cipher: C, memory: M) -> Unit<C, M>
        ensures state { state_of C.WordCipher M.Memory result ≡ fresh (C.key_of cipher) (M.held memory) }
        ensures kept { Keeps C.WordCipher M.Memory cipher memory result }
        ensures life { Agrees (coding (suite_of C.WordCipher result.core.cipher)) (C.key_of cipher) (M.held memory) [] (state_of C.WordCipher M.Memory result) }
    {
        Unit {
            core: Core::unkeyed(cipher),
            memory,
        }
    }

    // Stays: a call over `decide`, whose clause the check finds arm by arm; `life` then follows once, for all of them.
    /// Performs a call of any kind.
    pub fn perform(&mut self, call: Call<'_>) -> Answer
        ensures did { Does C.WordCipher M.Memory self.old call.entry result self.new }
        ensures life { Lives C.WordCipher M.Memory self.old call.entry result self.new }
    {
        self.decide(call)
    }

    /// Loads a key, unless one is live.
    pub fn load(&mut self, key: u128) -> Answer
        ensures did { Does C.WordCipher M.Memory self.old (Load key) result self.new }
        ensures life { Lives C.WordCipher M.Memory self.old (Load key) result self.new }
    {
        self.perform(Call::Load { key })
    }

    /// Installs an image, if every check of it passes.
    pub fn install(&mut self, image: &[u8]) -> Answer
        ensures did { Does C.WordCipher M.Memory self.old (Install image.entry) result self.new }
        ensures life { Lives C.WordCipher M.Memory self.old (Install image.entry) result self.new }
    {
        self.perform(Call::Install { image })
    }

    /// Fetches the instruction of a byte address.
    pub fn fetch(&mut self, address: u32) -> Answer
        ensures did { Does C.WordCipher M.Memory self.old (Fetch address) result self.new }
        ensures life { Lives C.WordCipher M.Memory self.old (Fetch address) result self.new }
    {
        self.perform(Call::Fetch { address })
    }

    /// Puts a number into a slot of the memory, past the unit, as a stranger would.
    pub fn overwrite(&mut self, slot: u32, number: u64) -> Answer
        ensures did { Does C.WordCipher M.Memory self.old (Overwrite slot number) result self.new }
        ensures life { Lives C.WordCipher M.Memory self.old (Overwrite slot number) result self.new }
    {
        self.perform(Call::Overwrite { slot, number })
    }

    /// What the unit tells of itself.
    pub fn status(&self) -> Status
        ensures { result ≡ status_of (state_of C.WordCipher M.Memory self.now) }
    {
        Status {
            slots: self.memory.slots(),
            installed: self.core.installed(),
            strikes_left: self.core.strikes_left(),
            in_force: self.core.in_force(),
        }
    }

    /// The cipher and the memory of a unit that is given up.
    pub fn into_parts(self) -> (C, M)
        ensures cipher { result.0 ≡ self.core.cipher }
        ensures memory { result.1 ≡ self.memory }
    {
        let Unit { core, memory } = self;
        (core.into_cipher(), memory)
    }
}
