// Outside memories: what the device sees of its chips is a list of numbered slots.
#![tactic(auto)]

ghost use Rattle.std.specs.Prelude.{◌≡◌, ℕ, List, length};
ghost use Rattle.memory.specs.Slots.{Sound, Rest, read_of, write_of, after_write};

use refusal::Refusal;

pub mod bounds;

/// A memory of numbered slots, each a number below 2^48.
// Stays: a slot and a number are no pair: a slot is read alone too, and each function would take it apart at once.
pub trait Memory {
    /// The number in each slot.
    ghost held: { Self → List ℕ };

    /// The chips, and what they hold besides the slots.
    ghost rest: { Self → Rest };

    /// The number of slots.
    fn slots(&self) -> u32
        ensures { result ≡ length (held self.now) };

    /// The number in a slot.
    fn read(&self, slot: u32) -> Result<u64, Refusal>
        ensures { result ≡ read_of (held self.now) slot };

    /// Puts a number into a slot. A refusal changes nothing.
    fn write(&mut self, slot: u32, number: u64) -> Result<(), Refusal>
        ensures answer { result ≡ write_of (held self.old) slot number }
        ensures after { held self.new ≡ after_write (held self.old) slot number }
        ensures kept { rest self.new ≡ rest self.old };

    /// At most 1,048,575 slots, each below 2^48.
    ghost sound: { (m : Self) → Sound (held m) };
}
