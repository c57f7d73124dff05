// A word cipher, by its meaning: what a unit and a shore tool know of it.
#![tactic(auto)]

ghost use Rattle.std.specs.Prelude.{◌≡◌, ℕ, ◌^◌, ◌<◌, true};
ghost use Rattle.cipher.specs.declared.Mode.{Mode as ModeOf};
ghost use Rattle.cipher.specs.Word.{mode_number, mode_of_bit, fits_mode, tweak_of, Rule, decrypted, Lawful};

mod laws;

pub use laws::{genuine, round_trip};

/// Where the tag stands: beside the ciphertext, or inside the block.
#[derive(Clone, Copy, PartialEq, Eq, Debug)]
pub enum Mode {
    Tagged,
    Block,
}

impl Mode {
    /// Whether a tag in this mode can have that many bits: 8 to 16 beside the ciphertext, 8 inside the block.
    pub fn fits(self, tag_length: u32) -> bool
        ensures { result ≡ fits_mode self tag_length }
    {
        match self {
            Mode::Tagged => matches!(tag_length, 8..=16),
            Mode::Block => tag_length == 8,
        }
    }
}

/// The number of the mode, 0 or 1.
impl From<Mode> for u64 {
    ghost from_gives = { λ mode number. number ≡ mode_number mode };

    fn from(mode: Mode) -> u64 {
        match mode {
            Mode::Tagged => 0,
            Mode::Block => 1,
        }
    }
}

/// The mode of a header's bit: the tag is inside the block where it is set.
impl From<bool> for Mode {
    ghost from_gives = { λ bit mode. mode ≡ mode_of_bit bit };

    fn from(bit: bool) -> Mode {
        if bit { Mode::Block } else { Mode::Tagged }
    }
}

/// A cipher that encrypts instructions of 32 bits, each under a tweak.
pub trait WordCipher {
    ghost key_of: { Self → ℕ };

    ghost mode_of: { Self → ModeOf };

    ghost tag_of: { Self → ℕ };

    ghost rule: { Self → Rule };

    /// The mode, which never changes.
    fn mode(&self) -> Mode
        ensures { result ≡ mode_of self.now };

    /// The length of the tag in bits, which never changes.
    fn tag_length(&self) -> u32
        ensures { result ≡ tag_of self.now };

    /// The cipher has that key from now on.
    fn load(&mut self, key: u128)
        ensures key { key_of self.new ≡ key }
        ensures mode { mode_of self.new ≡ mode_of self.old }
        ensures tag { tag_of self.new ≡ tag_of self.old }
        ensures rule { rule self.new ≡ rule self.old };

    /// The stored number of an instruction.
    fn encrypt(&self, tweak: u64, instruction: u32) -> u64
        ensures { result ≡ rule self.now (key_of self.now) (mode_of self.now) (tag_of self.now) tweak instruction };

    /// The instruction of a stored number, or nothing where it is rejected.
    fn decrypt(&self, tweak: u64, stored: u64) -> Option<u32>
        ensures { result ≡ decrypted (rule self.now (key_of self.now) (mode_of self.now) (tag_of self.now) tweak) stored };

    ghost keyed: { (c : Self) → key_of c < 2 ^ 128 };

    ghost fitting: { (c : Self) → fits_mode (mode_of c) (tag_of c) ≡ true };

    ghost lawful: { (c : Self) → Lawful (rule c) (mode_of c) (tag_of c) };
}

/// The tweak under which the instruction of an address is encrypted.
pub fn tweak_of(version: u32, address: u32) -> u64
    ensures { result ≡ tweak_of version address }
{
    version as u64 * 0x1_0000_0000 + address as u64
}
