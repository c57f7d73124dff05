// A unit's cipher, standing and program at work.
ghost use Rattle.std.specs.Prelude.{◌≡◌, ◌<◌, length, slice_index};
ghost use Rattle.refusal.specs.Table.{note_of};
ghost use Rattle.image.specs.Reading.{head_of};
ghost use Rattle.life.specs.declared.Condition.TheVariants.{Live};
ghost use Rattle.life.specs.Coding.{coding, suite_of, opened_at};
ghost use Rattle.life.specs.Deeds.{is_rejection};
ghost use Rattle.life.specs.Deeds.Deed.{loaded};
ghost use Rattle.life.specs.State.{unkeyed, struck, core_after, placed, strikes_left_of};
ghost use Rattle.unit.specs.Standing.{condition_of, strikes_of, version_in, count_in};
ghost use Rattle.unit.specs.View.{core_of, Turned, fetch_row_by, fetched};

use crate::standing::Standing;
use crate::unit_core::Core;
use cipher::{WordCipher, tweak_of};
use image::header::Header;
use memory::Memory;
use refusal::Refusal;

impl<C: WordCipher> Core<C> {
    // A core with nothing installed, and no key but what the cipher came with.
    pub(crate) fn unkeyed(cipher: C) -> Core<C>
        ensures core { core_of C.WordCipher result ≡ unkeyed (C.key_of cipher) }
        ensures suite { suite_of C.WordCipher result.cipher ≡ suite_of C.WordCipher cipher }
    {
        Core {
            cipher,
            standing: Standing::Unkeyed,
            program: None,
        }
    }

    // A new key: the core is live, has no strikes and nothing installed.
    pub(crate) fn begin(&mut self, key: u128)
        ensures { Turned C.WordCipher (core_after (loaded key)) self.old self.new }
    {
        self.cipher.load(key);
        self.standing = Standing::Live { strikes: 0 };
        self.program = None;
    }

    // One strike more for a live core; at the fourth it is locked, and its cipher's key is zero.
    pub(crate) fn strike(&mut self)
        requires { condition_of self.old.standing ≡ Live }
        ensures { Turned C.WordCipher struck self.old self.new }
    {
        match self.standing {
            Standing::Live { strikes } if strikes < 3 => {
                self.standing = Standing::Live {
                    strikes: strikes + 1,
                };
            }
            _ => {
                self.standing = Standing::Locked;
                self.cipher.load(0);
            }
        }
    }

    // The program of that header is installed.
    pub(crate) fn place(&mut self, header: Header)
        ensures { Turned C.WordCipher (placed (head_of header)) self.old self.new }
    {
        self.program = Some(header);
    }

    // The version in force.
    pub(crate) fn in_force(&self) -> Option<u32>
        ensures { result ≡ version_in self.now.program }
    {
        self.program.map(|header| header.version())
    }

    // How many records are installed.
    pub(crate) fn installed(&self) -> u32
        ensures { result ≡ count_in self.now.program }
    {
        self.program.map_or(0, |header| header.count())
    }

    // How many strikes are left before the lock, and none without a live key.
    pub(crate) fn strikes_left(&self) -> u32
        ensures { result ≡ strikes_left_of (condition_of self.now.standing) (strikes_of self.now.standing) }
    {
        match self.standing {
            Standing::Live { strikes } => 4 - strikes,
            Standing::Unkeyed | Standing::Locked => 0,
        }
    }

    pub(crate) fn into_cipher(self) -> C
        ensures { result ≡ self.cipher }
    {
        self.cipher
    }

    // What a slot yields at an address, under a version.
    fn open_slot<M: Memory>(&self, memory: &M, version: u32, address: u32, slot: u32) -> Option<u32>
        requires { slot < length (M.held memory.now) }
        ensures { result ≡ opened_at (coding (suite_of C.WordCipher self.now.cipher)) (C.key_of self.now.cipher) version address (slice_index (M.held memory.now) slot) }
    {
        let stored = memory.read(slot).ok()?;
        self.cipher.decrypt(tweak_of(version, address), stored)
    }

    // The instruction of an address under the live key, or the first refusal that fits.
    pub(crate) fn look_up<M: Memory>(&self, memory: &M, address: u32) -> Result<u32, Refusal>
        ensures { fetched result ≡ fetch_row_by C.WordCipher self.now (M.held memory.now) address }
    {
        if address % 4 != 0 {
            return Err(Refusal::Odd { address });
        }
        let off_map = Refusal::OffMap { address };
        let program = self.program.ok_or(off_map)?;
        let reach = program.count().min(memory.slots());
        let slot = (address / 4)
            .checked_sub(program.base())
            .filter(|slot| *slot < reach)
            .ok_or(off_map)?;
        self.open_slot(memory, program.version(), address, slot)
            .ok_or(Refusal::Rejected { address })
    }
}

// Whether a refusal is a rejection: a foul record, or a slot that does not decrypt.
pub(crate) fn is_rejection(refusal: Refusal) -> bool
    ensures { result ≡ is_rejection (note_of refusal).number }
{
    matches!(
        refusal,
        Refusal::FoulRecord { .. } | Refusal::Rejected { .. }
    )
}
