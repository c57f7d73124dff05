// Calls that hold no reference, each made by a function.
ghost use Rattle.std.specs.Prelude.{◌≡◌};
ghost use Rattle.life.specs.declared.Call.TheVariants.{Load, Fetch, Overwrite};

use crate::Call;

// Stays: public, and their planted bugs are kept, though each is no shorter than the variant that it makes.
impl<'a> Call<'a> {
    /// The call that loads a key.
    pub fn load(key: u128) -> Call<'a>
        ensures { result ≡ Load key }
    {
        Call::Load { key }
    }

    /// The call that fetches the instruction of an address.
    pub fn fetch(address: u32) -> Call<'a>
        ensures { result ≡ Fetch address }
    {
        Call::Fetch { address }
    }

    /// The call that overwrites a slot.
    pub fn overwrite(slot: u32, number: u64) -> Call<'a>
        ensures { result ≡ Overwrite slot number }
    {
        Call::Overwrite { slot, number }
    }
}
