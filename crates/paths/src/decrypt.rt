// Decryption on a path, and its whole trace.
ghost use Rattle.std.specs.Prelude.{◌≡◌, ◌^◌, ◌<◌, slice_index};
ghost use Rattle.layers.specs.Widths.{size};
ghost use Rattle.schedule.specs.Schedule.{◌⊻◌, table};
ghost use Rattle.paths.specs.Algorithm.{rows, SchedulesDecrypt};
ghost use Rattle.paths.specs.Paths.{width_of};
ghost use Rattle.paths.specs.Data.{word_of, data_after, outcome};

use crate::data::data_states;
use crate::path::Path;
use crate::schedules::Schedules;
use schedule::key::{key_schedule, key_states};
use std::array;

/// A state of a decryption.
#[derive(Clone, Copy)]
pub struct State {
    pub block: u64,
    pub tweak: u64,
    pub key: u128,
}

impl Schedules {
    /// What a path makes of `x`.
    #[tactic(auto, using(crate::proofs::Rows::decrypting))]
    pub fn decrypt(&self, path: Path, x: u64) -> u64
        ensures is { result ≡ outcome path self.now x }
        ensures fits { result < 2 ^ size (width_of path) }
        ensures law { SchedulesDecrypt }
    {
        self.states(path, x)[8]
    }

    fn states(&self, path: Path, x: u64) -> [u64; 9]
        ensures { result ≡ table 9 (data_after path (λ i. slice_index self.now.tweaks.masks i) (x ⊻ word_of self.now.keys path)) }
    {
        data_states(path, &self.tweaks.masks, x ^ path.whitening(&self.keys))
    }
}

/// Every state of the decryption of `x` on a path: after the whitening, and after each of the eight rounds.
pub fn trace_of(path: Path, key: u128, tweak: u64, x: u64) -> [State; 9]
    ensures { result ≡ rows path key tweak x }
{
    let cipher = path.cipher();
    let schedules = Schedules::new(&key_schedule(cipher, key), tweak);
    let blocks = schedules.states(path, x);
    let tweaks = schedules.tweaks.states;
    let keys = key_states(cipher, key);
    array::from_fn(|i| State {
        block: blocks[i],
        tweak: tweaks[i],
        key: keys[i],
    })
}
