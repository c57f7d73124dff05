// The schedules of a key and a tweak, which every path shares.
ghost use Rattle.std.specs.Prelude.{◌≡◌};
ghost use Rattle.paths.specs.Data.{under};

use schedule::key::KeySchedule;
use schedule::tweak::{TweakSchedule, tweak_schedule};

/// The schedules of a key and a tweak, made ahead of the data.
#[derive(Clone, Copy)]
pub struct Schedules {
    pub keys: KeySchedule,
    pub tweaks: TweakSchedule,
}

impl Schedules {
    /// The schedules under a tweak, from the words of the key.
    pub fn new(keys: &KeySchedule, tweak: u64) -> Schedules
        ensures { result ≡ under keys.now tweak }
    {
        Schedules {
            keys: *keys,
            tweaks: tweak_schedule(keys, tweak),
        }
    }
}
