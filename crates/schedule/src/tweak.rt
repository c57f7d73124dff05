// The tweak schedule, from the tweak and the words of the key.
ghost use Rattle.std.specs.Prelude.{◌≡◌, slice_index};
ghost use Rattle.schedule.specs.Schedule.{mask as mask_of, tweak_round, tweak_schedule};

use crate::key::KeySchedule;
use layers::nonlinear::chi_chi;
use layers::width::Width;
use linear::{LinearMap, apply};

/// The tweak state after the whitening and after each round, and what the data takes of it in each round,
/// before the word of the key is added.
// Stays: two arrays; a path is lent the masks alone, and there is one state more than there are masks.
#[derive(Clone, Copy)]
pub struct TweakSchedule {
    pub states: [u64; 9],
    pub masks: [u64; 8],
}

/// The tweak states and masks of the eight rounds.
#[tactic(auto, using(crate::proofs::Tables::tables), unfolding(crate::specs::Schedule::tweak_after))]
pub fn tweak_schedule(keys: &KeySchedule, tweak: u64) -> TweakSchedule
    ensures { result ≡ tweak_schedule keys.now tweak }
{
    let mut states = [tweak ^ keys.tweak; 9];
    let mut masks = [0; 8];
    for (i, mask) in masks.iter_mut().enumerate() {
        let turn = tweak_round(i, states[i], &keys.rounds);
        *mask = turn.mask;
        states[i + 1] = turn.next;
    }
    TweakSchedule { states, masks }
}

// What a round makes of the tweak state: what the data takes, and the state after it.
#[derive(Clone, Copy)]
struct Turn {
    mask: u64,
    next: u64,
}

// The data takes the state before the word of the key is added, and the last round adds none.
fn tweak_round(i: usize, state: u64, rounds: &[u64; 7]) -> Turn
    ensures mask { result.mask ≡ mask_of i state }
    ensures next { result.next ≡ tweak_round i state (slice_index rounds.now i) }
{
    let mask = mask(i, state);
    let next = if i < 7 { mask ^ rounds[i] } else { mask };
    Turn { mask, next }
}

fn mask(i: usize, state: u64) -> u64
    ensures { result ≡ mask_of i state }
{
    let turned = if i < 7 {
        chi_chi(Width::W64, u128::from(state))
    } else {
        u128::from(state)
    };
    apply(LinearMap::Tweak64, turned) as u64
}
