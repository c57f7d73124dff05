// The data path, from its whitened state and the masks of the tweak schedule.
ghost use Rattle.std.specs.Prelude.{◌≡◌, slice_index};
ghost use Rattle.schedule.specs.Schedule.{table};
ghost use Rattle.paths.specs.Data.{data_round, data_after};

use crate::path::Path;

/// The data state at first, a whitened `x`, and after each of the eight rounds.
#[tactic(auto, using(schedule::proofs::Tables::tables), unfolding(crate::specs::Data::data_after))]
pub fn data_states(path: Path, masks: &[u64; 8], x: u64) -> [u64; 9]
    ensures { result ≡ table 9 (data_after path (λ i. slice_index masks.now i) x) }
{
    let mut states = [x; 9];
    for (i, mask) in masks.iter().enumerate() {
        states[i + 1] = data_round(path, i, states[i], *mask);
    }
    states
}

fn data_round(path: Path, i: usize, state: u64, mask: u64) -> u64
    ensures { result ≡ data_round path i state mask }
{
    let turned = if i < 7 {
        path.mixed(state)
    } else {
        path.chi(state)
    };
    turned ^ path.taken(mask)
}
