// Encryption of a block: the data path run backward over the same masks.
ghost use Rattle.std.specs.Prelude.{◌≡◌, ◌^◌, ◌<◌, slice_index};
ghost use Rattle.linear.specs.Linear.{inverse_of};
ghost use Rattle.paths.specs.Encryption.{data_path, data_map, width, undo_round, data_before, source, EncryptionUndoes, EncryptionUndone};

use crate::path::Path;
use crate::schedules::Schedules;
use cipher::Mode;
use linear::{DataMap, apply_inverse};

impl Schedules {
    /// The block that eight rounds make `y` of.
    #[tactic(auto, using(crate::proofs::Undoing::undoing))]
    pub fn encrypt(&self, mode: Mode, y: u64) -> u64
        ensures is { result ≡ source mode self.now y }
        ensures fits { self.now.keys.«data» < 2 ^ width mode → y < 2 ^ width mode → result < 2 ^ width mode }
        ensures undoes { EncryptionUndoes }
        ensures undone { EncryptionUndone }
    {
        undo_rounds(mode, &self.tweaks.masks, y) ^ self.keys.data
    }
}

fn undo_rounds(mode: Mode, masks: &[u64; 8], y: u64) -> u64
    ensures { result ≡ data_before mode (λ i. slice_index masks.now i) y 8 }
{
    let mut state = y;
    for (i, mask) in masks.iter().enumerate().rev() {
        state = undo_round(mode, i, state, *mask);
    }
    state
}

fn undo_round(mode: Mode, i: usize, y: u64, mask: u64) -> u64
    ensures { result ≡ undo_round mode i y mask }
{
    let path = data_path(mode);
    let taken = y ^ path.taken(mask);
    let spread = if i < 7 { unmapped(mode, taken) } else { taken };
    path.chi_inverse(spread)
}

fn data_path(mode: Mode) -> Path
    ensures { result ≡ data_path mode }
{
    match mode {
        Mode::Tagged => Path::Data32,
        Mode::Block => Path::Data40,
    }
}

fn data_map(mode: Mode) -> DataMap
    ensures { result ≡ data_map mode }
{
    match mode {
        Mode::Tagged => DataMap::D32,
        Mode::Block => DataMap::D40,
    }
}

fn unmapped(mode: Mode, x: u64) -> u64
    ensures { result ≡ inverse_of (data_map mode) x }
{
    apply_inverse(data_map(mode), u128::from(x)) as u64
}
