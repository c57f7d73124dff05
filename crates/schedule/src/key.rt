// The key schedule, a function of the key alone.
ghost use Rattle.std.specs.Prelude.{◌≡◌, ◌*◌, ◌^◌, ◌<◌, if◌then◌else◌};
ghost use Rattle.bits.specs.Number.{part};
ghost use Rattle.schedule.specs.Schedule.{table, inner, domain, constant, key_round, key_after, round_word, data_bits, key_schedule};

use bits::part_of;
use cipher::Mode;
use layers::nonlinear::chi_chi;
use layers::width::Width;
use linear::{LinearMap, apply};
use std::array;

/// The words of a key: one whitens the tweak, one the data, one the tag path (in ChiLow-(32+τ)), and one
/// goes to the tweak state in each of rounds 0 to 6.
#[derive(Clone, Copy)]
pub struct KeySchedule {
    pub tweak: u64,
    pub data: u64,
    pub tag: u64,
    pub rounds: [u64; 7],
}

/// The key state at first and after each of the eight rounds.
#[tactic(auto, using(crate::proofs::Tables::tables), unfolding(crate::specs::Schedule::key_after))]
pub fn key_states(mode: Mode, key: u128) -> [u128; 9]
    ensures { result ≡ table 9 (key_after mode key) }
{
    let mut states = [key; 9];
    let mut state = key;
    for (i, row) in states.iter_mut().enumerate() {
        *row = state;
        state = key_step(mode, i as u32, state);
    }
    states
}

/// The words of the key.
pub fn key_schedule(mode: Mode, key: u128) -> KeySchedule
    ensures { result ≡ key_schedule mode key }
{
    KeySchedule {
        tweak: part_of(key, 0, 64) as u64,
        data: part_of(key, 64, data_bits(mode)) as u64,
        tag: part_of(key, 96, 32) as u64,
        rounds: round_words(mode, key),
    }
}

fn data_bits(mode: Mode) -> u32
    ensures { result ≡ data_bits mode }
{
    match mode {
        Mode::Tagged => 32,
        Mode::Block => 40,
    }
}

#[tactic(auto, using(crate::proofs::Tables::tables))]
fn round_words(mode: Mode, key: u128) -> [u64; 7]
    ensures { result ≡ table 7 (round_word mode key) }
{
    let states = key_states(mode, key);
    array::from_fn(|i| part_of(states[i + 1], 0, 64) as u64)
}

// What round i makes of the key state: the last round keeps it.
fn key_step(mode: Mode, i: u32, state: u128) -> u128
    ensures { result ≡ (if inner i then key_round mode i state else state) }
{
    if i < 7 {
        key_round(mode, i, state)
    } else {
        state
    }
}

fn key_round(mode: Mode, i: u32, state: u128) -> u128
    requires { i < 7 }
    ensures { result ≡ key_round mode i state }
{
    let added = state ^ (u128::from(round_constant(mode, i)) << 96);
    apply(LinearMap::Key128, chi_chi(Width::W128, added))
}

fn round_constant(mode: Mode, i: u32) -> u32
    requires { i < 7 }
    ensures { result ≡ constant mode i }
{
    i ^ (1 << (i + 4)) ^ domain_bit(mode)
}

fn domain_bit(mode: Mode) -> u32
    ensures { result ≡ domain mode }
{
    match mode {
        Mode::Tagged => 0,
        Mode::Block => 0x8000_0000,
    }
}
