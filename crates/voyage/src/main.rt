// One task from shore to ship and back, with both ChiLow ciphers, over a memory of three chips.
#![tactic(auto)]

mod ashore;
mod board;
mod listed;
mod show;
mod story;

use ashore::{Buffers, Cargo, KEY, make_cargo};
use board::sail;
use chilow::word_cipher::ChiLow;
use cipher::{Mode, WordCipher};
use refusal::Refusal;
use show::print_words;

fn main(rt: HostRuntime) -> anyhow::Result<()> {
    run(&rt)
}

fn run(rt: &HostRuntime) -> anyhow::Result<()> {
    println!(rt; "ChiLow-(32+16)")?;
    voyage(rt, Mode::Tagged, 16, 12)?;
    println!(rt; "ChiLow-40")?;
    voyage(rt, Mode::Block, 8, 8)
}

/// A voyage with the cipher of that mode and tag length. The foreign image is of the tagged mode, with tags of that many
/// bits.
fn voyage(
    rt: &HostRuntime,
    mode: Mode,
    tag_length: u32,
    foreign_length: u32,
) -> anyhow::Result<()> {
    let cipher = keyed_cipher(mode, tag_length)?;
    let foreign = keyed_cipher(Mode::Tagged, foreign_length)?;
    let mut seventh = [0xFFu8; 64];
    let mut eighth = [0u8; 64];
    let mut damaged = [0u8; 64];
    let mut other = [0u8; 64];
    let buffers = Buffers {
        seventh: &mut seventh,
        eighth: &mut eighth,
        damaged: &mut damaged,
        foreign: &mut other,
    };
    let cargo = make_cargo(rt, &cipher, &foreign, buffers)?;
    at_sea(rt, ChiLow::new(mode, tag_length)?, &cargo)
}

/// The cipher ashore, where the key is known.
fn keyed_cipher(mode: Mode, tag_length: u32) -> Result<ChiLow, Refusal> {
    let mut cipher = ChiLow::new(mode, tag_length)?;
    cipher.load(KEY);
    Ok(cipher)
}

/// The voyage on three chips, and what they hold when the unit is gone.
fn at_sea(rt: &HostRuntime, cipher: ChiLow, cargo: &Cargo<'_>) -> anyhow::Result<()> {
    let mut bytes = [0xEEu8; 34];
    let mut high = [0xDDDD_DDDDu32; 7];
    let mut low = [0xCCCCu16; 6];
    sail(rt, cipher, cargo, &mut bytes, &mut high, &mut low)?;
    println!(rt; "the chips, once the unit is gone")?;
    print_words(rt, &bytes, 2)?;
    print_words(rt, &high, 8)?;
    print_words(rt, &low, 4)
}
