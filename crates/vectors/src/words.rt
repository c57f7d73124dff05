// Stored words: the published plaintexts encrypted and decrypted again, and damaged words rejected.
use chilow::word_cipher::ChiLow;
use cipher::{Mode, WordCipher, genuine, round_trip};

const PLAINTEXT: u32 = 0x2E75_D127;

const BLOCK_PLAINTEXT: u32 = 0x9054_5706;

/// A line for each mode and tag length.
pub(crate) fn print_words(rt: &HostRuntime, key: u128, tweak: u64) -> anyhow::Result<()> {
    println!(rt;
        "stored words: instruction, stored, opened again, with bit 0 flipped, with a surplus bit"
    )?;
    for tag_length in 8..=16 {
        let cipher = ChiLow::keyed(Mode::Tagged, tag_length, key)?;
        print_word(rt, &cipher, tweak, PLAINTEXT)?;
    }
    let cipher = ChiLow::keyed(Mode::Block, 8, key)?;
    print_word(rt, &cipher, tweak, BLOCK_PLAINTEXT)
}

fn print_word<C: WordCipher>(
    rt: &HostRuntime,
    cipher: &C,
    tweak: u64,
    instruction: u32,
) -> anyhow::Result<()> {
    let name = name_of(cipher.mode());
    let tag_length = cipher.tag_length();
    let stored = cipher.encrypt(tweak, instruction);
    let bits = 32 + tag_length.min(16);
    let digits = bits.div_ceil(4) as usize;
    print!(rt; "{name:<13} t {tag_length:>2} {instruction:08X} {stored:0digits$X}")?;
    match round_trip(cipher, tweak, instruction) {
        Some(again) => print!(rt; " {again:08X}")?,
        None => print!(rt; " rejected")?,
    }
    let flipped = verdict(genuine(cipher, tweak, stored ^ 1));
    let surplus = verdict(genuine(cipher, tweak, stored | (1u64 << bits)));
    println!(rt; " {flipped} {surplus}")?;
    Ok(())
}

fn name_of(mode: Mode) -> &'static str {
    match mode {
        Mode::Tagged => "ChiLow-(32+t)",
        Mode::Block => "ChiLow-40",
    }
}

fn verdict(is_genuine: bool) -> &'static str {
    if is_genuine { "genuine" } else { "rejected" }
}
