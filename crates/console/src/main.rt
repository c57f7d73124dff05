// The console: a unit over one chip of 384 bytes, spoken to line by line.
#![tactic(auto)]

use chilow::word_cipher::ChiLow;
use chips::packed::Packed;
use cipher::Mode;
use command::reply::text_of;
use command::step::answer_line;
use std::io::{BufRead, BufReader, BufWriter, Write};
use unit::unit::Unit;

fn main(rt: HostRuntime) -> anyhow::Result<()> {
    run(&rt)
}

/// A unit with ChiLow-(32+8) over 64 slots that hold zero, and no key.
fn run(rt: &HostRuntime) -> anyhow::Result<()> {
    let cipher = ChiLow::new(Mode::Tagged, 8)?;
    let mut chip = [0u8; 384];
    let mut unit = Unit::new(cipher, Packed::new(&mut chip));
    converse(rt, &mut unit)
}

/// Answers each line of the standard input, as bytes.
fn converse(rt: &HostRuntime, unit: &mut Unit<ChiLow, Packed<'_>>) -> anyhow::Result<()> {
    let mut out = BufWriter::new(rt.alloc(), rt.stdout())?;
    for line in BufReader::new(rt.alloc(), rt.stdin())?.split(rt.alloc(), b'\n') {
        let line = line?;
        let text = text_of(rt.alloc(), answer_line(unit, &line))?;
        out.write_all(text.as_bytes())?;
    }
    out.flush()?;
    Ok(())
}
