// Makes the image of a program of two words by a draft, each state of which is used once.
#![tactic(auto)]

use chilow::word_cipher::ChiLow;
use cipher::{Mode, WordCipher};
use refusal::Refusal;
use shore::draft::Draft;
use std::io;

const KEY: u128 = 0x2B7E_1516_28AE_D2A6_ABF7_1588_09CF_4F3C;

fn main(rt: HostRuntime) -> io::Result<()> {
    let mut buffer = [0u8; 21];
    match make(&mut buffer) {
        Ok(length) => println!(rt; "image of {length} bytes")?,
        Err(refusal) => {
            let number = refusal.note().number;
            println!(rt; "refused {number}")?;
        }
    }
    for byte in buffer {
        print!(rt; " {byte:02X}")?;
    }
    println!(rt)
}

/// Makes the image in the buffer, and tells its length.
fn make(buffer: &mut [u8]) -> Result<u32, Refusal> {
    let mut cipher = ChiLow::new(Mode::Tagged, 16)?;
    cipher.load(KEY);
    let empty = Draft::open(&cipher, 7, 0x400, 2, buffer)?;
    let begun = empty.put(&cipher, 0x00A0_0513, buffer)?;
    let full = begun.put(&cipher, 0x0000_0593, buffer)?;
    let closed = full.close(buffer)?;
    Ok(closed.length())
}
