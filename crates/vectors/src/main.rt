// Decrypts the published test vectors of both ChiLow ciphers and prints every state beside the published one.
#![tactic(auto)]

mod published;
mod words;

use anyhow::anyhow;
use cipher::tweak_of;
use comparison::{Cell, differing};
use paths::decrypt::trace_of;
use paths::path::Path;
use published::{BLOCK, ROWS, TAGGED, Vector};
use std::alloc::{AllocError, Global};
use std::fmt::InlineText;
use words::print_words;

const KEY: u128 = 0xFEDC_BA98_7654_3210_7766_5544_3322_1100;

const VERSION: u32 = 0x0011_2233;

const ADDRESS: u32 = 0x4455_6677;

const CIPHERTEXT: u64 = 0x0123_4567;

const CIPHER_BLOCK: u64 = 0x31_7C83_E4A7;

fn main(rt: HostRuntime) -> anyhow::Result<()> {
    run(&rt)
}

fn run(rt: &HostRuntime) -> anyhow::Result<()> {
    let tweak = tweak_of(VERSION, ADDRESS);
    let tagged = cells_of(rt.alloc(), &TAGGED, &tagged_states(tweak))?;
    println!(rt; "ChiLow-(32+t): computed, published")?;
    print_cells(rt, tagged.as_slice())?;
    let block = cells_of(rt.alloc(), &BLOCK, &block_states(tweak))?;
    println!(rt; "ChiLow-40: computed, published")?;
    print_cells(rt, block.as_slice())?;
    print_words(rt, KEY, tweak)?;
    let differ = differing(tagged.as_slice()).saturating_add(differing(block.as_slice()));
    let compared = tagged.len().saturating_add(block.len());
    println!(rt; "{compared} values compared, {differ} differ")?;
    if differ > 0 {
        return Err(anyhow!("a state is not the published one"));
    }
    Ok(())
}

// Both paths of ChiLow-(32+τ) begin at the ciphertext.
fn tagged_states(tweak: u64) -> [[u128; 4]; 10] {
    let data = trace_of(Path::Data32, KEY, tweak, CIPHERTEXT);
    let tag = trace_of(Path::Tag32, KEY, tweak, CIPHERTEXT);
    let input = [
        u128::from(CIPHERTEXT),
        u128::from(CIPHERTEXT),
        u128::from(tweak),
        KEY,
    ];
    let mut states = [input; 10];
    for (row, (data, tag)) in states[1..].iter_mut().zip(data.iter().zip(&tag)) {
        *row = [
            u128::from(data.block),
            u128::from(tag.block),
            u128::from(data.tweak),
            data.key,
        ];
    }
    states
}

fn block_states(tweak: u64) -> [[u128; 3]; 10] {
    let data = trace_of(Path::Data40, KEY, tweak, CIPHER_BLOCK);
    let mut states = [[u128::from(CIPHER_BLOCK), u128::from(tweak), KEY]; 10];
    for (row, state) in states[1..].iter_mut().zip(&data) {
        *row = [u128::from(state.block), u128::from(state.tweak), state.key];
    }
    states
}

// A cell for each place of a vector, row by row.
fn cells_of<const N: usize>(
    alloc: Global,
    vector: &Vector<N>,
    states: &[[u128; N]; 10],
) -> Result<Vec<Cell>, AllocError> {
    let mut cells = Vec::new(alloc);
    for (row, (computed, published)) in ROWS.iter().zip(states.iter().zip(&vector.rows)) {
        for (column, (computed, published)) in vector
            .columns
            .iter()
            .zip(computed.iter().zip(published))
        {
            cells.push(Cell {
                row: *row,
                column: *column,
                computed: *computed,
                published: *published,
            })?;
        }
    }
    Ok(cells)
}

fn print_cells(rt: &HostRuntime, cells: &[Cell]) -> anyhow::Result<()> {
    for cell in cells {
        let row = InlineText::<9>::of(cell.row);
        let row = row.as_str();
        let column = InlineText::<6>::of(cell.column);
        let column = column.as_str();
        let digits = cell.column.digits();
        let computed = cell.computed;
        let published = cell.published;
        let verdict = if cell.differs() {
            "DIFFERS"
        } else {
            "as published"
        };
        println!(rt; "{row:<9} {column:<6} {computed:0digits$X} {published:0digits$X} {verdict}")?;
    }
    Ok(())
}
