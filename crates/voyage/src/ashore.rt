// Ashore: the images that go to sea.
use crate::show::print_words;
use cipher::WordCipher;
use image::check::{check_image, read_record};
use refusal::Refusal;
use shore::draft::{ClosedDraft, Draft};
use shore::list::make_image;

pub(crate) const KEY: u128 = 0x2B7E_1516_28AE_D2A6_ABF7_1588_09CF_4F3C;

/// The first address of the program, in words.
const BASE: u32 = 0x400;

/// The program that adds up the numbers from the first down to 1.
pub(crate) fn adding_down_from(first: u8) -> [u32; 8] {
    [
        0x0000_0513 | u32::from(first) << 20,
        0x0000_0593,
        0x00A5_85B3,
        0xFFF5_0513,
        0xFE05_1CE3,
        0x0005_8513,
        0x0000_8067,
        0x0000_0013,
    ]
}

/// The images of a voyage: versions 7 and 8 of the program, version 9 with a bit turned over, and version 7 made with
/// another cipher. Each stands in a lent buffer.
#[derive(Clone, Copy)]
pub struct Cargo<'a> {
    pub(crate) seventh: &'a [u8],
    pub(crate) eighth: &'a [u8],
    pub(crate) damaged: &'a [u8],
    pub(crate) foreign: &'a [u8],
}

/// What each image of a voyage is made in.
#[derive(Drop)]
pub struct Buffers<'a> {
    pub(crate) seventh: &'a mut [u8],
    pub(crate) eighth: &'a mut [u8],
    pub(crate) damaged: &'a mut [u8],
    pub(crate) foreign: &'a mut [u8],
}

/// Makes the images of a voyage in the buffers, and shows the first.
pub(crate) fn make_cargo<'a, C: WordCipher>(
    rt: &HostRuntime,
    cipher: &C,
    foreign: &C,
    buffers: Buffers<'a>,
) -> anyhow::Result<Cargo<'a>> {
    let Buffers {
        seventh,
        eighth,
        damaged: third,
        foreign: fourth,
    } = buffers;
    Ok(Cargo {
        seventh: both_ways(rt, cipher, seventh)?,
        eighth: make_at_once(cipher, 8, 20, eighth)?,
        damaged: damaged(make_at_once(cipher, 9, 20, third)?),
        foreign: make_at_once(foreign, 7, 10, fourth)?,
    })
}

/// An image with a bit of its records turned over.
fn damaged(image: &mut [u8]) -> &[u8] {
    if let Some(byte) = image.get_mut(30) {
        *byte ^= 0x10;
    }
    image
}

/// The record of that index of an image, or 0 past the last.
pub(crate) fn record(image: &[u8], index: u32) -> u64 {
    check_image(image)
        .ok()
        .and_then(|header| read_record(image, &header, index))
        .unwrap_or(0)
}

/// The image of version 7, by a draft and at once.
fn both_ways<'a, C: WordCipher>(
    rt: &HostRuntime,
    cipher: &C,
    buffer: &'a mut [u8],
) -> anyhow::Result<&'a [u8]> {
    let closed = draft(cipher, 7, &adding_down_from(10), buffer)?;
    print_closed(rt, &closed)?;
    let drafted: &[u8] = image_in(buffer, &closed);
    let mut other = [0u8; 64];
    let made: &[u8] = make_at_once(cipher, 7, 10, &mut other)?;
    let same = if made == drafted { "the same" } else { "OTHER" };
    println!(rt; "image made at once: {same} bytes")?;
    print_words(rt, made, 2)?;
    Ok(drafted)
}

fn print_closed(rt: &HostRuntime, closed: &ClosedDraft) -> anyhow::Result<()> {
    let version = closed.version();
    let base = closed.base();
    let count = closed.count();
    let length = closed.length();
    println!(rt; "draft closed: version {version}, base {base:X}, {count} words, {length} bytes")?;
    Ok(())
}

/// Makes an image by opening a draft, putting each word and closing it.
fn draft<C: WordCipher>(
    cipher: &C,
    version: u32,
    program: &[u32; 8],
    buffer: &mut [u8],
) -> Result<ClosedDraft, Refusal> {
    let mut draft = Draft::open(cipher, version, BASE, 8, buffer)?;
    for instruction in program {
        draft = draft.put(cipher, *instruction, buffer)?;
    }
    Ok(draft.close(buffer)?)
}

/// The image of the program that adds up from the first number, made in a buffer.
fn make_at_once<'a, C: WordCipher>(
    cipher: &C,
    version: u32,
    first: u8,
    buffer: &'a mut [u8],
) -> Result<&'a mut [u8], Refusal> {
    let closed = make_image(cipher, version, BASE, &adding_down_from(first), buffer)?;
    Ok(image_in(buffer, &closed))
}

/// The image that was closed in a buffer.
fn image_in<'a>(buffer: &'a mut [u8], closed: &ClosedDraft) -> &'a mut [u8] {
    let length = buffer.len().min(closed.length() as usize);
    &mut buffer[..length]
}
