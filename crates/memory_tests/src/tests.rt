// Every kind of memory through one exercise, and the bytes that it leaves.
use chips::packed::Packed;
use chips::paired::Paired;
use memory::Memory;
use parts::interleaved::Interleaved;
use parts::joined::Joined;
use refusal::{Layer, Note, Refusal};
use std::alloc::{AllocError, Global};
use std::process::Abort;

const WIDEST: u64 = 0xffff_ffff_ffff;

// A number for each slot, with all six bytes in use.
fn number_for(slot: u32) -> u64 {
    (u64::from(slot) % 0x1_0000 + 1) * 0x1_0305_070b % 0x1_0000_0000_0000
}

// What a refusal of a memory tells.
fn told(number: u32, place: u32) -> Note {
    Note::new(number, place, Layer::Memory)
}

fn check_holds<M: Memory>(rt: &impl Abort, memory: &M, slot: u32, number: u64) {
    assert_eq!(rt; memory.read(slot).map_err(Refusal::note), Ok(number));
}

fn check_written<M: Memory>(rt: &impl Abort, memory: &mut M, slot: u32, number: u64) {
    assert_eq!(rt; memory.write(slot, number).map_err(Refusal::note), Ok(()));
}

fn check_no_read<M: Memory>(rt: &impl Abort, memory: &M, slot: u32) {
    assert_eq!(rt;
        memory.read(slot).map_err(Refusal::note),
        Err(told(12, slot))
    );
}

fn check_no_write<M: Memory>(
    rt: &impl Abort,
    memory: &mut M,
    slot: u32,
    number: u64,
    refusal: u32,
) {
    assert_eq!(rt;
        memory.write(slot, number).map_err(Refusal::note),
        Err(told(refusal, slot))
    );
}

// Past the end nothing is read or written.
fn check_past_the_end<M: Memory>(rt: &impl Abort, memory: &mut M, slots: u32) {
    check_no_read(rt, memory, slots);
    check_no_read(rt, memory, 0xffff_ffff);
    check_no_write(rt, memory, slots, 0, 12);
    check_no_write(rt, memory, slots, WIDEST + 1, 12);
    check_no_write(rt, memory, 0xffff_ffff, u64::MAX, 12);
}

// A number that is too wide is not written, and the widest is.
fn check_width<M: Memory>(rt: &impl Abort, memory: &mut M, slot: u32) {
    check_no_write(rt, memory, slot, WIDEST + 1, 13);
    check_no_write(rt, memory, slot, u64::MAX, 13);
    check_holds(rt, memory, slot, number_for(slot));
    check_written(rt, memory, slot, WIDEST);
    check_holds(rt, memory, slot, WIDEST);
}

// Writes each slot, reads all back, and asks past the end and past the width.
fn exercise<M: Memory>(rt: &impl Abort, memory: &mut M, slots: u32) {
    assert_eq!(rt; memory.slots(), slots);
    for slot in 0..slots {
        check_written(rt, memory, slot, number_for(slot));
    }
    for slot in 0..slots {
        check_holds(rt, memory, slot, number_for(slot));
    }
    check_past_the_end(rt, memory, slots);
    for slot in 0..slots {
        check_width(rt, memory, slot);
    }
}

// Bytes of a chip, and its slots.
const PACKED: [(usize, u32); 8] = [
    (0, 0),
    (5, 0),
    (6, 1),
    (7, 1),
    (11, 1),
    (12, 2),
    (50, 8),
    (64, 10),
];

#[test]
fn packed_of_each_size(rt: HostRuntime) {
    for (size, slots) in PACKED {
        let mut chip = [0xffu8; 64];
        assert!(rt; size <= 64);
        let mut memory = Packed::new(&mut chip[0..size]);
        exercise(&rt, &mut memory, slots);
    }
}

// Words of both chips, and the slots.
const PAIRED: [(usize, usize, u32); 6] = [
    (0, 0, 0),
    (0, 3, 0),
    (4, 0, 0),
    (4, 4, 4),
    (9, 5, 5),
    (3, 16, 3),
];

#[test]
fn paired_of_each_size(rt: HostRuntime) {
    for (highs, lows, slots) in PAIRED {
        let mut high = [0xffff_ffffu32; 16];
        let mut low = [0xffffu16; 16];
        assert!(rt; highs <= 16);
        assert!(rt; lows <= 16);
        let mut memory = Paired::new(&mut high[0..highs], &mut low[0..lows]);
        exercise(&rt, &mut memory, slots);
    }
}

// Bytes of three chips, words of a pair, and the slots of both nestings.
#[derive(Clone, Copy)]
struct Nested {
    bytes: [usize; 3],
    words: usize,
    joined: u32,
    interleaved: u32,
}

const NESTED: [Nested; 5] = [
    Nested {
        bytes: [0, 0, 0],
        words: 0,
        joined: 0,
        interleaved: 0,
    },
    Nested {
        bytes: [13, 6, 24],
        words: 9,
        joined: 12,
        interleaved: 8,
    },
    Nested {
        bytes: [6, 6, 6],
        words: 1,
        joined: 3,
        interleaved: 2,
    },
    Nested {
        bytes: [40, 5, 31],
        words: 7,
        joined: 16,
        interleaved: 12,
    },
    Nested {
        bytes: [0, 64, 64],
        words: 16,
        joined: 32,
        interleaved: 32,
    },
];

// Lends chips of each row's sizes, with the row.
fn lend_all<F>(rt: &impl Abort, nest: F)
where
    F: Fn(&mut [u8], &mut [u8], &mut [u8], &mut [u32], &mut [u16], Nested),
    requires { F.IsAlwaysCallable nest }
{
    for nested in NESTED {
        let [one, two, three] = nested.bytes;
        let mut a = [0xffu8; 64];
        let mut b = [0xffu8; 64];
        let mut c = [0xffu8; 64];
        let mut high = [0xffff_ffffu32; 16];
        let mut low = [0xffffu16; 17];
        assert!(rt; one <= 64 && two <= 64);
        assert!(rt; three <= 64 && nested.words <= 16);
        nest(
            &mut a[0..one],
            &mut b[0..two],
            &mut c[0..three],
            &mut high[0..nested.words],
            &mut low,
            nested,
        );
    }
}

#[test]
fn joined_three_deep(rt: HostRuntime) {
    lend_all(&rt, |a, b, c, high, low, nested| {
        let inner = Joined::new(Packed::new(b), Packed::new(c));
        let middle = Interleaved::new(inner, Paired::new(high, low));
        exercise(&rt, &mut Joined::new(Packed::new(a), middle), nested.joined);
    });
}

#[test]
fn interleaved_three_deep(rt: HostRuntime) {
    lend_all(&rt, |a, b, c, high, low, nested| {
        let inner = Interleaved::new(Packed::new(b), Packed::new(c));
        let middle = Joined::new(inner, Packed::new(a));
        exercise(
            &rt,
            &mut Interleaved::new(Paired::new(high, low), middle),
            nested.interleaved,
        );
    });
}

#[test]
fn most_significant_byte_first(rt: HostRuntime) {
    let mut chip = [0xffu8; 14];
    let mut memory = Packed::new(&mut chip);
    check_written(&rt, &mut memory, 1, 0x0102_0304_0506);
    let handed_back = memory.into_chip();
    assert_eq!(rt; handed_back.len(), 14);
    assert_eq!(rt;
        chip,
        [
            0xff, 0xff, 0xff, 0xff, 0xff, 0xff, 1, 2, 3, 4, 5, 6, 0xff, 0xff,
        ]
    );
}

#[test]
fn upper_half_in_the_high_chip(rt: HostRuntime) {
    let mut high = [0xffff_ffffu32; 2];
    let mut low = [0xffffu16; 3];
    let mut memory = Paired::new(&mut high, &mut low);
    check_written(&rt, &mut memory, 1, 0x0102_0304_0506);
    assert_eq!(rt; high, [0xffff_ffff, 0x0102_0304]);
    assert_eq!(rt; low, [0xffff, 0x0506, 0xffff]);
}

#[test]
fn even_slots_from_the_first(rt: HostRuntime) {
    let mut even = [0xffu8; 18];
    let mut odd = [0xffu8; 13];
    let mut memory = Interleaved::new(Packed::new(&mut even), Packed::new(&mut odd));
    check_written(&rt, &mut memory, 0, 0x0101_0101_0101);
    check_written(&rt, &mut memory, 1, 0x0202_0202_0202);
    check_written(&rt, &mut memory, 2, 0x0303_0303_0303);
    check_written(&rt, &mut memory, 3, 0x0404_0404_0404);
    check_no_write(&rt, &mut memory, 4, 0, 12);
    assert_eq!(rt;
        even,
        [
            1, 1, 1, 1, 1, 1, 3, 3, 3, 3, 3, 3, 0xff, 0xff, 0xff, 0xff, 0xff, 0xff,
        ]
    );
    assert_eq!(rt; odd, [2, 2, 2, 2, 2, 2, 4, 4, 4, 4, 4, 4, 0xff]);
}

#[test]
fn first_slots_then_second(rt: HostRuntime) {
    let mut first = [0xffu8; 7];
    let mut second = [0xffu8; 8];
    let mut memory = Joined::new(Packed::new(&mut first), Packed::new(&mut second));
    check_written(&rt, &mut memory, 0, 0x0101_0101_0101);
    check_written(&rt, &mut memory, 1, 0x0202_0202_0202);
    assert_eq!(rt; first, [1, 1, 1, 1, 1, 1, 0xff]);
    assert_eq!(rt; second, [2, 2, 2, 2, 2, 2, 0xff, 0xff]);
}

fn erased<T: Copy>(heap: Global, word: T, count: usize) -> Result<Vec<T>, AllocError> {
    vec![in heap; word; count]
}

fn check_cut(rt: &impl Abort, high: &mut [u32], low: &mut [u16], chip: &mut [u8]) {
    let mut memory = Joined::new(Packed::new(chip), Paired::new(high, low));
    assert_eq!(rt; memory.slots(), 1_048_575);
    check_written(rt, &mut memory, 1_048_574, 5);
    check_holds(rt, &memory, 1_048_574, 5);
    check_no_write(rt, &mut memory, 1_048_575, 5, 12);
    check_no_read(rt, &memory, 1_048_575);
    let (packed, pair) = memory.into_parts();
    assert_eq!(rt; packed.slots(), 3);
    assert_eq!(rt; pair.slots(), 1_048_575);
    check_holds(rt, &pair, 1_048_571, 5);
    check_holds(rt, &pair, 1_048_572, WIDEST);
    check_no_read(rt, &pair, 1_048_575);
}

// Chips of more slots than a memory has are used up to there.
#[test]
fn cut_at_the_most_slots(rt: HostRuntime) -> Result<(), AllocError> {
    let mut high = erased(rt.alloc(), 0xffff_ffffu32, 1_048_577)?;
    let mut low = erased(rt.alloc(), 0xffffu16, 1_048_580)?;
    let mut chip = [0xffu8; 20];
    check_cut(&rt, &mut high, &mut low, &mut chip);
    Ok(())
}
