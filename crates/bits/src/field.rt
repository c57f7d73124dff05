// Fields of bits in bytes, most significant bit first: the bytes that a field touches are taken as one number.
ghost use Rattle.std.specs.Prelude.{◌≡◌, ℕ, ◌+◌, ◌-◌, ◌*◌, ◌^◌, ◌<◌, ◌≤◌, ◌⊎◌, min, slice_index};
ghost use Rattle.std.specs.Int.{bit_at};
ghost use Rattle.bits.specs.Field.{field, Written, ReadsBack, KeepsOthers, BitsAreAll};

use crate::part_of;

/// The number of `width` bits from bit `offset` on; bits past the end are 0, and of a wider field the first 64 are read.
#[tactic(auto, using(crate::proofs::Fields::part_is))]
pub fn read_field(bytes: &[u8], offset: usize, width: u32) -> u64
    ensures is { result ≡ field bytes.now offset (min width 64) }
    ensures fits { result < 2 ^ min width 64 }
{
    let span = Span::of_field(offset, width);
    part_of(span.number(bytes), span.rest, span.width) as u64
}

/// Turns the `width` bits from bit `offset` on to the low bits of `value`, and no other bit; bits past the end are not
/// there to be written, and of a wider field the first 64 are written.
pub fn write_field(bytes: &mut [u8], offset: usize, width: u32, value: u64)
    ensures written { Written bytes.old bytes.new offset (min width 64) value }
    ensures back { ReadsBack }
    ensures others { KeepsOthers }
    ensures all { BitsAreAll }
{
    let span = Span::of_field(offset, width);
    let number = span.patched(span.number(bytes), value);
    span.write(bytes, number);
}

// The bytes from `first` up to `end`, which a field of `width` bits touches; behind it stand `rest` bits of the last.
#[derive(Clone, Copy)]
struct Span {
    first: usize,
    end: usize,
    width: u32,
    rest: u32,
    ghost ordered: { first ≤ end },
    ghost few: { end ≤ first + 9 },
    ghost short: { width ≤ 64 },
    ghost tail: { rest < 8 },
}

impl Span {
    // Of a field wider than 64 bits, the span of the first 64.
    fn of_field(offset: usize, width: u32) -> Span
        ensures begins { result.first * 8 ≤ offset }
        ensures width { result.width ≡ min width 64 }
        ensures ends { offset + result.width + result.rest ≡ result.end * 8 }
    {
        let first = offset / 8;
        let skip = (offset % 8) as u32;
        let width = width.min(64);
        let count = (skip + width).div_ceil(8);
        Span {
            first,
            end: first + count as usize,
            width,
            rest: count * 8 - skip - width,
        }
    }

    // The bytes as one number, the first the highest.
    fn number(self, bytes: &[u8]) -> u128
        ensures { result ≡ field bytes.now (self.first * 8) ((self.end - self.first) * 8) }
    {
        (self.first..self.end).fold(0, |number, i| number << 8 | u128::from(byte_at(bytes, i)))
    }

    // That number with the field's bits turned to the low bits of `value`.
    #[tactic(auto, using(crate::proofs::Patching::patching))]
    fn patched(self, number: u128, value: u64) -> u128
        ensures inside { (k : ℕ) → k < self.width → bit_at result (self.rest + k) ≡ bit_at value k }
        ensures outside { (k : ℕ) → (k < self.rest) ⊎ (self.rest + self.width ≤ k) → bit_at result k ≡ bit_at number k }
    {
        let mask = (1 << (self.rest + self.width)) - (1 << self.rest);
        number & !mask | u128::from(value) << self.rest & mask
    }

    // Turns the bytes to the low bytes of `number`, as far as there are bytes.
    fn write(self, bytes: &mut [u8], number: u128)
        ensures { Written bytes.old bytes.new (self.first * 8) ((self.end - self.first) * 8) number }
    {
        let end = self.end.min(bytes.len());
        if self.first < end {
            let low = &number.to_be_bytes()[16 - (self.end - self.first)..];
            bytes[self.first..end].copy_from_slice(&low[..end - self.first]);
        }
    }
}

fn byte_at(bytes: &[u8], i: usize) -> u8
    ensures { result ≡ slice_index bytes.now i }
{
    bytes.get(i).copied().unwrap_or(0)
}
