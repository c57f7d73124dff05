// The bits of a number, bit 0 the lowest.
#![tactic(auto)]

ghost use Rattle.std.specs.Prelude.{◌≡◌, ◌/◌, ◌%◌, ◌^◌, ◌<◌};
ghost use Rattle.bits.specs.Number.{bit, part, SetsBit, BitsDetermine, BitsAreFree, PartBits};

pub mod field;

/// Bit `i` of `x`; past the highest bit it is 0.
pub fn bit_at(x: u128, i: u32) -> bool
    ensures { result ≡ bit x i }
{
    shifted(x, i) % 2 == 1
}

/// The `count` bits of `x` from bit `start` on, as a number; bits past the highest are 0.
#[tactic(auto, using(crate::proofs::Numbers::bits_of_parts))]
pub fn part_of(x: u128, start: u32, count: u32) -> u128
    ensures is { result ≡ part x start count }
    ensures fits { result < 2 ^ count }
    ensures bits { PartBits }
    ensures determined { BitsDetermine }
    ensures free { BitsAreFree }
{
    low_bits(shifted(x, start), count)
}

/// `x` with `b` as bit `i`; past the highest bit there is none to set.
#[tactic(auto, using(crate::proofs::Setting::one_bit))]
pub fn with_bit(x: u128, i: u32, b: bool) -> u128
    ensures { SetsBit x result i b }
{
    match 1u128.checked_shl(i) {
        Some(place) if b => x | place,
        Some(place) => x & !place,
        None => x,
    }
}

#[tactic(auto, using(crate::proofs::Numbers::shifted_past))]
fn shifted(x: u128, by: u32) -> u128
    ensures { result ≡ x / 2 ^ by }
{
    x.checked_shr(by).unwrap_or(0)
}

#[tactic(auto, using(crate::proofs::Numbers::masked, crate::proofs::Numbers::low_all_128))]
fn low_bits(x: u128, count: u32) -> u128
    ensures { result ≡ x % 2 ^ count }
{
    1u128.checked_shl(count).map_or(x, |power| x & (power - 1))
}
