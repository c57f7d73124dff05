// The linear maps, and the inverses of the two that encryption undoes.
#![tactic(auto)]

ghost use Rattle.std.specs.Prelude.{◌≡◌, ℕ, ◌%◌, ◌^◌, ◌<◌, ◌≤◌};
ghost use Rattle.bits.specs.Number.{bit};
ghost use Rattle.linear.specs.Linear.{place, linear_bit, linear as linear_of, map_size, map_of, forward, inverse_of, MapUndone, MapUndoes};

use bits::{bit_at, with_bit};

/// The linear maps of ChiLow, by what they are used on and its width.
#[derive(Clone, Copy, PartialEq, Eq, Debug)]
pub enum LinearMap {
    Data32,
    Tag32,
    Data40,
    Tweak64,
    Key128,
}

/// The maps of the data, which encryption undoes.
#[derive(Clone, Copy, PartialEq, Eq, Debug)]
pub enum DataMap {
    D32,
    D40,
}

/// That map of a state; bits above its width are not read.
// Stays: each arm applies its own map, so that the compiler knows its numbers: one call after the match divides for each bit.
pub fn apply(map: LinearMap, x: u128) -> u128
    ensures is { result ≡ map_of map x }
    ensures fits { result < 2 ^ map_size map }
{
    match map {
        LinearMap::Data32 => Circulant::new(32, 11, &[5, 9, 12]).apply(x),
        LinearMap::Tag32 => Circulant::new(32, 11, &[1, 26, 30]).apply(x),
        LinearMap::Data40 => Circulant::new(40, 17, &[1, 9, 30]).apply(x),
        LinearMap::Tweak64 => Circulant::new(64, 3, &[1, 26, 50]).apply(x),
        LinearMap::Key128 => Circulant::new(128, 17, &[7, 11, 14]).apply(x),
    }
}

/// The one state whose map is `y`; bits of `y` above its width are not read.
#[tactic(auto, using(crate::proofs::Linears::inversion))]
pub fn apply_inverse(map: DataMap, y: u128) -> u128
    ensures is { result ≡ inverse_of map y }
    ensures fits { result < 2 ^ map_size (forward map) }
    ensures argument { map_of (forward map) result ≡ y % 2 ^ map_size (forward map) }
    ensures only { (x : ℕ) → x < 2 ^ map_size (forward map) → map_of (forward map) x ≡ y % 2 ^ map_size (forward map) → x ≡ result }
    ensures undone { MapUndone }
    ensures undoes { MapUndoes }
{
    match map {
        DataMap::D32 => Circulant::new(32, 3, &INVERSE_32).apply(y),
        DataMap::D40 => Circulant::new(40, 33, &INVERSE_40).apply(y),
    }
}

// The offsets of the inverses.
const INVERSE_32: [u8; 17] = [
    3, 5, 6, 7, 8, 10, 13, 14, 15, 17, 18, 22, 24, 25, 28, 30, 31,
];

const INVERSE_40: [u8; 23] = [
    2, 4, 6, 7, 8, 10, 11, 13, 14, 17, 18, 19, 21, 22, 23, 29, 31, 32, 33, 36, 37, 38, 39,
];

// Bit i of its result is the exclusive or of bits (factor * i + offset) mod size, over the offsets.
#[derive(Clone, Copy)]
struct Circulant {
    size: u8,
    factor: u8,
    offsets: &'static [u8],
    ghost above: { 0 < size },
    ghost most: { size ≤ 128 },
}

impl Circulant {
    fn new(size: u8, factor: u8, offsets: &'static [u8]) -> Circulant
        requires above { 0 < size }
        requires most { size ≤ 128 }
        ensures size { result.size ≡ size }
        ensures factor { result.factor ≡ factor }
        ensures offsets { result.offsets.now ≡ offsets.now }
    {
        Circulant {
            size,
            factor,
            offsets,
        }
    }

    fn apply(self, x: u128) -> u128
        ensures is { result ≡ linear_of self.size self.factor self.offsets.now x }
        ensures fits { result < 2 ^ self.size }
    {
        (0..self.size).fold(0, |r, i| {
            if self.bit(x, i) {
                with_bit(r, u32::from(i), true)
            } else {
                r
            }
        })
    }

    fn bit(self, x: u128, i: u8) -> bool
        ensures { result ≡ linear_bit self.size self.factor self.offsets.now (bit x) i }
    {
        self.offsets
            .iter()
            .fold(false, |r, offset| r ^ bit_at(x, self.place(i, *offset)))
    }

    fn place(self, i: u8, offset: u8) -> u32
        ensures { result ≡ place self.size self.factor i offset }
    {
        (u32::from(self.factor) * u32::from(i) + u32::from(offset)) % u32::from(self.size)
    }
}
