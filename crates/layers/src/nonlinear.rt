// ChiChi and its inverse.
ghost use Rattle.std.specs.Prelude.{◌≡◌, ℕ, ◌+◌, ◌-◌, ◌%◌, ◌^◌, ◌<◌, ◌≤◌, ◌⊎◌};
ghost use Rattle.bits.specs.Number.{bit, number};
ghost use Rattle.layers.specs.ChiChi.{gate as gate_of, chi_bit, chichi};
ghost use Rattle.layers.specs.Inverse.{step, walk, crossing, around, fixed_pair, state_bit, chichi⁻¹, Undoes, Undone};
ghost use Rattle.layers.specs.Widths.{half, size};

use crate::width::Width;
use bits::{bit_at, with_bit};

/// ChiChi of a state of that width; bits above the width are not read.
#[tactic(auto, using(crate::proofs::Bijection::chichi_lt))]
pub fn chi_chi(width: Width, x: u128) -> u128
    ensures is { result ≡ chichi (half width) x }
    ensures fits { result < 2 ^ size width }
{
    State::of(width, x).chi_chi()
}

/// The one state of that width whose ChiChi is `y`; bits of `y` above the width are not read.
#[tactic(auto, using(crate::proofs::Bijection::inversion))]
pub fn chi_chi_inverse(width: Width, y: u128) -> u128
    ensures is { result ≡ chichi⁻¹ (half width) y }
    ensures fits { result < 2 ^ size width }
    ensures argument { chichi (half width) result ≡ y % 2 ^ size width }
    ensures only { (x : ℕ) → x < 2 ^ size width → chichi (half width) x ≡ y % 2 ^ size width → x ≡ result }
    ensures undoes { Undoes }
    ensures undone { Undone }
{
    State::of(width, y).inverse()
}

fn gate(a: bool, b: bool, c: bool) -> bool
    ensures { result ≡ gate_of a b c }
{
    a ^ (!b & c)
}

// Two neighbouring bits of a state, the lower first.
type Pair = (bool, bool);

// The low `middle + middle` bits of a number, in two halves.
#[derive(Clone, Copy)]
struct State {
    bits: u128,
    middle: u32,
    ghost above: { 2 < middle },
    ghost most: { middle ≤ 64 },
}

impl State {
    fn of(width: Width, bits: u128) -> State
        ensures bits { result.bits ≡ bits }
        ensures middle { result.middle ≡ half width }
    {
        State {
            bits,
            middle: width.half(),
        }
    }

    fn chi_chi(self) -> u128
        ensures { result ≡ chichi self.middle self.bits }
    {
        (0..self.middle + self.middle).fold(0, |r, i| with_bit(r, i, self.chi_bit(i)))
    }

    fn chi_bit(self, i: u32) -> bool
        ensures { result ≡ chi_bit self.middle (bit self.bits) i }
    {
        let x = self.bits;
        let m = self.middle;
        if i < m - 3 {
            gate(bit_at(x, i), bit_at(x, i + 1), bit_at(x, i + 2))
        } else if i == m - 3 {
            gate(bit_at(x, m), bit_at(x, m - 2), bit_at(x, 0))
        } else if i == m - 2 {
            gate(bit_at(x, m - 1), bit_at(x, 0), bit_at(x, 1))
        } else if i == m - 1 {
            gate(!bit_at(x, m - 3), bit_at(x, m), !bit_at(x, m + 1))
        } else if i == m {
            gate(bit_at(x, m - 2), bit_at(x, m + 1), bit_at(x, m + 2))
        } else if i < m + m - 2 {
            gate(bit_at(x, i), bit_at(x, i + 1), bit_at(x, i + 2))
        } else if i == m + m - 2 {
            gate(bit_at(x, m + m - 2), bit_at(x, m + m - 1), bit_at(x, m - 1))
        } else {
            gate(bit_at(x, m + m - 1), bit_at(x, m - 1), bit_at(x, m))
        }
    }

    // The state whose ChiChi this is.
    fn inverse(self) -> u128
        ensures { result ≡ chichi⁻¹ self.middle self.bits }
    {
        self.state_from(self.fixed_pair())
    }

    // Bits i and i + 1 of that state, from its bits i + 1 and i + 2.
    fn step(self, i: u32, pair: Pair) -> Pair
        ensures { result ≡ step (bit self.bits i) pair }
    {
        (gate(bit_at(self.bits, i), pair.0, pair.1), pair.0)
    }

    // Its bits `low` and `low + 1`, from its bits `high` and `high + 1`.
    // Stays: std has no lemma on a fold over a reversed range, so `rev().fold(..)` needs lemmas longer than both loops.
    fn walk(self, low: u32, high: u32, mut pair: Pair) -> Pair
        requires { low ≤ high }
        ensures { result ≡ walk (bit self.bits) low (high - low) pair }
    {
        for i in (low..high).rev() {
            pair = self.step(i, pair);
        }
        pair
    }

    // `r` with its bits from `low` up to `high`, from its bits `high` and `high + 1`.
    // Stays: a fold would carry `(r, pair)` and end in `.0`, which is no plainer than the two variables.
    fn with_walk(self, mut r: u128, low: u32, high: u32, mut pair: Pair) -> u128
        requires ordered { low ≤ high }
        requires within { high ≤ 128 }
        ensures inside { (i : ℕ) → low ≤ i → i < high → bit result i ≡ (walk (bit self.bits) i (high - i) pair).0 }
        ensures outside { (i : ℕ) → (i < low) ⊎ (high ≤ i) → bit result i ≡ bit r i }
    {
        for i in (low..high).rev() {
            pair = self.step(i, pair);
            r = with_bit(r, i, pair.0);
        }
        r
    }

    // Its bits m - 1 and m, from its bits m - 3 and m - 2.
    fn crossing(self, pair: Pair) -> Pair
        ensures { result ≡ crossing self.middle (bit self.bits) pair }
    {
        let y = self.bits;
        let m = self.middle;
        let low = self.walk(0, m - 3, pair);
        (
            gate(bit_at(y, m - 2), low.0, low.1),
            gate(bit_at(y, m - 3), pair.1, low.0),
        )
    }

    // Its bits m - 3 and m - 2, from what they were taken to be.
    fn around(self, pair: Pair) -> Pair
        ensures { result ≡ around self.middle (bit self.bits) pair }
    {
        let y = self.bits;
        let m = self.middle;
        let mid = self.crossing(pair);
        let high = self.walk(m + 1, m + m, mid);
        (
            gate(!bit_at(y, m - 1), mid.1, !high.0),
            gate(bit_at(y, m), high.0, high.1),
        )
    }

    // Its bits m - 3 and m - 2.
    fn fixed_pair(self) -> Pair
        ensures { result ≡ fixed_pair self.middle (bit self.bits) }
    {
        let pair = self.around((false, false));
        self.around(pair)
    }

    // The state whose bits m - 3 and m - 2 are that pair, from its highest bit down.
    fn state_from(self, pair: Pair) -> u128
        ensures { result ≡ number (self.middle + self.middle) (state_bit self.middle (bit self.bits) pair) }
    {
        let m = self.middle;
        let mid = self.crossing(pair);
        let upper = self.with_walk(0, m + 1, m + m, mid);
        let middle = with_bit(with_bit(upper, m, mid.1), m - 1, mid.0);
        let lower = with_bit(with_bit(middle, m - 2, pair.1), m - 3, pair.0);
        self.with_walk(lower, 0, m - 3, pair)
    }
}
