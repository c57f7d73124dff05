// The paths that the data takes, and what each of them uses.
ghost use Rattle.std.specs.Prelude.{◌≡◌};
ghost use Rattle.layers.specs.Inverse.{chichi⁻¹};
ghost use Rattle.layers.specs.Widths.{half};
ghost use Rattle.paths.specs.Paths.{cipher_of, width_of, linear_of, tweak_start, tweak_part, chi, mixed};
ghost use Rattle.paths.specs.Data.{word_of};

use bits::part_of;
use cipher::Mode;
use layers::nonlinear::{chi_chi, chi_chi_inverse};
use layers::width::Width;
use linear::{LinearMap, apply};
use schedule::key::KeySchedule;

/// The paths that the data takes: two in ChiLow-(32+τ), one in ChiLow-40.
#[derive(Clone, Copy, PartialEq, Eq, Debug)]
pub enum Path {
    Data32,
    Tag32,
    Data40,
}

impl Path {
    // The cipher that runs the path.
    pub(crate) fn cipher(self) -> Mode
        ensures { result ≡ cipher_of self }
    {
        match self {
            Path::Data32 | Path::Tag32 => Mode::Tagged,
            Path::Data40 => Mode::Block,
        }
    }

    fn width(self) -> Width
        ensures { result ≡ width_of self }
    {
        match self {
            Path::Data32 | Path::Tag32 => Width::W32,
            Path::Data40 => Width::W40,
        }
    }

    fn linear_map(self) -> LinearMap
        ensures { result ≡ linear_of self }
    {
        match self {
            Path::Data32 => LinearMap::Data32,
            Path::Tag32 => LinearMap::Tag32,
            Path::Data40 => LinearMap::Data40,
        }
    }

    // The word of the key that whitens the path.
    pub(crate) fn whitening(self, keys: &KeySchedule) -> u64
        ensures { result ≡ word_of keys.now self }
    {
        match self {
            Path::Data32 | Path::Data40 => keys.data,
            Path::Tag32 => keys.tag,
        }
    }

    // What the path takes of the tweak state.
    pub(crate) fn taken(self, mask: u64) -> u64
        ensures { result ≡ tweak_part self mask }
    {
        let count = 2 * self.width().half();
        part_of(u128::from(mask), self.tweak_start(), count) as u64
    }

    fn tweak_start(self) -> u32
        ensures { result ≡ tweak_start self }
    {
        match self {
            Path::Data32 | Path::Data40 => 0,
            Path::Tag32 => 32,
        }
    }

    // The nonlinear layer, and the one that undoes it.
    pub(crate) fn chi(self, x: u64) -> u64
        ensures { result ≡ chi self x }
    {
        chi_chi(self.width(), u128::from(x)) as u64
    }

    pub(crate) fn chi_inverse(self, x: u64) -> u64
        ensures { result ≡ chichi⁻¹ (half (width_of self)) x }
    {
        chi_chi_inverse(self.width(), u128::from(x)) as u64
    }

    // Both layers.
    pub(crate) fn mixed(self, x: u64) -> u64
        ensures { result ≡ mixed self x }
    {
        apply(self.linear_map(), u128::from(self.chi(x))) as u64
    }
}
