ghost use Rattle.std.specs.Prelude.{◌≡◌, ◌%◌, ◌<◌, ◌≤◌};
ghost use Rattle.layers.specs.Widths.{half};

/// The widths of a ChiLow state, in bits.
#[derive(Clone, Copy, PartialEq, Eq, Debug)]
pub enum Width {
    W32,
    W40,
    W64,
    W128,
}

impl Width {
    /// Half the number of bits.
    pub fn half(self) -> u32
        ensures is { result ≡ half self }
        ensures above { 2 < result }
        ensures most { result ≤ 64 }
        ensures even { result % 2 ≡ 0 }
    {
        match self {
            Width::W32 => 16,
            Width::W40 => 20,
            Width::W64 => 32,
            Width::W128 => 64,
        }
    }
}
