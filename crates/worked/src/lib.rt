// Worked values, proved of the definitions and of the code.
#![tactic(auto)]

ghost use Rattle.std.specs.Prelude.{◌≡◌};
ghost use Rattle.worked.specs.Examples.{Worked, published, defined};

use layers::nonlinear::chi_chi;
use layers::width::Width;
use linear::{LinearMap, apply};
use paths::decrypt::trace_of;
use paths::path::Path;

const KEY: u128 = 0xFEDC_BA98_7654_3210_7766_5544_3322_1100;

const TWEAK: u64 = 0x0011_2233_4455_6677;

const CIPHERTEXT: u64 = 0x0123_4567;

/// The published vector whitened (data, tag, tweak), then ChiChi of four states, then the linear maps of the data,
/// the tag and the tweak.
pub fn worked_values() -> [u128; 10]
    ensures table { Worked }
    ensures values { result ≡ published }
{
    computed()
}

// Stays: beside its caller; in one function, the proof names the facts of each call by hand, which is no plainer.
fn computed() -> [u128; 10]
    ensures { result ≡ defined }
{
    let data = trace_of(Path::Data32, KEY, TWEAK, CIPHERTEXT);
    let tag = trace_of(Path::Tag32, KEY, TWEAK, CIPHERTEXT);
    [
        u128::from(data[0].block),
        u128::from(tag[0].block),
        u128::from(data[0].tweak),
        chi_chi(Width::W32, 0x7777_7777),
        chi_chi(Width::W32, 0xFFFF_FFFF),
        chi_chi(Width::W64, 0x7777_7777_7777_7777),
        chi_chi(Width::W32, 0),
        apply(LinearMap::Data32, 0xF333_3333),
        apply(LinearMap::Tag32, 0xFFFF_7FFF),
        apply(LinearMap::Tweak64, 0xF333_3333_3333_3333),
    ]
}
