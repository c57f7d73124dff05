// The life of a second unit, told by a list of calls.
ghost use Rattle.std.specs.Prelude.{◌≡◌};

use crate::ashore::{Cargo, KEY, record};
use crate::show::{print_call, print_status};
use chilow::word_cipher::ChiLow;
use cipher::WordCipher;
use guard::run_chilow;
use life::{Answer, Call};
use memory::Memory;
use unit::unit::Unit;

/// Runs the list of calls in one go, and shows each call with its answer.
pub(crate) fn tell_list<M: Memory>(
    rt: &HostRuntime,
    cipher: ChiLow,
    memory: M,
    cargo: &Cargo<'_>,
) -> (M, anyhow::Result<()>)
    ensures { M.rest result.0 ≡ M.rest memory }
{
    let calls = [
        Call::fetch(0x1000),
        Call::load(KEY),
        Call::fetch(0x1000),
        Call::Install {
            image: cargo.eighth,
        },
        Call::fetch(0x1000),
        Call::fetch(0x101C),
        Call::Install {
            image: cargo.seventh,
        },
        Call::overwrite(11, 0),
        Call::overwrite(10, 0x1_0000_0000_0000),
        Call::overwrite(10, 0xFFFF_FFFF_FFFF),
        Call::overwrite(2, record(cargo.eighth, 3)),
        Call::fetch(0x1008),
    ];
    let mut answers = [Answer::Done; 12];
    let unit = run_chilow(cipher, memory, &calls, &mut answers);
    let told = print_list(rt, &calls, &answers, &unit);
    let (_, memory) = unit.into_parts();
    (memory, told)
}

fn print_list<M: Memory>(
    rt: &HostRuntime,
    calls: &[Call<'_>],
    answers: &[Answer],
    unit: &Unit<ChiLow, M>,
) -> anyhow::Result<()> {
    println!(rt; "a second unit, by a list of calls")?;
    for (call, answer) in calls.iter().zip(answers) {
        print_call(rt, *call, *answer)?;
    }
    print_status(rt, unit.status())
}
