// The life of a unit, told call by call.
ghost use Rattle.std.specs.Prelude.{◌≡◌};

use crate::ashore::{Cargo, KEY, adding_down_from, record};
use crate::show::{print_call, print_status};
use cipher::WordCipher;
use life::{Answer, Call};
use memory::Memory;
use unit::unit::Unit;

/// A step of the story: a call, the status, or a fetch of every address of the program.
// Stays: a step is data, not a closure: one list holds steps of three kinds, for a unit of any cipher and any memory.
#[derive(Clone, Copy)]
enum Step<'a> {
    Perform(Call<'a>),
    Status,
    FetchAll,
}

/// The whole story. Whatever is printed, the memory stands on the same chips as before, and their rest is as before.
pub(crate) fn tell<C: WordCipher, M: Memory>(
    rt: &HostRuntime,
    unit: &mut Unit<C, M>,
    cargo: &Cargo<'_>,
) -> anyhow::Result<()>
    ensures { M.rest unit.new.memory ≡ M.rest unit.old.memory }
{
    show_all(rt, unit, "the first key", &first_key(cargo))?;
    show_all(rt, unit, "refusals that are no strikes", &no_strikes(cargo))?;
    show_all(rt, unit, "a stranger", &stranger(cargo))?;
    show_all(rt, unit, "a newer version", &newer_version(cargo))?;
    show_all(rt, unit, "four rejections", &four_rejections(cargo))?;
    show_all(rt, unit, "a new key", &new_key(cargo))
}

fn first_key<'a>(cargo: &Cargo<'a>) -> [Step<'a>; 8] {
    [
        Step::Status,
        fetch(0x1000),
        load(),
        load(),
        fetch(0x1000),
        install(cargo.seventh),
        Step::FetchAll,
        Step::Status,
    ]
}

fn no_strikes<'a>(cargo: &Cargo<'a>) -> [Step<'a>; 5] {
    [
        fetch(0xFFC),
        fetch(0x1020),
        fetch(0x1002),
        install(cargo.foreign),
        Step::Status,
    ]
}

fn stranger<'a>(cargo: &Cargo<'a>) -> [Step<'a>; 5] {
    let old = record(cargo.seventh, 1);
    [
        overwrite(1, old ^ 1),
        fetch(0x1004),
        Step::Status,
        overwrite(1, old),
        fetch(0x1004),
    ]
}

fn newer_version<'a>(cargo: &Cargo<'a>) -> [Step<'a>; 4] {
    [
        install(cargo.eighth),
        fetch(0x1000),
        install(cargo.seventh),
        Step::Status,
    ]
}

fn four_rejections<'a>(cargo: &Cargo<'a>) -> [Step<'a>; 8] {
    [
        install(cargo.damaged),
        Step::Status,
        overwrite(6, record(cargo.eighth, 5)),
        overwrite(9, 0x1234_5678_9ABC),
        fetch(0x1018),
        fetch(0x1018),
        Step::Status,
        fetch(0x1000),
    ]
}

fn new_key<'a>(cargo: &Cargo<'a>) -> [Step<'a>; 6] {
    [
        load(),
        fetch(0x1000),
        Step::Status,
        install(cargo.seventh),
        fetch(0x1000),
        Step::Status,
    ]
}

fn load<'a>() -> Step<'a> {
    Step::Perform(Call::load(KEY))
}

fn install(image: &[u8]) -> Step<'_> {
    Step::Perform(Call::Install { image })
}

fn fetch<'a>(address: u32) -> Step<'a> {
    Step::Perform(Call::fetch(address))
}

fn overwrite<'a>(slot: u32, number: u64) -> Step<'a> {
    Step::Perform(Call::overwrite(slot, number))
}

/// Takes each step, and shows it.
fn show_all<C: WordCipher, M: Memory>(
    rt: &HostRuntime,
    unit: &mut Unit<C, M>,
    title: &str,
    steps: &[Step<'_>],
) -> anyhow::Result<()>
    ensures { M.rest unit.new.memory ≡ M.rest unit.old.memory }
{
    println!(rt; "{title}")?;
    for step in steps {
        match *step {
            Step::Perform(call) => print_call(rt, call, unit.perform(call))?,
            Step::Status => print_status(rt, unit.status())?,
            Step::FetchAll => fetch_all(rt, unit)?,
        }
    }
    Ok(())
}

/// Fetches every address of the program.
fn fetch_all<C: WordCipher, M: Memory>(
    rt: &HostRuntime,
    unit: &mut Unit<C, M>,
) -> anyhow::Result<()>
    ensures { M.rest unit.new.memory ≡ M.rest unit.old.memory }
{
    let mut same = 0u32;
    for (index, instruction) in adding_down_from(10).iter().enumerate() {
        let address = 0x1000 + 4 * index as u32;
        let answer = unit.fetch(address);
        print_call(rt, Call::fetch(address), answer)?;
        if answer == Answer::Instruction(*instruction) {
            same = same.saturating_add(1);
        }
    }
    println!(rt; "{same} of 8 as put in")?;
    Ok(())
}
