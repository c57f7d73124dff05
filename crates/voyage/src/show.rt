// How calls, answers, refusals, the status and bytes are shown.
use cipher::Mode;
use image::check::read_header;
use life::{Answer, Call, Status};
use memory::Memory;
use std::fmt;

/// A mode, shown by its name.
#[derive(Clone, Copy)]
struct Name(Mode);

impl fmt::Display for Name {
    fn fmt<W: fmt::Write>(&self, f: &mut fmt::Formatter<W>) -> fmt::Result {
        match self.0 {
            Mode::Tagged => write!(f, "tagged"),
            Mode::Block => write!(f, "block"),
        }
    }
}

/// A call and its answer, on one line.
pub(crate) fn print_call(rt: &HostRuntime, call: Call<'_>, answer: Answer) -> anyhow::Result<()> {
    match call {
        Call::Load { .. } => print!(rt; "load: ")?,
        Call::Install { image } => print_install(rt, image)?,
        Call::Fetch { address } => print!(rt; "fetch {address:X}: ")?,
        Call::Overwrite { slot, number } => print!(rt; "overwrite {slot} with {number:012X}: ")?,
    }
    print_answer(rt, answer)
}

fn print_install(rt: &HostRuntime, image: &[u8]) -> anyhow::Result<()> {
    match read_header(image) {
        Ok(header) => {
            let version = header.version();
            let mode = Name(header.mode());
            let tag_length = header.tag_length();
            print!(rt; "install version {version}, {mode} {tag_length}: ")?;
        }
        Err(_) => print!(rt; "install no image: ")?,
    }
    Ok(())
}

pub(crate) fn print_answer(rt: &HostRuntime, answer: Answer) -> anyhow::Result<()> {
    match answer {
        Answer::Done => println!(rt; "done")?,
        Answer::Instruction(instruction) => println!(rt; "{instruction:08X}")?,
        Answer::Refused(refusal) => println!(rt; "{refusal}")?,
    }
    Ok(())
}

pub(crate) fn print_status(rt: &HostRuntime, status: Status) -> anyhow::Result<()> {
    let slots = status.slots;
    let installed = status.installed;
    let left = status.strikes_left;
    print!(rt; "status: {slots} slots, {installed} installed, {left} strikes left, ")?;
    match status.in_force {
        Some(version) => println!(rt; "version {version}")?,
        None => println!(rt; "no version")?,
    }
    Ok(())
}

/// Every slot of a memory.
pub(crate) fn print_slots<M: Memory>(rt: &HostRuntime, memory: &M) -> anyhow::Result<()> {
    for slot in 0..memory.slots() {
        match memory.read(slot) {
            Ok(number) => println!(rt; "slot {slot}: {number:012X}")?,
            Err(refusal) => println!(rt; "slot {slot}: {refusal}")?,
        }
    }
    Ok(())
}

/// Bytes or words in hexadecimal, each in that many digits, sixteen to a line.
pub(crate) fn print_words<T: fmt::Radix + Copy>(
    rt: &HostRuntime,
    words: &[T],
    digits: usize,
) -> anyhow::Result<()> {
    for line in words.chunks(16) {
        for word in line {
            print!(rt; " {word:0digits$X}")?;
        }
        println!(rt)?;
    }
    Ok(())
}
