// A line's work on a unit.
ghost use Rattle.std.specs.Prelude.{◌≡◌};
ghost use Rattle.command.specs.Lines.{meaning};
ghost use Rattle.command.specs.Sessions.{Performed, Obeys, Lasts, SessionsLast};

use crate::reply::{Reply, reply_of};
use crate::words::{Command, parse};
use cipher::WordCipher;
use life::Call;
use memory::Memory;
use unit::unit::Unit;

// Makes a call of the unit.
fn perform<C: WordCipher, M: Memory>(unit: &mut Unit<C, M>, call: Call<'_>) -> Reply
    ensures did { Performed C.WordCipher M.Memory unit.old call.entry result unit.new }
    ensures rest { M.rest unit.new.memory ≡ M.rest unit.old.memory }
{
    reply_of(unit.perform(call))
}

/// Answers a line: a garbled line is refused and a status told, and neither changes anything; any other line is one call
/// of the unit, and its reply the unit's answer. So a session's history is the calls of its lines.
pub fn answer_line<C: WordCipher, M: Memory>(unit: &mut Unit<C, M>, line: &[u8]) -> Reply
    ensures did { Obeys C.WordCipher M.Memory unit.old (meaning line.now) result unit.new }
    ensures life { Lasts C.WordCipher M.Memory unit.old (meaning line.now) result unit.new }
    ensures sessions { SessionsLast C.WordCipher M.Memory }
    ensures rest { M.rest unit.new.memory ≡ M.rest unit.old.memory }
{
    do_line(unit, line)
}

// The same, with no theorem in its contract.
fn do_line<C: WordCipher, M: Memory>(unit: &mut Unit<C, M>, line: &[u8]) -> Reply
    ensures did { Obeys C.WordCipher M.Memory unit.old (meaning line.now) result unit.new }
    ensures rest { M.rest unit.new.memory ≡ M.rest unit.old.memory }
{
    let mut image = [0u8; 512];
    match parse(line, &mut image) {
        Ok(Command::Load { key }) => perform(unit, Call::load(key)),
        Ok(Command::Install { size }) => perform(
            unit,
            Call::Install {
                image: &image[..size],
            },
        ),
        Ok(Command::Fetch { address }) => perform(unit, Call::fetch(address)),
        Ok(Command::Overwrite { slot, number }) => perform(unit, Call::overwrite(slot, number)),
        Ok(Command::Status) => Reply::Status(unit.status()),
        Err(refusal) => Reply::Refused(refusal),
    }
}
