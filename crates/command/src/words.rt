// A line cut into its words, and the command that they make.
ghost use Rattle.std.specs.Prelude.{◌≡◌, ◌-◌, ◌≤◌, true, length, IfOk, MatchResult};
ghost use Rattle.command.specs.Forms.{complete};
ghost use Rattle.command.specs.Laws.{Judged};
ghost use Rattle.command.specs.Lines.{command_of, meaning, said_by, commanded, meant, Sized, LiesAt, Lies, Spared, Within};

use crate::digits::{put_bytes, value_of};
use crate::forms::{Form, check_line};
use refusal::Refusal;

/// A word of a line: its digits, and the place of the first of them.
#[derive(Clone, Copy)]
pub struct Word<'a> {
    pub digits: &'a [u8],
    pub place: usize,
}

/// The words of a line.
#[derive(Clone, Copy)]
pub enum Words<'a> {
    Key(Word<'a>),
    Image(Word<'a>),
    Address(Word<'a>),
    Write { slot: Word<'a>, number: Word<'a> },
    Nothing,
}

/// What a line commands. The bytes of an image stand in a buffer, as many as the size says.
// Stays: no slice of the buffer in the command. Tried with the buffer lent as a slice, as an array and as a struct: what it
// holds once the command is done with is not proved where the slice goes out in an enum.
#[derive(Clone, Copy)]
pub enum Command {
    Load { key: u128 },
    Install { size: usize },
    Fetch { address: u32 },
    Overwrite { slot: u32, number: u64 },
    Status,
}

// The word of a line from a place up to another.
fn word_at(line: &[u8], place: usize, end: usize) -> Word<'_>
    requires ordered { place ≤ end }
    requires inside { end ≤ length line.now }
    ensures long { length result.digits.now ≡ end - place }
    ensures lies { LiesAt line.now result }
    ensures place { result.place ≡ place }
{
    Word {
        digits: &line[place..end],
        place,
    }
}

// Cuts a line of a form.
fn cut<'a>(form: Form, line: &'a [u8]) -> Words<'a>
    requires long { complete form (length line.now) ≡ true }
    requires short { length line.now ≤ 1024 }
    ensures says { said_by result ≡ command_of form line.now }
    ensures sized { Sized result }
    ensures lies { Lies line.now result }
{
    match form {
        Form::Key => Words::Key(word_at(line, 2, 34)),
        Form::Image => Words::Image(word_at(line, 2, line.len())),
        Form::Fetch => Words::Address(word_at(line, 2, 10)),
        Form::Write => Words::Write {
            slot: word_at(line, 2, 7),
            number: word_at(line, 8, 20),
        },
        Form::Status => Words::Nothing,
    }
}

// The command of cut words, with the bytes of an image put into a buffer.
fn command_of(words: Words<'_>, image: &mut [u8; 512]) -> Command
    requires { Sized words }
    ensures says { commanded result image.new ≡ said_by words.entry }
    ensures within { Within result }
    ensures spared { Spared result image.old image.new }
{
    match words {
        Words::Key(word) => Command::Load {
            key: value_of(word.digits),
        },
        Words::Image(word) => {
            put_bytes(word.digits, image);
            Command::Install {
                size: word.digits.len() / 2,
            }
        }
        Words::Address(word) => Command::Fetch {
            address: value_of(word.digits) as u32,
        },
        Words::Write { slot, number } => Command::Overwrite {
            slot: value_of(slot.digits) as u32,
            number: value_of(number.digits) as u64,
        },
        Words::Nothing => Command::Status,
    }
}

/// What a line commands, or the place at which it is garbled: the length of the longest beginning that it shares with
/// some allowed line. The bytes of an image are put into the buffer.
pub fn parse(line: &[u8], image: &mut [u8; 512]) -> Result<Command, Refusal>
    ensures means { meant result image.new ≡ meaning line.now }
    ensures within { IfOk result Within }
    ensures spared { MatchResult result (λ command. Spared command image.old image.new) (λ _. image.new ≡ image.old) }
    ensures law { Judged line.now }
{
    let form = check_line(line)?;
    Ok(command_of(cut(form, line), image))
}
