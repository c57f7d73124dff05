// Replies, and their text.
ghost use Rattle.std.specs.Prelude.{◌≡◌, IfOk, Some, string_bytes};
ghost use Rattle.command.specs.Replies.{reply_of, share_of, text_of};

use life::{Answer, Status};
use refusal::{Note, Refusal};
use std::alloc::{AllocError, Global};
use std::fmt;

/// What a line is answered.
#[derive(Clone, Copy)]
pub enum Reply {
    Done,
    Instruction(u32),
    Refused(Refusal),
    Status(Status),
}

/// The reply that tells a unit's answer.
impl From<Answer> for Reply {
    ghost from_gives = { λ answer reply. reply ≡ reply_of answer };

    fn from(answer: Answer) -> Reply {
        match answer {
            Answer::Done => Reply::Done,
            Answer::Instruction(instruction) => Reply::Instruction(instruction),
            Answer::Refused(refusal) => Reply::Refused(refusal),
        }
    }
}

/// The reply that tells a unit's answer.
pub fn reply_of(answer: Answer) -> Reply
    ensures { result ≡ reply_of answer }
{
    answer.into()
}

/// The share of the slots that is in use, in thousandths, rounded down; 0 with no slots.
pub fn share_of(installed: u32, slots: u32) -> u64
    ensures { result ≡ share_of installed slots }
{
    if slots == 0 {
        0
    } else {
        1000 * u64::from(installed) / u64::from(slots)
    }
}

impl fmt::Display for Reply {
    ghost output = { λ reply. Some (text_of reply) };

    #[tactic(auto, using(crate::proofs::Texts::eight))]
    fn fmt<W: fmt::Write>(&self, f: &mut fmt::Formatter<W>) -> fmt::Result {
        match *self {
            Reply::Done => writeln!(f, "ok"),
            Reply::Instruction(instruction) => writeln!(f, "ok {instruction:08X}"),
            Reply::Refused(refusal) => {
                let Note { number, place, .. } = refusal.note();
                writeln!(f, "no {number} {place}")
            }
            Reply::Status(status) => {
                let Status {
                    slots,
                    installed,
                    strikes_left,
                    ..
                } = status;
                let share = share_of(installed, slots);
                writeln!(
                    f,
                    "slots {slots} used {installed} share {share} left {strikes_left}"
                )
            }
        }
    }
}

/// The text of a reply, with the line feed that ends it.
pub fn text_of(heap: Global, reply: Reply) -> Result<String, AllocError>
    ensures { IfOk result (λ s. string_bytes s ≡ text_of reply) }
{
    // Stays: this text is written out, since `to_string` takes half as long again for it.
    match reply {
        Reply::Done => String::from_str(heap, "ok\n"),
        _ => reply.to_string(heap),
    }
}
