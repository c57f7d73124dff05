// Making an image from all its instructions at once.
ghost use Rattle.std.specs.Prelude.{◌≡◌, ◌+◌, ◌≤◌, false, length, take, IfOk, IfErr, Some, MatchResult};
ghost use Rattle.image.specs.Layout.{image_length};
ghost use Rattle.shore.specs.Drafting.{keyed_by, draft_head, foreign, open_refusal};
ghost use Rattle.shore.specs.Making.{PutAll, Made, image_of, Lists, KeptPast, Chain};

use crate::draft::{ClosedDraft, Draft};
use cipher::WordCipher;
use refusal::Refusal;

/// Makes an image of the instructions at the start of the buffer, as a draft that is opened, filled and closed.
pub fn make_image<C: WordCipher>(
    cipher: &C,
    version: u32,
    base: u32,
    instructions: &[u32],
    buffer: &mut [u8],
) -> Result<ClosedDraft, Refusal>
    ensures answer { Lists (keyed_by C.WordCipher cipher.now) version base instructions.now buffer.old buffer.new result }
    ensures made { IfOk result (λ closed. Made (keyed_by C.WordCipher cipher.now) version base instructions.now (take closed.length buffer.new)) }
    ensures image { IfOk result (λ closed. take closed.length buffer.new ≡ image_of (keyed_by C.WordCipher cipher.now) version base instructions.now) }
    ensures kept { IfOk result (λ closed. KeptPast closed.length buffer.old buffer.new) }
{
    draft_all(cipher, version, base, instructions, buffer)
}

// A draft that is opened, filled and closed.
fn draft_all<C: WordCipher>(
    cipher: &C,
    version: u32,
    base: u32,
    instructions: &[u32],
    buffer: &mut [u8],
) -> Result<ClosedDraft, Refusal>
    ensures chain { IfOk result (Chain (keyed_by C.WordCipher cipher.now) version base instructions.now buffer.old buffer.new) }
    ensures refused { IfErr result (λ e. (open_refusal (keyed_by C.WordCipher cipher.now) version base (length instructions.now) buffer.old ≡ Some e) × (buffer.new ≡ buffer.old)) }
{
    let count = u32::try_from(instructions.len()).map_err(|_| Refusal::BadDraft)?;
    let opened = Draft::open(cipher, version, base, count, buffer)?;
    let filled = put_all(opened, cipher, instructions, buffer)?;
    Ok(filled.close(buffer)?)
}

// Puts the instructions one after the other, where there is room for all of them.
fn put_all<C: WordCipher>(
    mut draft: Draft,
    cipher: &C,
    instructions: &[u32],
    buffer: &mut [u8],
) -> Result<Draft, Refusal>
    requires own { foreign (keyed_by C.WordCipher cipher.now) (draft_head draft) ≡ false }
    requires few { draft.put + length instructions.now ≤ (draft_head draft).count }
    requires room { image_length (draft_head draft) ≤ length buffer.old }
    ensures all { MatchResult result (λ e. PutAll (keyed_by C.WordCipher cipher.now) draft buffer.old instructions.now e buffer.new) (λ _. ⊥) }
    ensures full { IfOk result (λ e. (draft_head e ≡ draft_head draft) × (e.put ≡ draft.put + length instructions.now)) }
{
    for instruction in instructions {
        draft = draft.put(cipher, *instruction, buffer)?;
    }
    Ok(draft)
}
