// The unit with ChiLow.
#![tactic(auto)]

ghost use Rattle.std.specs.Prelude.{◌≡◌};
ghost use Rattle.guard.specs.Published.{published};
ghost use Rattle.life.specs.Coding.{coding};
ghost use Rattle.life.specs.Life.{Life};
ghost use Rattle.unit.specs.View.{suite_of, state_of, Keeps};

use chilow::word_cipher::ChiLow;
use cipher::WordCipher;
use life::{Answer, Call};
use memory::Memory;
use unit::run::run;
use unit::unit::Unit;

/// Makes a unit of ChiLow, in either mode, and a memory, and performs the calls as `run` does. What a record or a slot
/// decrypts to is here the published decryption, with nothing said of the cipher by its trait.
pub fn run_chilow<M: Memory>(
    cipher: ChiLow,
    memory: M,
    calls: &[Call<'_>],
    answers: &mut [Answer],
) -> Unit<ChiLow, M>
    ensures life { Life (published cipher.mode cipher.tag_bits) cipher.key (M.held memory) calls.now answers.old answers.new (state_of ⟦<ChiLow as WordCipher>⟧ M.Memory result) }
    ensures mode { result.core.cipher.mode ≡ cipher.mode }
    ensures tag { result.core.cipher.tag_bits ≡ cipher.tag_bits }
    ensures rest { M.rest result.memory ≡ M.rest memory }
{
    perform_all(cipher, memory, calls, answers)
}

// Stays: with the lemma named on `run_chilow` the check finds no proof, and an answer there hides a bug in the call.
// The same, by what the trait says of ChiLow.
fn perform_all<M: Memory>(
    cipher: ChiLow,
    memory: M,
    calls: &[Call<'_>],
    answers: &mut [Answer],
) -> Unit<ChiLow, M>
    ensures life { Life (coding (suite_of ⟦<ChiLow as WordCipher>⟧ cipher)) cipher.key (M.held memory) calls.now answers.old answers.new (state_of ⟦<ChiLow as WordCipher>⟧ M.Memory result) }
    ensures kept { Keeps ⟦<ChiLow as WordCipher>⟧ M.Memory cipher memory result }
{
    run(cipher, memory, calls, answers)
}
