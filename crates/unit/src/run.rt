// A whole life of a unit.
ghost use Rattle.std.specs.Prelude.{◌≡◌};
ghost use Rattle.life.specs.Coding.{coding};
ghost use Rattle.life.specs.Life.{Life};
ghost use Rattle.unit.specs.View.{suite_of, state_of, Keeps};

use crate::unit::Unit;
use cipher::WordCipher;
use life::{Answer, Call};
use memory::Memory;

/// Makes a unit of a cipher and a memory, performs the calls in order, as many as there are places for answers, and hands
/// back the answers in their places, and the unit.
pub fn run<C: WordCipher, M: Memory>(
    cipher: C,
    memory: M,
    calls: &[Call<'_>],
    answers: &mut [Answer],
) -> Unit<C, M>
    ensures life { Life (coding (suite_of C.WordCipher cipher)) (C.key_of cipher) (M.held memory) calls.now answers.old answers.new (state_of C.WordCipher M.Memory result) }
    ensures kept { Keeps C.WordCipher M.Memory cipher memory result }
{
    let mut unit = Unit::new(cipher, memory);
    // Stays: after a zip with `iter_mut` nothing is known of the answers written, so a call is had by its place.
    for (n, answer) in answers.iter_mut().enumerate() {
        let Some(call) = calls.get(n) else {
            break;
        };
        *answer = unit.perform(*call);
    }
    unit
}
