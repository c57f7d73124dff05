// Two memories in turn.
ghost use Rattle.parts.specs.Parts.{interleaved, interleaved_count, interleaved_first, interleaved_second};
ghost use Rattle.parts.specs.Places.{interleaved_place};
ghost use Rattle.parts.specs.Interleaving.{interleaved-arranges};

use crate::arranged::Arranged;
use crate::arrangement::Arrangement;
use crate::place::Place;
use memory::bounds::cut;

/// Even slots from the first memory, odd ones from the second.
pub type Interleaved<E, O> = Arranged<InTurn, E, O>;

/// The arrangement of an interleaved memory.
#[derive(Clone, Copy)]
pub struct InTurn;

impl Arrangement for InTurn {
    ghost held = { interleaved };

    ghost slots = { interleaved_count };

    ghost used_first = { interleaved_first };

    ghost used_second = { interleaved_second };

    ghost place = { λ _ s. interleaved_place s };

    ghost arranges = { interleaved-arranges };

    fn slots(even: u32, odd: u32) -> u32 {
        cut(2 * even.min(odd) as usize)
    }

    fn place(_even: u32, slot: u32) -> Place {
        if slot % 2 == 0 {
            Place::First(slot / 2)
        } else {
            Place::Second(slot / 2)
        }
    }
}
