// Two memories, one after the other.
ghost use Rattle.parts.specs.Parts.{joined, joined_count, joined_first, joined_second};
ghost use Rattle.parts.specs.Places.{joined_place};
ghost use Rattle.parts.specs.Joining.{joined-arranges};

use crate::arranged::Arranged;
use crate::arrangement::Arrangement;
use crate::place::Place;
use memory::bounds::cut;

/// The first memory's slots, then the second's.
pub type Joined<F, S> = Arranged<EndToEnd, F, S>;

/// The arrangement of a joined memory.
#[derive(Clone, Copy)]
pub struct EndToEnd;

impl Arrangement for EndToEnd {
    ghost held = { joined };

    ghost slots = { joined_count };

    ghost used_first = { joined_first };

    ghost used_second = { joined_second };

    ghost place = { joined_place };

    ghost arranges = { joined-arranges };

    fn slots(first: u32, second: u32) -> u32 {
        cut(first as usize + second as usize)
    }

    fn place(first: u32, slot: u32) -> Place {
        if slot < first {
            Place::First(slot)
        } else {
            Place::Second(slot - first)
        }
    }
}
