// What a unit knows besides its memory.
ghost use Rattle.std.specs.Prelude.{◌≤◌};
ghost use Rattle.unit.specs.Standing.{live_strikes};

use crate::standing::Standing;
use image::header::Header;

/// A cipher, how it stands, and the header of the program installed under it.
#[derive(Drop)]
pub struct Core<C> {
    pub(crate) cipher: C,
    pub(crate) standing: Standing,
    pub(crate) program: Option<Header>,
    ghost few: { live_strikes standing ≤ 3 },
}
