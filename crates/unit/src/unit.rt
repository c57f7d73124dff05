// The unit.
use crate::unit_core::Core;

/// A unit: a cipher with its standing and program, over a memory.
#[derive(Drop)]
pub struct Unit<C, M> {
    pub(crate) core: Core<C>,
    pub(crate) memory: M,
}
