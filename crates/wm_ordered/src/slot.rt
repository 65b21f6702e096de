// A slot.
use wm_base::Serial;

/// A serial that has a value, or had one.
#[derive(Clone, Copy)]
pub(crate) struct Slot<V: Copy> {
    pub(crate) serial: Serial,
    pub(crate) value: Option<V>,
}
