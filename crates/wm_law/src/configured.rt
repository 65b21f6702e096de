// What a command configures.
use wm_base::{Kind, QName};

/// What a command may change of the objects and the held queues: it makes an object of a kind, changes a subsystem
/// description, or holds or releases a queue.
#[derive(Clone, Copy)]
pub enum Configured {
    Object(Kind, QName),
    Description(QName),
    HeldQueues,
}
