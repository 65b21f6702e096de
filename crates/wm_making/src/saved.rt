// What is kept of the objects and the held queues, so that a step can be taken back.
use wm_base::{Kind, QName};
use wm_desc::Sbsd;
use wm_law::QNames;

/// What a call may change of the objects and the held queues, as it was before: nothing, an object that wasn't there, the
/// description of a subsystem, or the held queues.
#[derive(Drop)]
pub enum Saved {
    Nothing,
    New(Kind, QName),
    Description(QName, Sbsd),
    Held(QNames),
}
