// What active jobs are counted by.
use wm_base::{Priority, QName};

/// What active jobs are counted by: their subsystem; its entry for a job queue; the same at a priority; its routing entry
/// of a number; its prestart entry for a program. The subsystem's name stands first.
#[derive(Clone, Copy, PartialEq, Eq, PartialOrd, Ord)]
pub enum Counted {
    Sbs(QName),
    Queue(QName, QName),
    Pty(QName, QName, Priority),
    Route(QName, u32),
    Pre(QName, QName),
}
