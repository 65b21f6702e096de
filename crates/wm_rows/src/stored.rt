// What rows hold.
use wm_base::QName;
use wm_law::Command;

/// A number that goes on over the runs of a store.
#[derive(Clone, Copy)]
pub enum Counter {
    /// The next job's number.
    Number,
    /// The next place among the waiting jobs.
    Place,
    /// The form of the rows.
    Schema,
    /// The next job's serial.
    Serial,
}

/// What a row holds.
#[derive(Drop)]
pub enum Stored {
    /// An object or an entry, as the command that makes it again.
    Made(Command),
    /// That a queue is held.
    Held(QName),
    Counter(Counter, u64),
}
