//! The job table: the jobs of the machine, and what they are found and counted by.
//!
//! The contract for the layer above: a `JobTable` is seen as the list of its jobs in the order of their serials, the moment
//! up to which waiting jobs are due, the next serial and place, and for how many more jobs there is room. No call goes through
//! the jobs; `clear` goes through those alone that it ends, `first_kill` and `kills` through the kills that are yet to be handed.
//! Room is taken by `reserve` and `reserve_changes` alone. `stored` makes the table of the jobs that a store has, one after the
//! other.
//! A table also keeps what was done to its jobs since its mark: each call but `mark` leaves what it was then, `touched` tells
//! which jobs may have changed and how they stood, and `take_back` makes of the table what it was, without memory.
//!
//! Format: the jobs in one vector in the order of their serials; beside it the jobs that wait, the active ones with what of their
//! wishes acts, those of them that came by prestart entries with whether they can take a request, the tally of the active ones,
//! those that wait for a monitor, how many aren't prestart jobs, and which of them a command names; and, since the mark, a note
//! for each change of a job with how it stood before. What always holds: each of these has exactly the jobs of the list that it
//! is about, and the list at the mark is the first so many of the jobs with each note undone, the newest first. Algorithm: a job
//! that is there changes by `restand` alone, which notes how it stood and has the others follow; to take back, the jobs that came
//! since leave, the last first, and each note is undone in the same way, in the room that its change left.
//!
//! The definitions are in `specs/`: `Table` has what a contract sees, `Marked` what a table was at its mark, `Indexed` what
//! jobs are found and counted by, `Standings` how a job may come to stand and what becomes of these then, `Stored` what is
//! asked of the jobs of a store, `TableInside` what lies in a table, with how its jobs stood since the mark.
//! A job that is there changes by `restand` alone (`restanding`), and what it is found and counted by follows (`following`).
#![tactic(auto)]

mod acting;
mod clearing;
mod counts;
mod following;
mod idle;
mod marking;
mod naming;
mod phases;
mod places;
mod prestart;
mod restanding;
mod stored;
mod table;
mod touched;
mod undoing;
mod using;
mod waiting;
mod wished;
mod wishing;

pub use table::JobTable;
pub use touched::{Standing, Touched};
