//! The stored rows: of objects, entries, held queues and counters, and of jobs.
//!
//! The contract for the layer above: `command_row` gives the row of the object or the entry that a command makes, `held_row`
//! that of a held queue and `counter_row` that of a counter. `read_row` reads exactly these rows, each as the thing that it
//! is the row of. The row of an object or an entry holds the command that makes it again, in its canonical text, under the
//! key of what that command makes. A row is deleted by its `Place`. `job_row` gives the row of what is stored of a job, and
//! `read_job` gives a stored job exactly where a row is the row of one, and that one.
//!
//! The definitions are in `specs/`. Of the rows of things: `Places` (a thing's table
//! and key), `Rows` (the row of a thing), `Tables` (all rows of the objects, the held queues and the counters), `Fitting` (which
//! things are read). Of a job's row: `Stored` (what is stored of a job, and its ranges) and `JobText` (its text and its row).
//! `Reading` and `Scan` are a second definition of that, by steps: where the values stand in a text that is taken for that of a
//! job. What stands around them isn't looked at, since `read_job` prints what was read and compares it with the row.
#![tactic(auto)]

mod body;
mod counter;
mod held;
mod kept;
mod laws;
mod line;
mod pieces;
mod place;
mod places;
mod printing;
mod reading;
mod row;
mod rows;
mod scan;
mod stored;
mod stored_job;
mod values;

pub use counter::{counter_row, counter_word};
pub use held::held_row;
pub use kept::stored_phase;
pub use laws::{commands_have_rows, things_are_made_again};
pub use place::{COUNTERS, HELD, Place, QUEUE_ENTRIES, ROUTE_ENTRIES};
pub use places::{auto_place, numbered_place, object_place, pre_place};
pub use reading::read_row;
pub use row::{job_row, read_job};
pub use rows::command_row;
pub use stored::{Counter, Stored};
pub use stored_job::{StoredJob, StoredPhase};
