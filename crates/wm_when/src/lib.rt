//! When a job may start: the words of a schedule, and the moment that they name.
//!
//! The contract for the layer above: `due` answers exactly by `due_of`: the moment that the words name by the calendar
//! and the local time, that it is out of range, or else that it is past. `is_date` is true exactly for the dates of the
//! calendar from 1970 to 9999, and `is_in_range` for the values that a schedule may have. The definitions are in
//! `specs/Due.antt` and `specs/Schedule.antt`.
#![tactic(auto)]

mod date;
mod days;
mod fault;
mod laws;
mod moment;
mod offset;
mod schedule;
mod words;

pub use date::{days_in_month, is_date, is_leap_year};
pub use fault::DueFault;
pub use laws::days_are_in_months;
pub use moment::{due, is_offset};
pub use offset::Offset;
pub use schedule::{DateSpec, SchedSpec, TimeSpec};
