//! Which job starts next, and what becomes of it: the choice and the launch, over lent parts of the machine's state; and how many
//! active jobs count against each limit.
//!
//! The contract for the layer above: `Parts::first` and `Parts::next` are the definitions `first` and `next` of
//! `wm_law` (`specs/Choice.antt` there), `route` is `route`, `Parts::launched` and `Parts::order_of` are
//! `routed_from_queue` and `order_of` (`specs/Launch.antt`). A contract sees the parts as a state that has them (`specs/Parts.antt`).
//!
//! A `Tally` is the tally of a list of hows (`IsTally`) where each count is the number of these hows that name the key.
//! `Tally::start` makes it the tally of one how more and `Tally::end` of one less, without memory; `Tally::count` answers a count.
//! Room is taken by `Tally::reserve` alone, and told by `spare`.
//!
//! The definitions go over all jobs, and the code over none: it reads the jobs that wait and the tally, which are lent
//! beside the jobs and are theirs (`IsLent`). `laws.rt` has what that rests on: the first of a subsystem is the head of its
//! first open entry (`specs/Heads.antt`); `tallied.rt` has that a tally has the counts of the jobs. In `specs/`, `Counted` has what
//! a how names, `Tally` what a contract sees of a tally, `Tallied` the counts of jobs by the tally of their hows.
#![tactic(auto)]

mod choice;
mod counted;
mod keys;
mod launch;
mod laws;
mod lent;
mod order;
mod parts;
mod routing;
mod tallied;
mod tally;
mod tally_rows;

pub use counted::Counted;
pub use laws::heads_are_first;
pub use parts::Parts;
pub use routing::route;
pub use tallied::tally_has_counts;
pub use tally::Tally;
