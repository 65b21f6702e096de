//! The shared floor: one machine with its keeper and one history, which any number of callers in any threads call; and a monitor
//! over it, which starts the jobs, kills them, and reports how they ended.
//!
//! A `StoredCore` is the machine with the keeper of its rows. A `Floor` keeps it behind the turnstile of `wm_turn`. Who calls has a
//! pass; the floor opens with pass 0, splits off one for each further caller, and closes once all of these were joined. Any number
//! of monitors may be at work beside any number of sessions, each with a pass of its own, whose number is the monitor's.
//!
//! The contract for the layer above: each answered call stands once in one legal history, in the place that it was told. A
//! contract sees a `Floor` as what it was opened with, and a pass as its number, what it has `seen` of the history, the entries
//! of its own (`mine`) and its `mark`. A call that is answered finds a history that begins with what its pass had seen, puts its
//! one entry behind that, with the pass's number, the call, its moment and the machine's reply, and tells the place and the reply;
//! the entry is then the last that the pass has seen, and the only new one of its own. A call that isn't answered leaves the pass's own
//! entries: the log is full exactly where what was found has as many entries as its limit, and the keeper's fault is answered
//! only where the pass's mark rose. A read shows the state after as many entries as it tells, which the pass has then seen and
//! which begin with what it had seen. What a pass has seen is always legal from the opened state, and has all of its own entries.
//! So the laws of `wm_law` and `wm_tables` hold of it.
//!
//! `log` gives the history itself, which the pass has then seen, as a `Log`, whose entries are shared with the floor and not
//! copied: the history stands in parts of 1,024 entries (`SharedList`), and a `Log` takes one handle for each of these, and one
//! for each entry behind them. `close` gives the whole history, which is what pass 0 has then seen, with the keeper: its tables
//! are those of the last state, and its trail is that of the history. Each pass that was joined has exactly the entries of its
//! number.
//!
//! A call, a read or a log may wait for other callers; nothing is said of how long.
//!
//! In each call of a `Monitor`, what the spawner was asked stands for what the pass's new Hands ordered, a kill that failed and was
//! tried again aside, and what the spawner told is what the pass's new entries report or the monitor keeps. No entry is idle: for
//! each Hand there was an order and for each Tick something was due in a state that the pass had seen, behind its own entry before
//! or, for the first, behind what it had seen as the call began. A turn makes at most 256 Hands, and left no order as it looked
//! last or made so many; behind that look it makes no Hand. A turn that made no entry found nothing to do.
//!
//! `StoredCore::open` gives the machine that a run opens with, and `StoredCore::step` takes one step of it, as `Core::step` of
//! `wm_core` does. It answers the reply and a copy of it, which is made before the rows are kept: an order alone needs memory for
//! that, and with none there no row is written yet. The rows that changed are made in one call of the keeper, before the answer,
//! and none is made where no row changed. So where the keeper tells its tables, they are those of the state, and its trail grows by
//! them unless they are as before. Where the keeper fails, or memory is wanting, the step is taken back: the state and the rows are
//! as before, and a keeper's fault is answered only where its count rose in that call. `StoredCore::view` gives what a reading
//! command shows of the state. A history takes a user's command while it has fewer entries than a limit that is given, and any
//! other call below 4,000,000.
//!
//! The definitions are in `specs/`, in the order of reading. Of the machine with its keeper: `Stored` (what a contract sees),
//! `Keeping` (what becomes of tables and trail), `OpenFaults` (why a machine doesn't open), and `Taken`, what is known of a step as
//! its rows are kept. Of a history: `History` (what it is, and what a call adds to it), `Trail` (which tables it has had),
//! `Journaled` (what holds of a machine with it) and `Limit` (how many entries it takes). Of the floor: `Floor` (what a contract sees
//! of a floor and its passes, and what a call does to them), `Causes` (why a call isn't made), `Ledger` (what the callers take turns
//! with, and what holds of it) and `SharedList` (a list in parts, and what holds of them). Of a monitor: `Lists` (lists that grow),
//! `Asking` (asks stand for orders), `Idle` (no entry is idle), `Monitor` (what is reported), `Scene` (what stands around a monitor),
//! `Advance` and `Attends` (what is done between two moments), `MonitorCauses` (why a call ends early), `Turned` (what waited when the
//! monitor looked last, and that there was nothing to do) and `Made` (what one call makes).
#![tactic(auto)]

mod answer;
mod asking;
mod call_fault;
mod calling;
mod copying;
mod floor;
mod keeping;
mod ledger;
mod limit;
mod log;
mod monitor;
mod monitor_fault;
mod open_fault;
mod opened;
mod opening;
mod report;
mod shared;
mod shared_list;
mod step;
mod stored;
mod viewing;

pub use answer::{Answered, View, Waiting};
pub use call_fault::CallFault;
pub use floor::{Floor, FloorPass};
pub use ledger::{Closed, Ledger};
pub use log::Log;
pub use monitor::{MONITOR, Monitor, Turned};
pub use monitor_fault::MonitorFault;
pub use open_fault::OpenFault;
pub use opened::Opened;
pub use report::Report;
pub use stored::{Replied, StoredCore};
