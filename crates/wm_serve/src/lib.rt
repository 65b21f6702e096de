//! A server: its threads, and `serve`. A worker serves one connection after another, a monitor starts jobs and reports their ends,
//! each in a thread with a pass of its own of one shared floor.
//!
//! The contract for the program is that of `serve`, over any listener, store, spawners and clocks. Its clause `log` says what the
//! history of a server is whose floor was opened. It is a legal one from a state of the rows that were found, in which no start
//! passes a limit (autostart jobs against MAXJOBS aside), jobs are launched in their order and none is started twice; the tables
//! that are left are those of its last state. Of each seat's number it has exactly the entries of that seat's pass: a worker's are
//! users' commands, those of the connections that its desk tells as new, each served as `web_session` of `wm_web` says; what a
//! monitor's spawner was asked and told stands for its own; and what is left are the server's own calls, which start the
//! controlling subsystem and may put the power down. At status 0 no job is active, and either no connection can come any more or a
//! worker's PWRDWNSYS was accepted. Other clauses say the cause of each other status, which path of the store is opened, and that
//! what is written is `ready`, or the first bytes of it.
//!
//! Below it, in the order of the way of a server: `whole_server` (words, store, floor), `serving` (its first call, its rounds of
//! threads, the end of power), `seating` (seats take passes and give them back), `threads` (what each thread makes of its seat,
//! and all at once), `worker` and `attendant` (the work itself). What the threads tell each other (`board`) no contract speaks of.
//!
//! The definitions are in `specs/`, in the order of reading: `Connections` (what a thread does), `Seats` and `Seating`
//! (seats, their passes, and a seat between two moments), `Halts` and `Ending` (why a part ends early), `Parts`, `Over` (what a
//! server calls itself, and how it is over where its status is 0), `Done` (what each seat did, as the history tells it), `Server`
//! (what a whole server makes of its rows, and its statuses) and `Laws` (what follows for the servers of one store).
#![tactic(auto)]

mod attendant;
mod board;
mod crew;
mod halt;
mod laws;
mod seat;
mod seating;
mod serving;
mod threads;
mod whole_server;
mod worker;

pub use attendant::attend;
pub use board::Board;
pub use crew::Crew;
pub use laws::{bad_rows_do_not_serve, servers_make_chains};
pub use seat::{MonitorSeat, Seat, WorkerSeat};
pub use whole_server::{Served, serve};
pub use worker::{Stopped, work};
