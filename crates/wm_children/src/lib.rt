//! The system's spawner: child programs, each waited for by a thread that blocks on it.
//!
//! The contract for the layer above is that of `Spawner` of `wm_traits`. Nothing is polled: a start hands the child to a
//! thread that waits for it, and the end comes back over a channel, from which a look takes what is there and a wait sleeps.
//! Neither asks the system about each child.
//!
//! A spawner has a bell, which any thread may ring: a wait until a moment then ends with nothing, so that who waits can look
//! what was done meanwhile. A ring crosses the channel of the ends. One is in it at the most: who rings sets a mark, and
//! sends only where it wasn't set; who hears the ring takes the mark away before he goes on. So no ring is lost between a
//! look and a wait, the room of the channel grows by one, and no end waits behind rings. A look and a wait without a moment
//! aren't ended by a ring; one that they meet is kept for the next wait until a moment.
//!
//! In the order of reading: a child with the job that it was started for (`running`), how it ended (`finished`), what
//! starts it (`command`, `launch`), what a clock told (`reading`), the bell and what crosses the channel (`bell`), the
//! channel of the ends (`ends`), the threads (`waiters`), who is out (`started`) and the spawner (`spawner`). What crosses the channel says in its type that its exit
//! is what std told of that child; no clause says that a thread runs or that a message comes, so that ends are seen is
//! tested (`wm_test_outside`).
//!
//! What the promises rest on, each a call that no clause describes in full:
//!
//! - `Command::spawn`: the program runs as the command says, once; an `Err` has started nothing.
//! - `Stdio::null`: the child has no input, and what it writes is dropped.
//! - `Child::id`, `os::kill_child`: SIGKILL goes to the child with that number, and to no other process; 0 says that it was
//!   sent, and `os::errno` else why not.
//! - `Child::wait`: it blocks until this child has ended, and its Ok is how; an `Err` says that the system can't tell.
//! - `ExitStatus::code`: its bits are the system's.
//! - `thread::spawn`: the thread runs; an `Err` says that none could be made.
//! - `Sender::send`, `Receiver::recv`, `iter`, `try_recv`, `recv_timeout`: what is sent is received once, by one thread, and a
//!   send into a channel with room doesn't wait.
//! - `recv_timeout`: it comes back when its time is over, or sooner when something is sent.
//! - `AtomicBool::swap`, `store`: all threads see them in one order, with what each thread did before.
//! - `Clock::since_1970`: it is the time.
#![tactic(auto)]

mod bell;
mod command;
mod ends;
mod finished;
mod launch;
mod reading;
mod running;
mod spawner;
mod started;
mod waiters;

pub use bell::Bell;
pub use spawner::SysSpawner;
