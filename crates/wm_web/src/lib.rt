//! One connection over HTTP, served over the shared floor: requests are read, cut from the bytes, answered in order, and the
//! answers written.
//!
//! The contract for the layer above is that of `web_session`, which speaks of any keeper, source, sink and clock: of the bytes
//! that were taken off the source the requests are cut one after another, whatever pieces the bytes came in, each has its
//! answer, and the connection ends as the answered `WebEnd` says. A command that is called is the pass's next entry, and its
//! answer has that entry's place and says its reply; a listing is of the history that the pass has then seen.
//!
//! The definitions are in `specs/`: `Bodies` (which command a body is), `Answered` (what a request is answered, and what becomes of
//! the pass), `Session` (requests one after another), `Ends` (how a connection ends), `Serving` and
//! `Reading` (what came of the next request, and what was read for it) and `Told` (what is told of a command that was called).
#![tactic(auto)]

mod answered;
mod answering;
mod body;
mod calling;
mod end;
mod gate;
mod lines;
mod listings;
mod served;
mod serving;
mod session;
mod unread;

pub use body::Body;
pub use end::WebEnd;
pub use gate::{FreeGate, Gate};
pub use session::web_session;
