//! Requests and answers over HTTP, as functions of bytes: which requests the bytes of a connection are, what each asks, and the
//! bytes of its answer.
//!
//! The contract for the layer above: `cut` answers what `IsCut` says of the bytes that are unread so far; `Routes::find` gives
//! exactly what `route_of` has for a method and a target; `response` gives exactly the bytes that `response_bytes` has for an
//! answer. In whatever pieces bytes come, the same requests are cut from them (`pieces_give_the_same_requests`).
//!
//! The definitions are in `specs/`: `Cutting` (what is cut, by `Heads`, `Lines` and `Fields`), `Laws` (what pieces change of it),
//! `Routes` (what a request asks, by the `Parts` of its path) and `Answers` (what it is answered).
#![tactic(auto)]

mod answer;
mod cutting;
mod fields;
mod head;
mod laws;
mod lines;
mod part;
mod pattern;
mod request;
mod route;
mod routes;
mod text;
mod written;

pub use answer::{Answer, Method, RequestFault};
pub use cutting::cut;
pub use laws::pieces_give_the_same_requests;
pub use pattern::Pattern;
pub use request::{Cut, Fields, Found, Head, Length, MAX_BODY, MAX_FIELDS, MAX_HEAD, Request};
pub use route::Route;
pub use routes::Routes;
pub use text::{Listed, Said};
pub use written::response;
