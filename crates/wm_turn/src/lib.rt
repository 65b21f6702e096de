//! A turnstile: threads take turns with one value, and what it stands for is one history.
//!
//! The value's type implements `Standing`: it stands for an opening value and a list of entries, each of which has the number of
//! the pass that made it, and names a fact that both meet. `Turnstile::new` makes a turnstile of a value that stands for no
//! entry, and pass 0. `split` makes further passes, numbered from 1 on, one for each thread.
//!
//! The contract for the layer above: a contract sees a `Pass` as its turnstile and number, the opening value, what it has `seen`
//! of the history, the entries of its own (`mine`), its `mark`, and whether it has its turn; of pass 0 also how many passes were
//! made and, of each that was joined, its number and its entries. `enter` waits for the pass's turn and gives the value: what it
//! stands for begins with what the pass had seen, which then has seen all of it. `leave` gives the value back, with no new entry
//! or with one of this pass, which then stands in `seen` and in `mine`; the pass's mark rises as the value's did in this turn,
//! and at no other place but a `join`. `join` takes a pass back: pass 0 has then seen the longer of the two lists, both of which
//! it begins with, has the greater mark, and keeps the other's number and entries. `recall` tells that what a pass has seen meets
//! the fact and has exactly its own entries. `close` gives the value back exactly where no other pass is out: pass 0 has seen
//! all of its history, each pass that was joined has the entries of its number, and no entry has another number.
//!
//! A turn ends by `leave` alone. A pass can't be dropped, joined or used to close while it has its turn; a thread that keeps the
//! value for ever stops all others. Nothing is said of how long `enter` waits.
//!
//! The definitions are in `specs/`: `Passed` (what a contract sees of a pass), `Rule` (what holds between any two steps), `Kinds`
//! (what each kind of step tells), `Views` (what a seat knows) and `Held` (what a pass keeps beside its seat). Why it is right
//! stands in `docs/TURNSTILE.md`.
#![tactic(auto)]

mod pass;
mod plays;
mod sleepers;
mod standing;
mod steps;
mod turns;
mod turnstile;
mod view;

pub use pass::Pass;
pub use standing::Standing;
pub use turnstile::Turnstile;
