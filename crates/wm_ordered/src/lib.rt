//! Two ordered maps whose room is taken beforehand, and the jobs that wait, which are kept in them.
//!
//! The contract for the layer above: an `Ordered<K, V>` and a `Slots<V>` are each the list of its pairs in ascending order of
//! their keys, each key once. `insert`, `remove` and `set` take no memory; room for pairs is taken by `reserve` alone, and
//! told by `spare`.
//! `Ordered` is for any keys, in any order. Its format: a pair is a node of one vector, with the places of its two sides there;
//! a place whose pair was taken out is kept for the next one. What always holds: side, pair, side, read from the left, are the
//! pairs in ascending order, and no two nodes share a place. Its algorithm is that of a treap: each node has a weight, mixed of
//! its place, and none is lighter than those below it, so that the tree is on average some two times the logarithm of the pairs
//! deep, whatever the order of the keys. To put a pair in, go down past heavier nodes, and cut what lies below there into what
//! comes before the pair and behind it (`edit.rt`). To take it out, join its two sides. No other node is moved. That weights
//! fall on each way down, and so how deep the tree is, is not proved, since no clause says how long a call takes.
//! `Slots` is for serials that mostly ascend as they are put in. Its pairs lie in one vector. A pair that is taken out leaves
//! its slot empty, so that no other is moved, and a serial that is put in again takes its old slot. Where serials follow one
//! another a slot is found by one look, and else by halves. Where all slots are in use the empty ones are let go. As `reserve`
//! has taken twice the room, at least half of them are empty then, so that this costs each change a constant in the mean.
//!
//! `WaitingJobs` is seen as the list of its jobs in the order of their serials, the greatest moment that was made due, and for
//! how many more jobs there is room. Of those of a queue and a priority that may have their turn, the one of least place is the
//! head. `next_head` answers the head of the first priority from one on that has one, by one look; `first_on` the first of all on
//! a queue, held and early ones too, and `next_on` the next behind one of them, by one look each; `next_due` the least moment
//! that is to come. `replace` changes a job in its place. Room is taken by `reserve` alone. No call goes through the jobs but
//! `turn_back`, which turns the clock back.
//!
//! The definitions are in `specs/`. Of the maps: `Ordered` has what a contract sees of a map, and what is found in it, `Tree` how a
//! search tree lies among nodes in one vector, `Slots` what lies in slots, `Least` which of some moments is the least. Of the jobs
//! that wait: `Waiting` has what a contract sees, `NextHeads` which head is the next, `WaitingInside` what lies in a
//! `WaitingJobs`.
#![tactic(auto)]

mod bringing;
mod edit;
mod find;
mod following;
mod indexes;
mod keys;
mod links;
mod moving;
mod next;
mod node;
mod ordered;
mod places;
mod slot;
mod slot_edit;
mod slot_find;
mod slots;
mod turning;
mod waiter;
mod waiting;
mod weight;

pub use ordered::Ordered;
pub use slots::Slots;
pub use waiter::Waiter;
pub use waiting::WaitingJobs;
