// What a floor answers.
use wm_law::{Pending, Reply};
use wm_views::Shown;

/// What a call was answered: the place of its entry, counted from 1, and the machine's reply.
#[derive(Drop)]
pub struct Answered {
    pub place: u32,
    pub reply: Reply,
}

/// What is shown of the state after so many entries.
#[derive(Drop)]
pub struct View {
    pub at: u32,
    pub shown: Shown,
}

/// What waits for a monitor after so many entries.
#[derive(Clone, Copy)]
pub struct Waiting {
    pub at: u32,
    pub pending: Pending,
}
