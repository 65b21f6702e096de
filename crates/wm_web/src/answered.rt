// What a request was answered.
use wm_http::Answer;

/// What a request was answered, whether the floor was called for it, and whether the power went down.
#[derive(Drop)]
pub struct Answered {
    pub answer: Answer,
    pub called: bool,
    pub down: bool,
}
