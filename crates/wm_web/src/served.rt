// What came of a request.
use crate::answered::Answered;

/// What a request was answered, whether it asks for the connection's end, and how many bytes it has.
#[derive(Drop)]
pub struct Served {
    pub answered: Answered,
    pub asks_close: bool,
    pub len: usize,
}
