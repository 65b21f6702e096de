// What a line may end with, and what it may be.

/// The sign at the end of a physical line, by which the next one is joined.
#[derive(Clone, Copy)]
pub enum Sign {
    No,
    Plus,
    Minus,
}

/// A logical line that ended. The bytes of a `Command` are read with `Joiner::line`.
/// A line of more than 8,192 bytes is `Long`.
#[derive(Clone, Copy)]
pub enum LogicalLine {
    Command,
    Long,
}
