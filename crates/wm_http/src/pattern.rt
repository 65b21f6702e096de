// The patterns of paths.

/// What a path names, by its pattern.
#[derive(Clone, Copy)]
pub enum Pattern {
    Commands,
    Active,
    Subsystems,
    Log,
    Queue,
    Submitted,
    Job,
}
