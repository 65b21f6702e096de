// What a drill counts.

/// How many jobs were submitted, how many completed, and how many wait.
#[derive(Clone, Copy)]
pub struct Counts {
    pub submitted: usize,
    pub completed: usize,
    pub waiting: usize,
}
