// What a listener answers.

/// What a listener answers to a worker.
#[derive(Drop)]
pub enum Next<I, O> {
    /// A connection: where its bytes come from, and where its bytes go to.
    Here(I, O),
    /// No connection can come any more.
    Dry,
    /// The listener was closed.
    Closed,
}
