// How a connection ends.

/// How a connection ends.
#[derive(Clone, Copy, Debug)]
pub enum WebEnd {
    /// The input ended between two requests, or an answer closed the connection.
    Done,
    /// The input ended inside a request.
    CutShort,
    /// The connection has answered 10,000 requests, as many as one may have.
    Budget,
    /// A PWRDWNSYS of the connection was accepted.
    PowerDown,
    ReadFault,
    WriteFault,
    NoMemory,
}
