// Answers.
use crate::text::{Listed, Said};
use std::fmt;

/// A method that a route has.
#[derive(Clone, Copy, Debug)]
pub enum Method {
    Get,
    Post,
}

impl fmt::Display for Method {
    ghost use Rattle.std.specs.Prelude.{Some};
    ghost use Rattle.wm_http.specs.Answers.{method_name};

    ghost output = { λ method. Some (method_name method) };

    fn fmt<W: fmt::Write>(&self, f: &mut fmt::Formatter<W>) -> fmt::Result {
        match self {
            Method::Get => f.write_str("GET"),
            Method::Post => f.write_str("POST"),
        }
    }
}

/// Why bytes are no request that is answered further. Each closes the connection, since where the next request would
/// begin isn't known.
#[derive(Clone, Copy, Debug)]
pub enum RequestFault {
    /// No head of HTTP/1.0 or 1.1.
    Head,
    /// More than 32 fields, or no whole head in 8,192 bytes.
    HeadTooLarge,
    /// A Transfer-Encoding field.
    TransferEncoding,
    /// Content-Length twice, or not of 1 to 9 digits.
    Length,
    /// A body of more than 8,192 bytes.
    TooLarge,
    /// POST without Content-Length.
    LengthRequired,
}

/// What a request is answered. This project's own table of statuses.
#[derive(Drop)]
pub enum Answer {
    /// A command that was accepted: its place in the log, and the reply's line.
    Accepted(u64, Said),
    /// The lines of a listing, each with its line feed.
    Listing(Listed),
    /// The line of a fault in the command's text.
    BadCommand(Said),
    /// More than one logical line where one command is asked.
    SeveralCommands,
    BadRequest(RequestFault),
    NoRoute,
    /// The route has this method.
    WrongMethod(Method),
    /// A command that the machine refused: its place in the log, and the reply's line.
    Refused(u64, Said),
    /// A listing that was refused: the reply's line.
    RefusedRead(Said),
    /// The store failed.
    KeeperFault,
    /// The log has so many entries as it may have.
    LogFull(u64),
    NoMemory,
}
