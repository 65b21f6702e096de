// What is cut from the bytes of a connection.
use crate::RequestFault;

/// How many bytes a head has at the most.
pub const MAX_HEAD: usize = 8192;

/// How many fields a head has at the most.
pub const MAX_FIELDS: usize = 32;

/// How many bytes a body has at the most.
pub const MAX_BODY: usize = 8192;

/// What the Content-Length fields of a head say together.
#[derive(Clone, Copy)]
pub enum Length {
    Absent,
    Given(u32),
    /// There are two, or one that isn't 1 to 9 digits.
    Bad,
}

/// What the fields of a head say of the body and of the connection. All other fields have no effect.
#[derive(Clone, Copy)]
pub struct Fields {
    pub length: Length,
    /// There is a Transfer-Encoding field.
    pub coding: bool,
    /// There is a Connection field with the value `close`.
    pub closes: bool,
}

/// A head that was found, of so many bytes.
#[derive(Clone, Copy)]
pub struct Found<'b> {
    pub method: &'b [u8],
    pub target: &'b [u8],
    pub fields: Fields,
    /// The connection closes after the answer: HTTP/1.0, or a field says so.
    pub closes: bool,
    pub len: usize,
}

/// What bytes are as the head of a request.
#[derive(Clone, Copy)]
pub enum Head<'b> {
    Found(Found<'b>),
    /// More bytes may make them a head.
    Waits,
    Bad,
    TooLarge,
}

/// A request with its body, of so many bytes.
#[derive(Clone, Copy)]
pub struct Request<'b> {
    pub method: &'b [u8],
    pub target: &'b [u8],
    pub body: &'b [u8],
    /// The connection closes after the answer.
    pub closes: bool,
    pub len: usize,
}

/// What is cut from the bytes that are unread so far.
#[derive(Clone, Copy)]
pub enum Cut<'b> {
    /// They are no whole request yet. At most so many bytes may be read next, at least one.
    ReadOn(usize),
    Whole(Request<'b>),
    Refused(RequestFault),
}
