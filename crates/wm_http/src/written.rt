// The bytes of responses.
ghost use Rattle.std.specs.Prelude.{◌≡◌, ◌++◌, codes, decimal, string_bytes, length, IfOk};
ghost use Rattle.wm_http.specs.Answers.{allow_line, body, close_line, closes, closes_after, content_type, error_json, fault_status, fault_text, head_text, reply_json, response_bytes, response_head, status};

use crate::{Answer, RequestFault};
use http::StatusCode;
use serde_json::json;
use std::alloc::Global;
use wm_base::NoMemory;

fn fault_status(fault: RequestFault) -> StatusCode
    ensures { result ≡ fault_status fault }
{
    match fault {
        RequestFault::Head => StatusCode::BAD_REQUEST,
        RequestFault::HeadTooLarge => StatusCode::REQUEST_HEADER_FIELDS_TOO_LARGE,
        RequestFault::TransferEncoding => StatusCode::NOT_IMPLEMENTED,
        RequestFault::Length => StatusCode::BAD_REQUEST,
        RequestFault::TooLarge => StatusCode::PAYLOAD_TOO_LARGE,
        RequestFault::LengthRequired => StatusCode::LENGTH_REQUIRED,
    }
}

fn fault_text(fault: RequestFault) -> &'static str
    ensures { result.now ≡ fault_text fault }
{
    match fault {
        RequestFault::Head => "HEAD",
        RequestFault::HeadTooLarge => "HEAD TOO LARGE",
        RequestFault::TransferEncoding => "TRANSFER ENCODING",
        RequestFault::Length => "LENGTH",
        RequestFault::TooLarge => "TOO LARGE",
        RequestFault::LengthRequired => "LENGTH REQUIRED",
    }
}

fn status(answer: &Answer) -> StatusCode
    ensures { result ≡ status answer.now }
{
    match answer {
        Answer::Accepted(..) | Answer::Listing(_) => StatusCode::OK,
        Answer::BadCommand(_) | Answer::SeveralCommands => StatusCode::BAD_REQUEST,
        Answer::BadRequest(fault) => fault_status(*fault),
        Answer::NoRoute => StatusCode::NOT_FOUND,
        Answer::WrongMethod(_) => StatusCode::METHOD_NOT_ALLOWED,
        Answer::Refused(..) | Answer::RefusedRead(_) => StatusCode::CONFLICT,
        Answer::KeeperFault | Answer::LogFull(_) => StatusCode::SERVICE_UNAVAILABLE,
        Answer::NoMemory => StatusCode::INSUFFICIENT_STORAGE,
    }
}

fn reply_json(alloc: Global, place: u64, line: &str) -> Result<String, NoMemory>
    ensures { IfOk result (λ text. string_bytes text ≡ reply_json place line.now) }
{
    json!(in alloc; {"place": place, "reply": line})?.to_string(alloc)
}

fn error_json(alloc: Global, error: &str) -> Result<String, NoMemory>
    ensures { IfOk result (λ text. string_bytes text ≡ error_json error.now) }
{
    json!(in alloc; {"error": error})?.to_string(alloc)
}

fn log_full(alloc: Global, limit: u64) -> Result<String, NoMemory>
    ensures { IfOk result (λ text. string_bytes text ≡ error_json (codes "LOGFULL " ++ decimal limit)) }
{
    let error = format!(in alloc; "LOGFULL {limit}")?;
    error_json(alloc, error.as_str())
}

// The body of an answer, the bytes of a listing or JSON.
fn body(alloc: Global, answer: &Answer) -> Result<Vec<u8>, NoMemory>
    ensures { IfOk result (λ bytes. bytes.items ≡ body answer.now) }
{
    let json = match answer {
        Answer::Listing(listed) => return listed.as_bytes().to_vec(alloc),
        Answer::Accepted(place, line) => reply_json(alloc, *place, line.as_str())?,
        Answer::BadCommand(line) => error_json(alloc, line.as_str())?,
        Answer::SeveralCommands => error_json(alloc, "ONE COMMAND")?,
        Answer::BadRequest(fault) => error_json(alloc, fault_text(*fault))?,
        Answer::NoRoute => error_json(alloc, "NO ROUTE")?,
        Answer::WrongMethod(_) => error_json(alloc, "METHOD")?,
        Answer::Refused(place, line) => reply_json(alloc, *place, line.as_str())?,
        Answer::RefusedRead(line) => error_json(alloc, line.as_str())?,
        Answer::KeeperFault => error_json(alloc, "KEEPERFAULT")?,
        Answer::LogFull(limit) => log_full(alloc, *limit)?,
        Answer::NoMemory => error_json(alloc, "NOMEMORY")?,
    };
    Ok(json.into_bytes())
}

fn content_type(answer: &Answer) -> &'static str
    ensures { result.now ≡ content_type answer.now }
{
    match answer {
        Answer::Listing(_) => "text/plain",
        _ => "application/json",
    }
}

fn allow_line(alloc: Global, answer: &Answer) -> Result<String, NoMemory>
    ensures { IfOk result (λ text. string_bytes text ≡ allow_line answer.now) }
{
    match answer {
        Answer::WrongMethod(method) => format!(in alloc; "Allow: {method}\r\n"),
        _ => Ok(String::new(alloc)),
    }
}

fn close_line(closes: bool) -> &'static str
    ensures { result.now ≡ close_line closes }
{
    if closes { "Connection: close\r\n" } else { "" }
}

impl Answer {
    /// Whether the connection closes after the answer, whatever the request said.
    pub fn closes(&self) -> bool
        ensures { result ≡ closes self.now }
    {
        matches!(self, Answer::BadRequest(_))
    }

    /// Whether it closes after the answer, where the request or the session may ask for it.
    pub fn closes_after(&self, asked: bool) -> bool
        ensures { result ≡ closes_after self.now asked }
    {
        asked || self.closes()
    }
}

#[tactic(auto, unfolding(crate::specs::Answers::head_text))]
fn head_text(
    alloc: Global,
    status: StatusCode,
    kind: &str,
    len: usize,
    allow: &str,
    close: &str,
) -> Result<String, NoMemory>
    ensures { IfOk result (λ text. string_bytes text ≡ head_text status kind.now len allow.now close.now) }
{
    format!(in alloc;
        "HTTP/1.1 {status}\r\nContent-Type: {kind}\r\nContent-Length: {len}\r\n{allow}{close}\r\n"
    )
}

fn response_head(
    alloc: Global,
    answer: &Answer,
    len: usize,
    closes: bool,
) -> Result<String, NoMemory>
    requires { len ≡ length (body answer.now) }
    ensures { IfOk result (λ text. string_bytes text ≡ response_head answer.now closes) }
{
    let allow = allow_line(alloc, answer)?;
    let close = close_line(answer.closes_after(closes));
    head_text(
        alloc,
        status(answer),
        content_type(answer),
        len,
        allow.as_str(),
        close,
    )
}

/// The bytes of an answer, where the connection closes if the answer or the caller says so. An `Err` is want of memory.
/// The form of the head is RFC 9112's; which fields it has is this project's own profile.
pub fn response(alloc: Global, answer: &Answer, closes: bool) -> Result<Vec<u8>, NoMemory>
    ensures { IfOk result (λ bytes. bytes.items ≡ response_bytes answer.now closes) }
{
    let body = body(alloc, answer)?;
    let head = response_head(alloc, answer, body.len(), closes)?;
    let mut bytes = head.into_bytes();
    bytes.extend_from_slice(&body)?;
    Ok(bytes)
}
