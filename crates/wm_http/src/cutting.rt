// Requests with their bodies.
ghost use Rattle.std.specs.Prelude.{◌≡◌, Some, None};
ghost use Rattle.wm_http.specs.Cutting.{IsCut, body_len, fields_fault, is_post};
ghost use Rattle.wm_http.specs.Heads.{IsHead};
ghost use Rattle.wm_http.specs.declared.request.Head.TheVariants as head;

use crate::head::head_of;
use crate::{Cut, Fields, Found, Head, Length, MAX_BODY, MAX_HEAD, Request, RequestFault};

fn is_post(method: &[u8]) -> bool
    ensures { result ≡ is_post method.now }
{
    method == b"POST".as_slice()
}

fn body_len(length: Length) -> usize
    ensures { result ≡ body_len length }
{
    match length {
        Length::Given(n) => n as usize,
        Length::Absent | Length::Bad => 0,
    }
}

// Why a request with these fields is answered no further.
fn fields_fault(method: &[u8], fields: Fields) -> Option<RequestFault>
    ensures { result ≡ fields_fault method.now fields }
{
    if fields.coding {
        return Some(RequestFault::TransferEncoding);
    }
    match fields.length {
        Length::Bad => Some(RequestFault::Length),
        Length::Given(n) if n as usize > MAX_BODY => Some(RequestFault::TooLarge),
        Length::Absent if is_post(method) => Some(RequestFault::LengthRequired),
        Length::Given(_) | Length::Absent => None,
    }
}

// What is cut where a head was found.
fn cut_behind<'b>(bytes: &'b [u8], found: Found<'b>) -> Cut<'b>
    requires { IsHead bytes.now (head.Found found) }
    ensures { IsCut bytes.now result }
{
    if let Some(fault) = fields_fault(found.method, found.fields) {
        return Cut::Refused(fault);
    }
    let len = found.len + body_len(found.fields.length);
    if bytes.len() < len {
        return Cut::ReadOn(len - bytes.len());
    }
    Cut::Whole(Request {
        method: found.method,
        target: found.target,
        body: &bytes[found.len..len],
        closes: found.closes,
        len,
    })
}

/// What is cut from the bytes that are unread so far: a request, or how many bytes may be read on, or why they are
/// refused. The order of the tests is this project's own.
pub fn cut(bytes: &[u8]) -> Cut<'_>
    ensures { IsCut bytes.now result }
{
    match head_of(bytes) {
        Head::Waits => Cut::ReadOn(MAX_HEAD - bytes.len()),
        Head::Bad => Cut::Refused(RequestFault::Head),
        Head::TooLarge => Cut::Refused(RequestFault::HeadTooLarge),
        Head::Found(found) => cut_behind(bytes, found),
    }
}
