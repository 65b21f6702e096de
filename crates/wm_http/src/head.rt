// Heads.
ghost use Rattle.std.specs.Prelude.{◌≡◌};
ghost use Rattle.wm_http.specs.Heads.{IsHead, IsParsed, ended, front};

use crate::fields::fields_at;
use crate::lines::behind_fields;
use crate::{Found, Head, MAX_FIELDS, MAX_HEAD};
use httparse::spans::{EMPTY_HEADER_SPAN, parse_request};
use httparse::{Error, Status};

// What the grammar alone says of a text.
fn parsed(text: &[u8]) -> Head<'_>
    ensures { IsParsed text.now result }
{
    let mut headers = [EMPTY_HEADER_SPAN; MAX_FIELDS];
    match parse_request(text, &mut headers) {
        Ok(Status::Complete(spans)) => {
            let fields = fields_at(text, &headers[..spans.headers]);
            Head::Found(Found {
                method: spans.method.of(text),
                target: spans.path.of(text),
                fields,
                closes: spans.version == 0 || fields.closes,
                len: spans.len,
            })
        }
        Ok(Status::Partial) => Head::Waits,
        Err(Error::TooManyHeaders) => Head::TooLarge,
        Err(_) => Head::Bad,
    }
}

fn ended(head: Head<'_>) -> Head<'_>
    ensures { result ≡ ended head.entry }
{
    match head {
        Head::Found(found) => Head::Found(found),
        Head::Waits => Head::TooLarge,
        Head::Bad => Head::Bad,
        Head::TooLarge => Head::TooLarge,
    }
}

// What of bytes may be a head.
#[tactic(auto, using(crate::proofs::HeadLemmas::front_all))]
fn front(bytes: &[u8]) -> &[u8]
    ensures { result.now ≡ front bytes.now }
{
    if bytes.len() > MAX_HEAD {
        &bytes[..MAX_HEAD]
    } else {
        bytes
    }
}

/// What bytes are as a head. The limits are this project's own profile, the grammar is RFC 9112's as `httparse` has it.
pub fn head_of(bytes: &[u8]) -> Head<'_>
    ensures { IsHead bytes.now result }
{
    let text = front(bytes);
    match behind_fields(text) {
        Some(rest) => ended(parsed(&text[..text.len() - rest.len()])),
        None if bytes.len() >= MAX_HEAD => ended(parsed(text)),
        None => parsed(text),
    }
}
