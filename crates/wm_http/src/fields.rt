// The fields of a head.
ghost use Rattle.std.specs.Prelude.{◌≡◌, All, length, map};
ghost use Rattle.httparse.specs.Spans.{IsHeaderWithin, header_bytes};
ghost use Rattle.wm_http.specs.Fields.{fields_in, is_word, with_field, with_length};

use crate::request::{Fields, Length};
use httparse::spans::HeaderSpan;
use wm_command::number_of;

// The same letters, in any case.
fn is_word(bytes: &[u8], word: &[u8]) -> bool
    ensures { result ≡ is_word bytes.now word.now }
{
    bytes.eq_ignore_ascii_case(word)
}

fn with_length(length: Length, value: &[u8]) -> Length
    ensures { result ≡ with_length length value.now }
{
    match length {
        Length::Absent => match number_of(1, 9, 0, 999_999_999, value) {
            Some(n) => Length::Given(n),
            None => Length::Bad,
        },
        Length::Given(_) | Length::Bad => Length::Bad,
    }
}

fn with_field(fields: Fields, name: &[u8], value: &[u8]) -> Fields
    ensures { result ≡ with_field fields (name.now, value.now) }
{
    if is_word(name, b"content-length") {
        Fields {
            length: with_length(fields.length, value),
            ..fields
        }
    } else if is_word(name, b"transfer-encoding") {
        Fields {
            coding: true,
            ..fields
        }
    } else if is_word(name, b"connection") && is_word(value, b"close") {
        Fields {
            closes: true,
            ..fields
        }
    } else {
        fields
    }
}

const NO_FIELDS: Fields = Fields {
    length: Length::Absent,
    coding: false,
    closes: false,
};

/// What the fields at these places say together.
pub fn fields_at(text: &[u8], headers: &[HeaderSpan]) -> Fields
    requires { All (IsHeaderWithin (length text.now)) headers.now }
    ensures { result ≡ fields_in (map (header_bytes text.now) headers.now) }
{
    let mut fields = NO_FIELDS;
    for header in headers {
        fields = with_field(fields, header.name.of(text), header.value.of(text));
    }
    fields
}
