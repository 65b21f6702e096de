// What the values of options say.
ghost use Rattle.std.specs.Prelude.{◌≡◌, ◌<◌, ◌≤◌, IsTrue, IfSome, length, neg_ℤ, pos};
ghost use Rattle.wm_when.specs.Schedule.{within};
ghost use Rattle.wm_plan.specs.Values.{addr_of, colon_at, digits, listen_of, minutes_in, minutes_of, number_of, offset_of, push_digit, qname_of, ranged_of, slash_at};

use crate::{Addr, ListenAt};
use wm_base::{QName, name_of};
use wm_when::Offset;

// How many bytes stand before the first slash.
fn slash_at(text: &[u8]) -> usize
    ensures value { result ≡ slash_at text.now }
    ensures within { result ≤ length text.now }
{
    text.iter().take_while(|byte| **byte != b'/').count()
}

/// `LIB/NAME`.
pub fn qname_of(text: &[u8]) -> Option<QName>
    ensures { result ≡ qname_of text.now }
{
    let at = slash_at(text);
    if at >= text.len() {
        return None;
    }
    let lib = name_of(&text[..at])?;
    let name = name_of(&text[at + 1..])?;
    Some(QName { lib, name })
}

fn push_digit(n: Option<u64>, byte: u8) -> Option<u64>
    ensures { result ≡ push_digit n byte }
{
    let n = n?;
    if !byte.is_ascii_digit() {
        return None;
    }
    n.checked_mul(10)?.checked_add((byte - b'0') as u64)
}

// The number that digits write.
#[tactic(auto, unfolding(crate::specs::Values::digits))]
fn digits(text: &[u8]) -> Option<u64>
    ensures { result ≡ digits text.now }
{
    text.iter().fold(Some(0), |n, byte| push_digit(n, *byte))
}

/// A number of 1 to 20 digits.
pub fn number_of(text: &[u8]) -> Option<u64>
    ensures { result ≡ number_of text.now }
{
    if 1 <= text.len() && text.len() <= 20 {
        digits(text)
    } else {
        None
    }
}

/// The same, from low to high.
pub fn ranged_of(low: u32, high: u32, text: &[u8]) -> Option<u32>
    ensures value { result ≡ ranged_of low high text.now }
    ensures range { IfSome result (λ n. IsTrue (within low high n)) }
{
    let n = number_of(text)?;
    if low as u64 <= n && n <= high as u64 {
        Some(n as u32)
    } else {
        None
    }
}

fn minutes_in(n: Option<u64>) -> Option<u32>
    ensures value { result ≡ minutes_in n }
    ensures range { IfSome result (λ minutes. minutes < 1440) }
{
    let n = n?;
    let hours = n / 100;
    let minutes = n % 100;
    if hours < 24 && minutes < 60 {
        Some((hours * 60 + minutes) as u32)
    } else {
        None
    }
}

fn minutes_of(text: &[u8]) -> Option<u32>
    ensures value { result ≡ minutes_of text.now }
    ensures range { IfSome result (λ minutes. minutes < 1440) }
{
    if text.len() == 4 {
        minutes_in(digits(text))
    } else {
        None
    }
}

// So many minutes ahead of UTC.
fn east(minutes: u32) -> Offset
    requires { minutes < 1440 }
    ensures { result ≡ pos minutes }
{
    Offset::new(minutes as i32)
}

// So many minutes behind UTC.
fn west(minutes: u32) -> Offset
    requires { minutes < 1440 }
    ensures { result ≡ neg_ℤ (pos minutes) }
{
    Offset::new(-(minutes as i32))
}

// The address that a server may listen at.
fn addr_of(text: &[u8]) -> Option<Addr>
    ensures { result ≡ addr_of text.now }
{
    if text == b"127.0.0.1".as_slice() {
        Some(Addr::Ip)
    } else if text == b"localhost".as_slice() {
        Some(Addr::Localhost)
    } else {
        None
    }
}

// How many bytes stand before the first colon.
fn colon_at(text: &[u8]) -> usize
    ensures value { result ≡ colon_at text.now }
    ensures within { result ≤ length text.now }
{
    text.iter().take_while(|byte| **byte != b':').count()
}

/// `ADDR:PORT`.
pub fn listen_of(text: &[u8]) -> Option<ListenAt>
    ensures { result ≡ listen_of text.now }
{
    let at = colon_at(text);
    if at >= text.len() {
        return None;
    }
    let addr = addr_of(&text[..at])?;
    let port = ranged_of(0, 65535, &text[at + 1..])?;
    Some(ListenAt {
        addr,
        port: port as u16,
    })
}

/// Minutes ahead of UTC as `E0000`, or behind it as `W0000`.
pub fn offset_of(text: &[u8]) -> Option<Offset>
    ensures { result ≡ offset_of text.now }
{
    match text {
        [b'E', time @ ..] => Some(east(minutes_of(time)?)),
        [b'W', time @ ..] => Some(west(minutes_of(time)?)),
        _ => None,
    }
}
