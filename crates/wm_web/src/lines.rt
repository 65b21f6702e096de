// The lines of a body.
ghost use Rattle.std.specs.Prelude.{◌≡◌, ◌≤◌, ◌<◌, ◌∷◌, [], Some, IfOk, drop, length};
ghost use Rattle.wm_clwords.specs.Part.{ended_lines, lines_from};
ghost use Rattle.wm_run.specs.Parsed.{IsFitParsed};
ghost use Rattle.wm_web.specs.Bodies.{AddsLines, IsBody, IsFitBody, LinesParse, is_said, with_line};

use crate::body::Body;
use std::alloc::Global;
use wm_base::{Name, NoMemory};
use wm_clwords::{ClFault, Joiner, LogicalLine};
use wm_listing::LineFault;
use wm_run::{Parsed, parse_line};

// Whether a line isn't empty.
fn is_said(parsed: &Parsed) -> bool
    ensures { result ≡ is_said parsed.now }
{
    !matches!(parsed, Parsed::Fault(LineFault::Cl(ClFault::Empty)))
}

// A body with one line more.
fn with_line(body: Body, parsed: Parsed) -> Body
    requires body { IsFitBody body }
    requires parsed { IsFitParsed parsed }
    ensures value { result ≡ with_line body parsed }
    ensures fit { IsFitBody result }
{
    if !is_said(&parsed) {
        return body;
    }
    match body {
        Body::Nothing => Body::One(parsed),
        Body::One(_) | Body::Several => Body::Several,
    }
}

// What the line that a joiner has comes to. An `Err` is want of memory.
fn parse_joined(
    alloc: Global,
    user: &Name,
    line: LogicalLine,
    joiner: &Joiner,
) -> Result<Parsed, NoMemory>
    ensures parses { IfOk result (λ p. LinesParse user.now (ended_lines (Some line) joiner.now) (p ∷ [])) }
    ensures fit { IfOk result IsFitParsed }
{
    match line {
        LogicalLine::Command => {
            let parsed = parse_line(alloc, user, joiner.line())?;
            Ok(parsed)
        }
        LogicalLine::Long => Ok(Parsed::Fault(LineFault::Cl(ClFault::TooLong))),
    }
}

// The body with the line that a joiner has, where one ended.
fn with_joined(
    alloc: Global,
    user: &Name,
    line: Option<LogicalLine>,
    joiner: &Joiner,
    body: Body,
) -> Result<Body, NoMemory>
    requires { IsFitBody body }
    ensures adds { IfOk result (λ made. AddsLines user.now (ended_lines line joiner.now) [] body made) }
    ensures fit { IfOk result IsFitBody }
{
    let Some(line) = line else {
        return Ok(body);
    };
    let parsed = parse_joined(alloc, user, line, joiner)?;
    Ok(with_line(body, parsed))
}

// Takes bytes up to the end of a line, or all of them, and answers how many, and the body with the line that ended.
fn take_line(
    alloc: Global,
    user: &Name,
    joiner: &mut Joiner,
    piece: &[u8],
    body: Body,
) -> Result<(usize, Body), NoMemory>
    requires { IsFitBody body }
    ensures adds { IfOk result (λ r. AddsLines user.now (lines_from joiner.old piece.now) (lines_from joiner.new (drop r.0 piece.now)) body r.1) }
    ensures fit { IfOk result (λ r. IsFitBody r.1) }
    ensures within { IfOk result (λ r. r.0 ≤ length piece.now) }
    ensures progress { IfOk result (λ r. 0 < length piece.now → 0 < r.0) }
{
    let (taken, line) = joiner.feed(piece);
    let made = with_joined(alloc, user, line, joiner, body)?;
    Ok((taken, made))
}

/// What the bytes of a body come to for a user: the lines of a session, of which one alone may be no empty one. An `Err` is want of
/// memory.
pub(crate) fn body_of(alloc: Global, user: &Name, bytes: &[u8]) -> Result<Body, NoMemory>
    ensures is { IfOk result (IsBody user.now bytes.now) }
    ensures fit { IfOk result IsFitBody }
{
    let mut joiner = Joiner::new(alloc)?;
    let mut body = Body::Nothing;
    let mut at = 0;
    'lines: while at < bytes.len() {
        let (taken, made) = take_line(alloc, user, &mut joiner, &bytes[at..], body)?;
        body = made;
        at += taken;
    }
    let last = joiner.end();
    let all = with_joined(alloc, user, last, &joiner, body)?;
    Ok(all)
}
