// Reading a text in apostrophes.
ghost use Rattle.std.specs.Prelude.{◌≡◌, ◌≤◌, ◌<◌, ◌^◌, IfOk, OnOk, IfSome, length, fold};
ghost use Rattle.wm_rows.specs.Scan.{begun, scanned, quoted_by, quoted_of};

use std::alloc::Global;
use wm_base::{NoMemory, Text, is_text};
use wm_law::ListOf;

/// What is known behind some bytes of a text in apostrophes.
#[derive(Drop)]
pub struct Scan {
    /// The text so far.
    pub text: ListOf<u8>,
    /// Whether the last byte is an apostrophe that ends the text, or is the first of two.
    pub quote: bool,
    /// Whether the text has ended.
    pub ended: bool,
    /// How many bytes there are up to the end, with its apostrophe.
    pub len: usize,
}

/// A text, and how many bytes it has up to its end, with that apostrophe.
#[derive(Drop)]
pub struct Quoted {
    pub text: Text,
    pub len: usize,
}

fn begun(alloc: Global) -> Scan
    ensures { result ≡ begun }
{
    Scan {
        text: ListOf::new(alloc),
        quote: false,
        ended: false,
        len: 0,
    }
}

fn step(scan: &mut Scan, byte: u8) -> Result<(), NoMemory>
    requires { scan.old.len < usize.MAX }
    ensures { OnOk result (scan.new ≡ scanned scan.old byte) }
{
    if scan.ended {
        return Ok(());
    }
    match (byte == b'\'', scan.quote) {
        (true, false) => scan.quote = true,
        (false, true) => {
            scan.ended = true;
            return Ok(());
        }
        (_, _) => {
            scan.text.push(byte)?;
            scan.quote = false;
        }
    }
    scan.len += 1;
    Ok(())
}

fn scan_all(alloc: Global, text: &[u8]) -> Result<Scan, NoMemory>
    ensures value { IfOk result (λ s. s ≡ fold scanned begun text.now) }
    ensures short { IfOk result (λ s. s.len ≤ length text.now) }
{
    let mut scan = begun(alloc);
    for byte in text {
        step(&mut scan, *byte)?;
    }
    Ok(scan)
}

fn quoted_by(alloc: Global, scan: &Scan) -> Result<Option<Quoted>, NoMemory>
    ensures { IfOk result (λ o. o ≡ quoted_by scan.now) }
{
    let bytes = scan.text.as_slice();
    if !is_text(bytes) {
        return Ok(None);
    }
    let text = Text::from_bytes(alloc, bytes)?;
    Ok(Some(Quoted {
        text,
        len: scan.len,
    }))
}

/// The text that stands from behind its first apostrophe on.
#[tactic(auto, unfolding(crate::specs::Scan::quoted_of))]
pub fn quoted_of(alloc: Global, text: &[u8]) -> Result<Option<Quoted>, NoMemory>
    ensures value { IfOk result (λ o. o ≡ quoted_of text.now) }
    ensures short { IfOk result (λ o. IfSome o (λ q. q.len ≤ length text.now)) }
{
    let scan = scan_all(alloc, text)?;
    let quoted = quoted_by(alloc, &scan)?;
    Ok(quoted)
}
