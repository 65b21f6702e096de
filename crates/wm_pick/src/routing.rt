// Which routing entry a job's routing data passes.
ghost use Rattle.std.specs.Prelude.{◌≡◌};
ghost use Rattle.std.specs.Option.{option_copied};
ghost use Rattle.wm_law.specs.Launch.{extended, has_value, is_match, route, entry_numbered};

use wm_base::Text;
use wm_desc::{Cmp, RouteEntry, Sbsd};

/// How many characters routing data are extended to.
const ROUTING_DATA: usize = 80;

// Routing data, extended with blanks to 80 characters.
fn extended(rtgdta: &[u8]) -> [u8; ROUTING_DATA]
    ensures { result ≡ extended rtgdta.now }
{
    let mut bytes = [b' '; ROUTING_DATA];
    let len = rtgdta.len().min(ROUTING_DATA);
    bytes[..len].copy_from_slice(&rtgdta[..len]);
    bytes
}

// Whether routing data, extended with blanks to 80 characters, have the value from a position, counted from 1.
pub(crate) fn has_value(value: &[u8], start: u32, rtgdta: &[u8]) -> bool
    ensures { result ≡ has_value value.now start rtgdta.now }
{
    let bytes = extended(rtgdta);
    let before = (start as usize).saturating_sub(1).min(ROUTING_DATA);
    bytes[before..].starts_with(value)
}

// Whether routing data passes a comparison.
fn is_match(cmp: &Cmp, rtgdta: &Text) -> bool
    ensures { result ≡ is_match cmp.now rtgdta.now }
{
    match cmp {
        Cmp::Any => true,
        Cmp::Val { value, start } => has_value(value.as_bytes(), *start, rtgdta.as_bytes()),
    }
}

/// The first routing entry, in the order of the sequence numbers, that routing data passes.
pub fn route<'a>(description: &'a Sbsd, rtgdta: &Text) -> Option<&'a RouteEntry>
    ensures { option_copied result ≡ route description.now rtgdta.now }
{
    description
        .routes
        .as_slice()
        .iter()
        .find(|entry| is_match(&entry.cmp, rtgdta))
}

// A description's routing entry of a number.
pub(crate) fn entry_numbered(description: &Sbsd, seq: u32) -> Option<&RouteEntry>
    ensures { option_copied result ≡ entry_numbered seq description.now }
{
    description.routes.get(&seq)
}
