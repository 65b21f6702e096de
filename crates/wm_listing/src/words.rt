// The words of what is shown.
ghost use Rattle.std.specs.Prelude.{◌≡◌, IfOk, string_bytes};
ghost use Rattle.wm_listing.specs.Words.{status_text, kind_word, ending_word, held_word, jobq_text};

use std::alloc::Global;
use wm_base::{NoMemory, QName};
use wm_law::JobKind;
use wm_views::Status;

pub(crate) fn kind_word(kind: JobKind) -> &'static str
    ensures { result.now ≡ kind_word kind }
{
    match kind {
        JobKind::Bch => "BCH",
        JobKind::Asj => "ASJ",
        JobKind::Pj => "PJ",
    }
}

/// Whether a subsystem is ending.
pub(crate) fn ending_word(ending: bool) -> &'static str
    ensures { result.now ≡ ending_word ending }
{
    if ending { "END" } else { "ACTIVE" }
}

/// Whether a queue is held.
pub(crate) fn held_word(held: bool) -> &'static str
    ensures { result.now ≡ held_word held }
{
    if held { "HLD" } else { "RLS" }
}

/// The text of a status: an ended job's cause stands behind the word.
pub(crate) fn status_text(alloc: Global, status: &Status) -> Result<String, NoMemory>
    ensures { IfOk result (λ text. string_bytes text ≡ status_text status.now) }
{
    match status {
        Status::Hld => String::from_str(alloc, "HLD"),
        Status::Scd => String::from_str(alloc, "SCD"),
        Status::Rls => String::from_str(alloc, "RLS"),
        Status::End => String::from_str(alloc, "END"),
        Status::Start => String::from_str(alloc, "START"),
        Status::Psrw => String::from_str(alloc, "PSRW"),
        Status::Active => String::from_str(alloc, "ACTIVE"),
        Status::Ended(cause) => format!(in alloc; "ENDED {cause}"),
    }
}

/// The text of a job's queue.
pub(crate) fn jobq_text(alloc: Global, jobq: &Option<QName>) -> Result<String, NoMemory>
    ensures { IfOk result (λ text. string_bytes text ≡ jobq_text jobq.now) }
{
    match jobq {
        None => String::from_str(alloc, "*NONE"),
        Some(jobq) => jobq.to_string(alloc),
    }
}
