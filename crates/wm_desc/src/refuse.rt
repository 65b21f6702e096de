// Whether a rule refuses an object or an entry.
ghost use Rattle.std.specs.Prelude.{◌≡◌, ◌∷◌, ◌++◌, []};
ghost use Rattle.wm_base.specs.declared.refusal.Kind.TheVariants as kind;
ghost use Rattle.wm_base.specs.declared.refusal.Refusal.TheVariants.{TableFull};
ghost use Rattle.wm_desc.specs.Refusals.{object_refusal, program_refusal, queue_refusal, is_any_before, any_not_last, route_refusal, auto_refusal, is_full, is_above, first_refusal, relation_tests, pre_refusal, remove_queue_refusal, remove_route_refusal, remove_auto_refusal, remove_pre_refusal};
ghost use Rattle.wm_desc.specs.Table.{is_qcmd};

use crate::{
    AutoEntry, Cmp, MAX_AUTOS, MAX_OBJECTS, MAX_PRES, MAX_QUEUES, MAX_ROUTES, Objects, PreEntries,
    PreEntry, Programs, QueueEntry, RouteEntry, Table,
};
use wm_base::{Key, Kind, Limit, Name, QName, Refusal};

/// Whether a name is QSYS/QCMD, the program that runs a job's request. It is no object.
pub fn is_qcmd(name: &QName) -> bool
    ensures { result ≡ is_qcmd name.now }
{
    name.lib.as_str() == "QSYS" && name.name.as_str() == "QCMD"
}

pub(crate) fn object_refusal<V>(objects: &Table<V>, name: &QName, kind: Kind) -> Option<Refusal>
    ensures { result ≡ object_refusal kind name.now objects.now }
{
    if objects.contains(name) {
        Some(Refusal::Exists(kind))
    } else if objects.len() >= MAX_OBJECTS {
        Some(Refusal::TableFull(kind, MAX_OBJECTS as u32))
    } else {
        None
    }
}

pub(crate) fn program_refusal(programs: &Programs, name: &QName) -> Option<Refusal>
    ensures { result ≡ program_refusal name.now programs.now }
{
    if is_qcmd(name) {
        return Some(Refusal::Exists(Kind::Pgm));
    }
    object_refusal(programs, name, Kind::Pgm)
}

pub(crate) fn queue_refusal(objects: &Objects, sbsd: &QName, entry: &QueueEntry) -> Option<Refusal>
    ensures { result ≡ queue_refusal objects.now sbsd.now entry.now }
{
    let Some(description) = objects.sbsds.object(sbsd) else {
        return Some(Refusal::NoObject(Kind::Sbsd));
    };
    if !objects.jobqs.contains(&entry.jobq) {
        Some(Refusal::NoObject(Kind::Jobq))
    } else if description.queues.has_queue(&entry.jobq) {
        Some(Refusal::Exists(Kind::Jobqe))
    } else if description.queues.contains(&entry.seq) {
        Some(Refusal::SeqUsed)
    } else if description.queues.len() >= MAX_QUEUES {
        Some(Refusal::TableFull(Kind::Jobqe, MAX_QUEUES as u32))
    } else {
        None
    }
}

// Whether an entry is *ANY and has a lesser number than another.
fn is_any_before(entry: &RouteEntry, other: &RouteEntry) -> bool
    ensures { result ≡ is_any_before entry.now other.now }
{
    entry.cmp.is_any() && entry.seq < other.seq
}

// Whether *ANY wouldn't have the greatest number, with the entry among the others.
fn any_not_last(entry: &RouteEntry, routes: &[RouteEntry]) -> bool
    ensures { result ≡ any_not_last entry.now routes.now }
{
    routes.iter().any(|other| is_any_before(entry, other) || is_any_before(other, entry))
}

pub(crate) fn route_refusal(objects: &Objects, sbsd: &QName, entry: &RouteEntry) -> Option<Refusal>
    ensures { result ≡ route_refusal objects.now sbsd.now entry.now }
{
    let Some(description) = objects.sbsds.object(sbsd) else {
        return Some(Refusal::NoObject(Kind::Sbsd));
    };
    if !is_qcmd(&entry.pgm) && !objects.programs.contains(&entry.pgm) {
        Some(Refusal::NoObject(Kind::Pgm))
    } else if !objects.classes.contains(&entry.cls) {
        Some(Refusal::NoObject(Kind::Cls))
    } else if description.routes.contains(&entry.seq) {
        Some(Refusal::SeqUsed)
    } else if any_not_last(entry, description.routes.as_slice()) {
        Some(Refusal::AnyNotLast)
    } else if description.routes.len() >= MAX_ROUTES {
        Some(Refusal::TableFull(Kind::Rtge, MAX_ROUTES as u32))
    } else {
        None
    }
}

pub(crate) fn auto_refusal(objects: &Objects, sbsd: &QName, entry: &AutoEntry) -> Option<Refusal>
    ensures { result ≡ auto_refusal objects.now sbsd.now entry.now }
{
    let Some(description) = objects.sbsds.object(sbsd) else {
        return Some(Refusal::NoObject(Kind::Sbsd));
    };
    if !objects.jobds.contains(&entry.jobd) {
        Some(Refusal::NoObject(Kind::Jobd))
    } else if description.autos.contains(&entry.job) {
        Some(Refusal::Exists(Kind::Aje))
    } else if description.autos.len() >= MAX_AUTOS {
        Some(Refusal::TableFull(Kind::Aje, MAX_AUTOS as u32))
    } else {
        None
    }
}

// Whether a number is above a limit.
fn is_above(n: u32, limit: Limit) -> bool
    ensures { result ≡ is_above n limit }
{
    match limit {
        Limit::NoMax => false,
        Limit::Most(most) => n > most,
    }
}

// Which two values of a prestart entry don't go together.
fn relation_refusal(entry: &PreEntry) -> Option<Refusal>
    ensures { result ≡ first_refusal (relation_tests entry.now) }
{
    if entry.threshold > entry.inljobs {
        Some(Refusal::BadRelation(Key::Threshold, Key::Inljobs))
    } else if is_above(entry.inljobs, entry.maxjobs) {
        Some(Refusal::BadRelation(Key::Inljobs, Key::Maxjobs))
    } else if !entry.maxjobs.admits(entry.adljobs as usize) {
        Some(Refusal::BadRelation(Key::Adljobs, Key::Maxjobs))
    } else {
        None
    }
}

// What of an entry's own values, or of how many entries there are, refuses it.
fn pre_entry_refusal(entry: &PreEntry, pres: &PreEntries) -> Option<Refusal>
    ensures { result ≡ first_refusal (relation_tests entry.now ++ (is_full 100 pres.now, TableFull kind.Pje 100) ∷ []) }
{
    if let Some(refusal) = relation_refusal(entry) {
        Some(refusal)
    } else if pres.len() >= MAX_PRES {
        Some(Refusal::TableFull(Kind::Pje, MAX_PRES as u32))
    } else {
        None
    }
}

pub(crate) fn pre_refusal(objects: &Objects, sbsd: &QName, entry: &PreEntry) -> Option<Refusal>
    ensures { result ≡ pre_refusal objects.now sbsd.now entry.now }
{
    let Some(description) = objects.sbsds.object(sbsd) else {
        return Some(Refusal::NoObject(Kind::Sbsd));
    };
    if !objects.programs.contains(&entry.pgm) {
        Some(Refusal::NoObject(Kind::Pgm))
    } else if !objects.classes.contains(&entry.cls) {
        Some(Refusal::NoObject(Kind::Cls))
    } else if description.pres.contains(&entry.pgm) {
        Some(Refusal::Exists(Kind::Pje))
    } else {
        pre_entry_refusal(entry, &description.pres)
    }
}

pub(crate) fn remove_queue_refusal(objects: &Objects, sbsd: &QName, jobq: &QName) -> Option<Refusal>
    ensures { result ≡ remove_queue_refusal objects.now sbsd.now jobq.now }
{
    match objects.sbsds.object(sbsd) {
        None => Some(Refusal::NoObject(Kind::Sbsd)),
        Some(description) if description.queues.has_queue(jobq) => None,
        Some(_) => Some(Refusal::NoObject(Kind::Jobqe)),
    }
}

pub(crate) fn remove_route_refusal(objects: &Objects, sbsd: &QName, seq: u32) -> Option<Refusal>
    ensures { result ≡ remove_route_refusal objects.now sbsd.now seq }
{
    match objects.sbsds.object(sbsd) {
        None => Some(Refusal::NoObject(Kind::Sbsd)),
        Some(description) if description.routes.contains(&seq) => None,
        Some(_) => Some(Refusal::NoObject(Kind::Rtge)),
    }
}

pub(crate) fn remove_auto_refusal(objects: &Objects, sbsd: &QName, job: &Name) -> Option<Refusal>
    ensures { result ≡ remove_auto_refusal objects.now sbsd.now job.now }
{
    match objects.sbsds.object(sbsd) {
        None => Some(Refusal::NoObject(Kind::Sbsd)),
        Some(description) if description.autos.contains(job) => None,
        Some(_) => Some(Refusal::NoObject(Kind::Aje)),
    }
}

pub(crate) fn remove_pre_refusal(objects: &Objects, sbsd: &QName, pgm: &QName) -> Option<Refusal>
    ensures { result ≡ remove_pre_refusal objects.now sbsd.now pgm.now }
{
    match objects.sbsds.object(sbsd) {
        None => Some(Refusal::NoObject(Kind::Sbsd)),
        Some(description) if description.pres.contains(pgm) => None,
        Some(_) => Some(Refusal::NoObject(Kind::Pje)),
    }
}
