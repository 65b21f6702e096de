// What is kept of the objects and the held queues as a call begins.
ghost use Rattle.std.specs.Prelude.{◌≡◌, IfOk};
ghost use Rattle.wm_law.specs.Configured.{is_there};
ghost use Rattle.wm_making.specs.Saved.{saved_new, saved_description, saved_as, saved_of};

use crate::Saved;
use std::alloc::Global;
use wm_base::{Kind, NoMemory, QName};
use wm_desc::{Objects, SortedList};
use wm_law::{Call, Configured, QNames};

// Whether an object of a kind is there.
fn is_there(objects: &Objects, kind: Kind, name: &QName) -> bool
    ensures { result ≡ is_there kind name.now objects.now }
{
    match kind {
        Kind::Cls => objects.classes.contains(name),
        Kind::Jobq => objects.jobqs.contains(name),
        Kind::Pgm => objects.programs.contains(name),
        Kind::Jobd => objects.jobds.contains(name),
        Kind::Sbsd => objects.sbsds.contains(name),
        _ => true,
    }
}

// An object that isn't there yet is new.
fn saved_new(objects: &Objects, kind: Kind, name: &QName) -> Saved
    ensures { result ≡ saved_new kind name.now objects.now }
{
    if is_there(objects, kind, name) {
        Saved::Nothing
    } else {
        Saved::New(kind, *name)
    }
}

// The description, where it is there.
fn saved_description(name: &QName, objects: &Objects) -> Result<Saved, NoMemory>
    ensures { IfOk result (λ saved. saved ≡ saved_description name.now objects.now) }
{
    match objects.sbsds.object(name) {
        None => Ok(Saved::Nothing),
        Some(description) => Ok(Saved::Description(*name, description.clone()?)),
    }
}

// The held queues.
fn saved_held(alloc: Global, held: &QNames) -> Result<Saved, NoMemory>
    ensures { IfOk result (λ saved. saved ≡ Saved.Held held.now) }
{
    let queues = held.as_slice().to_vec(alloc)?;
    Ok(Saved::Held(SortedList::from_vec(queues)))
}

// What may be changed, as it is.
fn saved_as(
    alloc: Global,
    objects: &Objects,
    held: &QNames,
    configured: Configured,
) -> Result<Saved, NoMemory>
    ensures { IfOk result (λ saved. saved ≡ saved_as configured objects.now held.now) }
{
    match configured {
        Configured::Object(kind, name) => Ok(saved_new(objects, kind, &name)),
        Configured::Description(name) => saved_description(&name, objects),
        Configured::HeldQueues => saved_held(alloc, held),
    }
}

/// What a call may change. An `Err` is want of memory.
pub fn saved_of(
    alloc: Global,
    objects: &Objects,
    held: &QNames,
    call: &Call,
) -> Result<Saved, NoMemory>
    ensures { IfOk result (λ saved. saved ≡ saved_of objects.now held.now call.now) }
{
    match call.configured() {
        None => Ok(Saved::Nothing),
        Some(configured) => saved_as(alloc, objects, held, configured),
    }
}
