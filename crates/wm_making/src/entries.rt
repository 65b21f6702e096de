// The commands that add and remove entries of subsystem descriptions.
ghost use Rattle.std.specs.Prelude.{◌≡◌, ◌&&◌, IsTrue, OnOk, OnErr, IfOk, is_some};
ghost use Rattle.std.specs.List.{list_any};
ghost use Rattle.wm_desc.specs.Ranges.{pre_in_range, queue_in_range, route_in_range};
ghost use Rattle.wm_desc.specs.Table.{object_named, same_qname};
ghost use Rattle.wm_law.specs.Making.{pre_entry_of, queue_entry_of, route_entry_of, is_in_use, add_queue, add_route, add_auto, add_pre, remove_queue, remove_route, remove_auto, remove_pre};
ghost use Rattle.wm_making.specs.Making.{state_with};

use crate::replies::{made, removed};
use crate::values::{auto_entry_of, pre_entry_of, queue_entry_of, route_entry_of};
use wm_base::{NoMemory, QName, Refusal};
use wm_desc::Objects;
use wm_law::{
    Addaje, Addjobqe, Addpje, Addrtge, Reply, Rmvaje, Rmvjobqe, Rmvpje, Rmvrtge, SbsList,
};

// Whether a started subsystem has the description.
fn is_in_use(started: &SbsList, sbsd: &QName) -> bool
    ensures { result ≡ list_any (λ b. same_qname b.sbsd sbsd.now) started.now }
{
    started.as_slice().iter().any(|sbs| sbs.sbsd == *sbsd)
}

// Whether the description is there, and its subsystem is started.
fn is_active(objects: &Objects, started: &SbsList, sbsd: &QName) -> bool
    ensures { result ≡ (is_some (object_named sbsd.now objects.now.sbsds) && is_in_use (state_with objects.now started.now) sbsd.now) }
{
    objects.sbsds.object(sbsd).is_some() && is_in_use(started, sbsd)
}

/// ADDJOBQE.
pub(crate) fn add_queue(
    objects: &mut Objects,
    started: &SbsList,
    command: &Addjobqe,
) -> Result<Reply, NoMemory>
    requires { IsTrue (queue_in_range (queue_entry_of command.now)) }
    ensures reply { IfOk result (λ r. r ≡ (add_queue (state_with objects.old started.now) command.now).reply) }
    ensures objects { OnOk result (objects.new ≡ (add_queue (state_with objects.old started.now) command.now).state.objects) }
    ensures err { OnErr result (objects.new ≡ objects.old) }
{
    if is_active(objects, started, &command.sbsd) {
        return Ok(Reply::No(Refusal::SbsActive));
    }
    let reply = made(objects.add_queue(&command.sbsd, queue_entry_of(command)))?;
    Ok(reply)
}

/// ADDRTGE.
pub(crate) fn add_route(
    objects: &mut Objects,
    started: &SbsList,
    command: &Addrtge,
) -> Result<Reply, NoMemory>
    requires { IsTrue (route_in_range (route_entry_of command.now)) }
    ensures reply { IfOk result (λ r. r ≡ (add_route (state_with objects.old started.now) command.now).reply) }
    ensures objects { OnOk result (objects.new ≡ (add_route (state_with objects.old started.now) command.now).state.objects) }
    ensures err { OnErr result (objects.new ≡ objects.old) }
{
    if is_active(objects, started, &command.sbsd) {
        return Ok(Reply::No(Refusal::SbsActive));
    }
    let entry = route_entry_of(command)?;
    let reply = made(objects.add_route(&command.sbsd, entry))?;
    Ok(reply)
}

/// ADDAJE.
pub(crate) fn add_auto(
    objects: &mut Objects,
    started: &SbsList,
    command: &Addaje,
) -> Result<Reply, NoMemory>
    ensures reply { IfOk result (λ r. r ≡ (add_auto (state_with objects.old started.now) command.now).reply) }
    ensures objects { OnOk result (objects.new ≡ (add_auto (state_with objects.old started.now) command.now).state.objects) }
    ensures err { OnErr result (objects.new ≡ objects.old) }
{
    if is_active(objects, started, &command.sbsd) {
        return Ok(Reply::No(Refusal::SbsActive));
    }
    let reply = made(objects.add_auto(&command.sbsd, auto_entry_of(command)))?;
    Ok(reply)
}

/// ADDPJE.
pub(crate) fn add_pre(
    objects: &mut Objects,
    started: &SbsList,
    command: &Addpje,
) -> Result<Reply, NoMemory>
    requires { IsTrue (pre_in_range (pre_entry_of command.now)) }
    ensures reply { IfOk result (λ r. r ≡ (add_pre (state_with objects.old started.now) command.now).reply) }
    ensures objects { OnOk result (objects.new ≡ (add_pre (state_with objects.old started.now) command.now).state.objects) }
    ensures err { OnErr result (objects.new ≡ objects.old) }
{
    if is_active(objects, started, &command.sbsd) {
        return Ok(Reply::No(Refusal::SbsActive));
    }
    let reply = made(objects.add_pre(&command.sbsd, pre_entry_of(command)))?;
    Ok(reply)
}

/// RMVJOBQE.
pub(crate) fn remove_queue(objects: &mut Objects, started: &SbsList, command: &Rmvjobqe) -> Reply
    ensures reply { result ≡ (remove_queue (state_with objects.old started.now) command.now).reply }
    ensures objects { objects.new ≡ (remove_queue (state_with objects.old started.now) command.now).state.objects }
{
    if is_active(objects, started, &command.sbsd) {
        return Reply::No(Refusal::SbsActive);
    }
    removed(objects.remove_queue(&command.sbsd, &command.jobq))
}

/// RMVRTGE.
pub(crate) fn remove_route(objects: &mut Objects, started: &SbsList, command: &Rmvrtge) -> Reply
    ensures reply { result ≡ (remove_route (state_with objects.old started.now) command.now).reply }
    ensures objects { objects.new ≡ (remove_route (state_with objects.old started.now) command.now).state.objects }
{
    if is_active(objects, started, &command.sbsd) {
        return Reply::No(Refusal::SbsActive);
    }
    removed(objects.remove_route(&command.sbsd, command.seqnbr))
}

/// RMVAJE.
pub(crate) fn remove_auto(objects: &mut Objects, started: &SbsList, command: &Rmvaje) -> Reply
    ensures reply { result ≡ (remove_auto (state_with objects.old started.now) command.now).reply }
    ensures objects { objects.new ≡ (remove_auto (state_with objects.old started.now) command.now).state.objects }
{
    if is_active(objects, started, &command.sbsd) {
        return Reply::No(Refusal::SbsActive);
    }
    removed(objects.remove_auto(&command.sbsd, &command.job))
}

/// RMVPJE.
pub(crate) fn remove_pre(objects: &mut Objects, started: &SbsList, command: &Rmvpje) -> Reply
    ensures reply { result ≡ (remove_pre (state_with objects.old started.now) command.now).reply }
    ensures objects { objects.new ≡ (remove_pre (state_with objects.old started.now) command.now).state.objects }
{
    if is_active(objects, started, &command.sbsd) {
        return Reply::No(Refusal::SbsActive);
    }
    removed(objects.remove_pre(&command.sbsd, &command.pgm))
}
