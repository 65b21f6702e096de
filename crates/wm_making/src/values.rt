// The objects and entries that commands describe.
ghost use Rattle.std.specs.Prelude.{◌≡◌, IfOk};
ghost use Rattle.wm_law.specs.Making.{class_of, jobd_of, queue_entry_of, route_entry_of, auto_entry_of, pre_entry_of};

use wm_base::{Class, NoMemory};
use wm_desc::{AutoEntry, Jobd, PreEntry, QueueEntry, RouteEntry};
use wm_law::{Addaje, Addjobqe, Addpje, Addrtge, Crtcls, Crtjobd};

pub(crate) fn queue_entry_of(command: &Addjobqe) -> QueueEntry
    ensures { result ≡ queue_entry_of command.now }
{
    QueueEntry {
        seq: command.seqnbr,
        jobq: command.jobq,
        maxact: command.maxact,
        maxpty: command.maxpty,
    }
}

pub(crate) fn route_entry_of(command: &Addrtge) -> Result<RouteEntry, NoMemory>
    ensures { IfOk result (λ entry. entry ≡ route_entry_of command.now) }
{
    Ok(RouteEntry {
        seq: command.seqnbr,
        cmp: command.cmpval.clone()?,
        pgm: command.pgm,
        cls: command.cls,
        maxact: command.maxact,
        poolid: command.poolid,
    })
}

pub(crate) fn auto_entry_of(command: &Addaje) -> AutoEntry
    ensures { result ≡ auto_entry_of command.now }
{
    AutoEntry {
        job: command.job,
        jobd: command.jobd,
    }
}

pub(crate) fn pre_entry_of(command: &Addpje) -> PreEntry
    ensures { result ≡ pre_entry_of command.now }
{
    PreEntry {
        pgm: command.pgm,
        strjobs: command.strjobs,
        inljobs: command.inljobs,
        threshold: command.threshold,
        adljobs: command.adljobs,
        maxjobs: command.maxjobs,
        maxuse: command.maxuse,
        wait: command.wait,
        cls: command.cls,
        poolid: command.poolid,
    }
}

pub(crate) fn class_of(command: &Crtcls) -> Class
    ensures { result ≡ class_of command.now }
{
    Class {
        runpty: command.runpty,
        timeslice: command.timeslice,
        dftwait: command.dftwait,
    }
}

pub(crate) fn jobd_of(command: &Crtjobd) -> Result<Jobd, NoMemory>
    ensures { IfOk result (λ jobd. jobd ≡ jobd_of command.now) }
{
    Ok(Jobd {
        jobq: command.jobq,
        pty: command.jobpty,
        rtgdta: command.rtgdta.clone()?,
        rqsdta: match &command.rqsdta {
            None => None,
            Some(text) => Some(text.clone()?),
        },
        hold: command.hold,
    })
}
