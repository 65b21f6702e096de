// The commands whose objects an empty store opens with, as values.
ghost use Rattle.std.specs.Prelude.{◌≡◌, IfOk};
ghost use Rattle.wm_law.specs.Opening.{crtcls_qbatch, crtpgmref_echo, crtjobq_qbatch, crtjobd, crtjobd_qdftjobd, crtjobd_qbatch, crtsbsd_qbatch, addjobqe_qbatch, addrtge_qbatch, opening_commands};

use std::alloc::Global;
use wm_base::{Limit, Name, NoMemory, Priority, QName, Text};
use wm_desc::{Cmp, echo, qbatch, qdftjobd};
use wm_law::{Addjobqe, Addrtge, Command, Crtcls, Crtjobd, Crtjobq, Crtpgmref, Crtsbsd};

// CRTCLS QBATCH.
fn crtcls_qbatch() -> Crtcls
    ensures { result ≡ crtcls_qbatch }
{
    Crtcls {
        cls: qbatch(),
        runpty: 50,
        timeslice: 2000,
        dftwait: Limit::Most(30),
    }
}

// CRTPGMREF PGM(ECHO) PATH('/bin/echo').
fn crtpgmref_echo(alloc: Global) -> Result<Crtpgmref, NoMemory>
    ensures { IfOk result (λ command. command ≡ crtpgmref_echo) }
{
    Ok(Crtpgmref {
        pgm: echo(),
        path: Text::from_bytes(alloc, b"/bin/echo")?,
    })
}

// CRTJOBQ QBATCH.
fn crtjobq_qbatch() -> Crtjobq
    ensures { result ≡ crtjobq_qbatch }
{
    Crtjobq { jobq: qbatch() }
}

// CRTJOBD with its defaults.
fn crtjobd(alloc: Global, jobd: QName) -> Result<Crtjobd, NoMemory>
    ensures { IfOk result (λ command. command ≡ crtjobd jobd) }
{
    Ok(Crtjobd {
        jobd,
        jobq: qbatch(),
        jobpty: Priority::new(5),
        rtgdta: Text::from_bytes(alloc, b"QCMDI")?,
        rqsdta: None,
        hold: false,
    })
}

// CRTJOBD QDFTJOBD.
fn crtjobd_qdftjobd(alloc: Global) -> Result<Crtjobd, NoMemory>
    ensures { IfOk result (λ command. command ≡ crtjobd_qdftjobd) }
{
    let command = crtjobd(alloc, qdftjobd())?;
    Ok(command)
}

// CRTJOBD QBATCH.
fn crtjobd_qbatch(alloc: Global) -> Result<Crtjobd, NoMemory>
    ensures { IfOk result (λ command. command ≡ crtjobd_qbatch) }
{
    let command = crtjobd(alloc, qbatch())?;
    Ok(command)
}

// CRTSBSD QBATCH.
fn crtsbsd_qbatch() -> Crtsbsd
    ensures { result ≡ crtsbsd_qbatch }
{
    Crtsbsd {
        sbsd: qbatch(),
        maxjobs: Limit::NoMax,
    }
}

// ADDJOBQE SBSD(QBATCH) JOBQ(QBATCH).
fn addjobqe_qbatch() -> Addjobqe
    ensures { result ≡ addjobqe_qbatch }
{
    Addjobqe {
        sbsd: qbatch(),
        jobq: qbatch(),
        maxact: Limit::Most(1),
        seqnbr: 10,
        maxpty: [Limit::NoMax; 9],
    }
}

// ADDRTGE SBSD(QBATCH) SEQNBR(9999) CMPVAL(*ANY) PGM(QSYS/QCMD) CLS(QBATCH).
fn addrtge_qbatch() -> Addrtge
    ensures { result ≡ addrtge_qbatch }
{
    Addrtge {
        sbsd: qbatch(),
        seqnbr: 9999,
        cmpval: Cmp::Any,
        pgm: QName {
            lib: Name::of(b"QSYS"),
            name: Name::of(b"QCMD"),
        },
        cls: qbatch(),
        maxact: Limit::NoMax,
        poolid: 1,
    }
}

/// The commands whose objects an empty store opens with, in their order. An `Err` is want of memory.
pub fn opening_commands(alloc: Global) -> Result<[Command; 8], NoMemory>
    ensures { IfOk result (λ commands. commands ≡ opening_commands) }
{
    let program = crtpgmref_echo(alloc)?;
    let default = crtjobd_qdftjobd(alloc)?;
    let batch = crtjobd_qbatch(alloc)?;
    Ok([
        Command::Crtcls(crtcls_qbatch()),
        Command::Crtpgmref(program),
        Command::Crtjobq(crtjobq_qbatch()),
        Command::Crtjobd(default),
        Command::Crtjobd(batch),
        Command::Crtsbsd(crtsbsd_qbatch()),
        Command::Addjobqe(addjobqe_qbatch()),
        Command::Addrtge(addrtge_qbatch()),
    ])
}
