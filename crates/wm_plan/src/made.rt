// The plans that the values of options make.
ghost use Rattle.std.specs.Prelude.{◌≡◌, Err, IfOk, IfSome, IsTrue, None, Some};
ghost use Rattle.std.specs.Option.{option_copied};
ghost use Rattle.wm_when.specs.Schedule.{within};
ghost use Rattle.wm_plan.specs.Plans.{IsFitServe, ctl_said, jobs_said, limit_said, listen_said, made_drill, made_run, made_serve, monitors_said, offset_said, seed_said, store_said, user_said, workers_said};

use crate::values::{listen_of, number_of, offset_of, qname_of, ranged_of};
use crate::{DrillPlan, ListenAt, PathText, RunPlan, ServePlan, WordFault};
use std::alloc::Global;
use wm_base::{Name, QName, name_of};
use wm_desc::qbatch;
use wm_when::Offset;

// The path of the store.
fn store_said(value: Option<&str>) -> Option<&str>
    ensures { option_copied result ≡ store_said (option_copied value.entry) }
{
    match value {
        None => Some(":memory:"),
        Some(path) => { if path.is_empty() { None } else { Some(path) } }
    }
}

// The controlling subsystem.
fn ctl_said(value: Option<&str>) -> Option<QName>
    ensures { result ≡ ctl_said (option_copied value.entry) }
{
    match value {
        None => Some(qbatch()),
        Some(text) => qname_of(text.as_bytes()),
    }
}

// The user of the commands.
fn user_said(value: Option<&str>) -> Option<Name>
    ensures { result ≡ user_said (option_copied value.entry) }
{
    match value {
        None => Some(Name::of(b"QUSER")),
        Some(text) => name_of(text.as_bytes()),
    }
}

// How far local time is ahead of UTC.
fn offset_said(value: Option<&str>) -> Option<Offset>
    ensures { result ≡ offset_said (option_copied value.entry) }
{
    match value {
        None => Some(Offset::new(0)),
        Some(text) => offset_of(text.as_bytes()),
    }
}

// How many entries the history may have for one more command.
fn limit_said(value: Option<&str>) -> Option<u32>
    ensures value { result ≡ limit_said (option_copied value.entry) }
    ensures range { IfSome result (λ n. IsTrue (within 1 1000000 n)) }
{
    match value {
        None => Some(1_000_000),
        Some(text) => ranged_of(1, 1_000_000, text.as_bytes()),
    }
}

// Where a server listens.
fn listen_said(value: Option<&str>) -> Option<ListenAt>
    ensures { result ≡ listen_said (option_copied value.entry) }
{
    match value {
        None => None,
        Some(text) => listen_of(text.as_bytes()),
    }
}

// The number of a server's workers.
fn workers_said(value: Option<&str>) -> Option<u32>
    ensures value { result ≡ workers_said (option_copied value.entry) }
    ensures range { IfSome result (λ n. IsTrue (within 1 16 n)) }
{
    match value {
        None => Some(2),
        Some(text) => ranged_of(1, 16, text.as_bytes()),
    }
}

// The number of a server's monitors.
fn monitors_said(value: Option<&str>) -> Option<u32>
    ensures value { result ≡ monitors_said (option_copied value.entry) }
    ensures range { IfSome result (λ n. IsTrue (within 1 8 n)) }
{
    match value {
        None => Some(1),
        Some(text) => ranged_of(1, 8, text.as_bytes()),
    }
}

// The seed of a drill.
fn seed_said(value: Option<&str>) -> Option<u64>
    ensures { result ≡ seed_said (option_copied value.entry) }
{
    match value {
        None => None,
        Some(text) => number_of(text.as_bytes()),
    }
}

// The number of a drill's jobs.
fn jobs_said(value: Option<&str>) -> Option<u32>
    ensures value { result ≡ jobs_said (option_copied value.entry) }
    ensures range { IfSome result (λ n. IsTrue (within 1 5000 n)) }
{
    match value {
        None => None,
        Some(text) => ranged_of(1, 5000, text.as_bytes()),
    }
}

/// The values of the options of `run`, where they are given.
#[derive(Clone, Copy)]
pub struct RunValues<'a> {
    pub store: Option<&'a str>,
    pub ctl: Option<&'a str>,
    pub user: Option<&'a str>,
    pub offset: Option<&'a str>,
    pub limit: Option<&'a str>,
}

/// The plan of a run.
pub fn made_run(alloc: Global, values: RunValues<'_>) -> Result<RunPlan, WordFault>
    ensures ok { IfOk result (λ plan. made_run (store_said (option_copied values.entry.store)) (ctl_said (option_copied values.entry.ctl))
        (user_said (option_copied values.entry.user)) (offset_said (option_copied values.entry.offset)) (limit_said (option_copied values.entry.limit)) ≡ Some plan) }
    ensures bad { result ≡ Err WordFault.Bad → made_run (store_said (option_copied values.entry.store)) (ctl_said (option_copied values.entry.ctl))
        (user_said (option_copied values.entry.user)) (offset_said (option_copied values.entry.offset)) (limit_said (option_copied values.entry.limit)) ≡ None }
    ensures fit { IfOk result (λ plan. IsTrue (within 1 1000000 plan.log_limit)) }
{
    let Some(store) = store_said(values.store) else {
        return Err(WordFault::Bad);
    };
    let Some(ctl) = ctl_said(values.ctl) else {
        return Err(WordFault::Bad);
    };
    let Some(user) = user_said(values.user) else {
        return Err(WordFault::Bad);
    };
    let Some(offset) = offset_said(values.offset) else {
        return Err(WordFault::Bad);
    };
    let Some(log_limit) = limit_said(values.limit) else {
        return Err(WordFault::Bad);
    };
    Ok(RunPlan {
        store: PathText::new(alloc, store)?,
        ctl,
        user,
        offset,
        log_limit,
    })
}

/// The values of the options of `serve`, where they are given.
#[derive(Clone, Copy)]
pub struct ServeValues<'a> {
    pub listen: Option<&'a str>,
    pub workers: Option<&'a str>,
    pub monitors: Option<&'a str>,
    pub store: Option<&'a str>,
    pub ctl: Option<&'a str>,
    pub offset: Option<&'a str>,
    pub limit: Option<&'a str>,
}

/// The plan of a server.
pub fn made_serve(alloc: Global, values: ServeValues<'_>) -> Result<ServePlan, WordFault>
    ensures ok { IfOk result (λ plan. made_serve (listen_said (option_copied values.entry.listen)) (workers_said (option_copied values.entry.workers))
        (monitors_said (option_copied values.entry.monitors)) (store_said (option_copied values.entry.store)) (ctl_said (option_copied values.entry.ctl))
        (offset_said (option_copied values.entry.offset)) (limit_said (option_copied values.entry.limit)) ≡ Some plan) }
    ensures bad { result ≡ Err WordFault.Bad → made_serve (listen_said (option_copied values.entry.listen)) (workers_said (option_copied values.entry.workers))
        (monitors_said (option_copied values.entry.monitors)) (store_said (option_copied values.entry.store)) (ctl_said (option_copied values.entry.ctl))
        (offset_said (option_copied values.entry.offset)) (limit_said (option_copied values.entry.limit)) ≡ None }
    ensures fit { IfOk result IsFitServe }
{
    let Some(listen) = listen_said(values.listen) else {
        return Err(WordFault::Bad);
    };
    let Some(workers) = workers_said(values.workers) else {
        return Err(WordFault::Bad);
    };
    let Some(monitors) = monitors_said(values.monitors) else {
        return Err(WordFault::Bad);
    };
    let Some(store) = store_said(values.store) else {
        return Err(WordFault::Bad);
    };
    let Some(ctl) = ctl_said(values.ctl) else {
        return Err(WordFault::Bad);
    };
    let Some(offset) = offset_said(values.offset) else {
        return Err(WordFault::Bad);
    };
    let Some(log_limit) = limit_said(values.limit) else {
        return Err(WordFault::Bad);
    };
    Ok(ServePlan {
        listen,
        workers,
        monitors,
        store: PathText::new(alloc, store)?,
        ctl,
        offset,
        log_limit,
    })
}

/// The plan of a drill.
pub fn made_drill(seed: Option<&str>, jobs: Option<&str>) -> Option<DrillPlan>
    ensures fit { IfSome result (λ plan. IsTrue (within 1 5000 plan.jobs)) }
    ensures value { result ≡ made_drill (seed_said (option_copied seed.entry)) (jobs_said (option_copied jobs.entry)) }
{
    let seed = seed_said(seed)?;
    let jobs = jobs_said(jobs)?;
    Some(DrillPlan { seed, jobs })
}
