// Servers with few seats: what they end with, what they write, and who made the entries of their histories.
ghost use Rattle.std.specs.Prelude.{◌≡◌, None, All};
ghost use Rattle.wm_serve.specs.Seats.{pass_of};
ghost use Rattle.wm_test_serve.specs.Fresh.{AreFresh};

use super::failing::Failing;
use super::seats::{TestCrew, add_seats};
use super::server::serve_crew;
use super::unused::Unused;
use anyhow::Result;
use std::alloc::Global;
use std::str;
use std::sync::Wait;
use std::thread::Threads;
use wm_floor::Log;
use wm_listener::MemListener;
use wm_listing::push_entry;
use wm_outside::{MemSink, MemStore};
use wm_serve::{Crew, Served};
use wm_web::FreeGate;

/// What the peer of a connection sends: one job.
static SUBMIT: &[u8] =
    b"POST /users/ann/commands HTTP/1.1\r\nHost: x\r\nContent-Length: 33\r\n\r\nSBMJOB CMD(CALL PGM(ECHO)) JOB(A)";

/// The words by which entries of a history are known.
static VERBS: [&str; 7] = [
    "STRSBS",
    "SBMJOB",
    "HAND",
    "STARTED",
    "STARTFAILED",
    "FINISHED",
    "PWRDWNSYS",
];

/// A server with seats for so many workers and one monitor, over forms of which one call may fail.
#[derive(Clone, Copy)]
struct Case {
    name: &'static str,
    line: &'static str,
    workers: u32,
    failing: Failing,
    /// Whether the entries of its history are the same however its threads run.
    settled: bool,
}

// The words of servers.
const MONITORS: &str = "serve --listen 127.0.0.1:0 --monitors 2";

const PLAIN: &str = "serve --listen 127.0.0.1:0";

const WORKER: &str = "serve --listen 127.0.0.1:0 --workers 1";

// A case that is named by its words, of which no call fails.
fn plain(line: &'static str, workers: u32) -> Case {
    Case {
        name: line,
        line,
        workers,
        failing: Failing::Nothing,
        settled: true,
    }
}

// A server with one worker, of which one call fails.
fn failure(name: &'static str, failing: Failing) -> Case {
    Case {
        name,
        line: WORKER,
        workers: 1,
        failing,
        settled: !matches!(failing, Failing::Look(_)),
    }
}

fn words_of(alloc: Global, line: &str) -> Result<Vec<String>> {
    let mut words = Vec::new(alloc);
    for word in line.split_whitespace() {
        words.push(String::from_str(alloc, word)?)?;
    }
    Ok(words)
}

fn verb(line: &str) -> &'static str {
    for verb in &VERBS {
        if line.contains(*verb) {
            return verb;
        }
    }
    "another"
}

// The caller and the word of each entry.
fn tell_callers(alloc: Global, log: &Log, told: &mut String) -> Result<()> {
    for at in 0..log.len() {
        if let Some(entry) = log.entry(at) {
            let mut line = Vec::new(alloc);
            push_entry(alloc, &mut line, at + 1, entry)?;
            writeln!(told, "{} {}", entry.caller, verb(str::from_utf8(&line)?))?;
        }
    }
    Ok(())
}

fn tell_status(name: &str, served: &Served, out: &MemSink, told: &mut String) -> Result<()> {
    let written = str::from_utf8(out.bytes())?.trim_end();
    writeln!(
        told,
        "{name}: status {}, written: [{written}]",
        served.status
    )?;
    Ok(())
}

fn tell_log(alloc: Global, served: &Served, told: &mut String) -> Result<()> {
    match &served.log {
        Some(log) => tell_callers(alloc, log, told),
        None => {
            writeln!(told, "no history")?;
            Ok(())
        }
    }
}

fn play_crew<R: Threads + Wait + Sync>(
    rt: &R,
    alloc: Global,
    case: &Case,
    crew: &mut TestCrew,
    listener: &MemListener,
    told: &mut String,
) -> Result<()>
    requires fresh { AreFresh crew.old.seats.items }
    ensures vacant { All (λ seat. pass_of seat ≡ None) crew.new.seats.items }
{
    let words = words_of(alloc, case.line)?;
    let mut store = MemStore::new(case.failing.keeper(alloc)?);
    let mut out = case.failing.sink(alloc)?;
    let gate = FreeGate;
    let served = serve_crew(
        rt, alloc, &words, listener, crew, &mut out, &mut store, &gate,
    );
    tell_status(case.name, &served, &out, told)?;
    if case.settled {
        tell_log(alloc, &served, told)?;
    }
    Ok(())
}

fn play_case<R: Threads + Wait + Sync>(
    rt: &R,
    alloc: Global,
    case: &Case,
    listener: &MemListener,
    told: &mut String,
) -> Result<()> {
    let mut crew = Crew::new(alloc);
    let played = match add_seats(alloc, case.workers, 1, case.failing, &mut crew) {
        Ok(()) => play_crew(rt, alloc, case, &mut crew, listener, told),
        Err(fault) => Err(fault.into()),
    };
    crew.leave();
    played
}

// A listener with one connection, whose peer submits a job.
fn one_job(alloc: Global) -> Result<MemListener> {
    let mut unused = Unused::new(alloc);
    unused.add(alloc, SUBMIT)?;
    Ok(unused.listener(alloc))
}

/// What came of a server whose seats aren't those of its words, of one whose first look at its listener fails, and of one with
/// one connection; and of the last one over forms of which one call fails.
pub fn play_rows<R: Threads + Wait + Sync>(rt: &R, alloc: Global, told: &mut String) -> Result<()> {
    let nobody = Unused::new(alloc).listener(alloc);
    play_case(rt, alloc, &plain(MONITORS, 2), &nobody, told)?;
    let failing = MemListener::new(Vec::new(alloc), Vec::from_slice(alloc, &[1])?);
    play_case(rt, alloc, &plain(PLAIN, 2), &failing, told)?;
    let cases = [
        plain(WORKER, 1),
        failure("the first write fails", Failing::Write(1)),
        failure("the first apply fails", Failing::Apply(1)),
        failure("the second apply fails", Failing::Apply(2)),
        failure("the third apply fails", Failing::Apply(3)),
        failure("the first start fails", Failing::Start(1)),
        failure("the first look fails", Failing::Look(1)),
    ];
    for case in &cases {
        play_case(rt, alloc, case, &one_job(alloc)?, told)?;
    }
    Ok(())
}
