// A whole server over forms in memory: two workers and two monitors, each in a thread of its own.
ghost use Rattle.std.specs.Prelude.{◌≡◌, None, All};
ghost use Rattle.wm_serve.specs.Seats.{pass_of};
ghost use Rattle.wm_test_serve.specs.Fresh.{AreFresh};

use super::failing::Failing;
use super::holding::HoldingGate;
use super::seats::{TestCrew, TestSeat, add_seats};
use super::told::tell_log;
use super::unused::Unused;
use anyhow::{Result, bail};
use std::alloc::Global;
use std::str;
use std::sync::Wait;
use std::thread::Threads;
use wm_floor::Log;
use wm_listener::{MemDesk, MemListener};
use wm_outside::{MemKeeper, MemSink, MemStore};
use wm_serve::{Crew, Served, serve};
use wm_web::Gate;

/// What the peers of the two connections send: a job each, and then they ask for the history.
static REQUESTS: [&[u8]; 2] = [
    b"POST /users/ann/commands HTTP/1.1\r\nContent-Length: 33\r\n\r\nSBMJOB CMD(CALL PGM(ECHO)) JOB(A)GET /log HTTP/1.1\r\n\r\n",
    b"POST /users/bob/commands HTTP/1.1\r\nContent-Length: 33\r\n\r\nSBMJOB CMD(CALL PGM(ECHO)) JOB(B)GET /log HTTP/1.1\r\n\r\n",
];

/// The users of the two connections, as a history names them before their command.
static USERS: [&str; 2] = [" ANN SBMJOB ", " BOB SBMJOB "];

/// The words of the command line.
static WORDS: [&str; 7] = [
    "serve",
    "--listen",
    "127.0.0.1:0",
    "--workers",
    "2",
    "--monitors",
    "2",
];

fn words(alloc: Global) -> Result<Vec<String>> {
    let mut words = Vec::new(alloc);
    for word in &WORDS {
        words.push(String::from_str(alloc, word)?)?;
    }
    Ok(words)
}

// Which of the users' commands stand in what was written to a worker's connections.
fn tell_own(at: usize, desk: &MemDesk, told: &mut String) -> Result<()> {
    for returned in desk.had() {
        let text = str::from_utf8(returned.output.bytes())?;
        let is_own = USERS.iter().any(|user| text.contains(*user));
        let word = if is_own {
            "its own command"
        } else {
            "no command of its own"
        };
        writeln!(told, "worker {at}: a history with {word}")?;
    }
    Ok(())
}

// How many lines of the history are of submits, and how many of ends. How many orders monitors asked for is the threads' doing.
fn tell_counts(alloc: Global, log: Option<&Log>, told: &mut String) -> Result<()> {
    let Some(log) = log else { bail!("no history") };
    let mut lines = String::new(alloc);
    tell_log(alloc, log, &mut lines)?;
    for word in ["SBMJOB", "FINISHED", "PWRDWNSYS"] {
        let count = lines.lines().filter(|line| line.contains(word)).count();
        writeln!(told, "{word} {count}")?;
    }
    Ok(())
}

// A listener with the two connections.
fn listener(alloc: Global) -> Result<MemListener> {
    let mut unused = Unused::new(alloc);
    for bytes in &REQUESTS {
        unused.add(alloc, bytes)?;
    }
    Ok(unused.listener(alloc))
}

// What was written, how the gate was told, and what the desks and the history have.
fn tell_server(
    alloc: Global,
    served: &Served,
    out: &MemSink,
    gate: &HoldingGate,
    seats: &[TestSeat],
) -> Result<String> {
    let mut told = String::new(alloc);
    writeln!(
        told,
        "status {}, written: {}",
        served.status,
        str::from_utf8(out.bytes())?.trim_end()
    )?;
    writeln!(told, "a worker was held, and went on {}", gate.told())?;
    for (at, seat) in seats.iter().enumerate() {
        if let Some(desk) = seat.desk() {
            tell_own(at + 1, desk, &mut told)?;
        }
    }
    tell_counts(alloc, served.log.as_ref(), &mut told)?;
    Ok(told)
}

/// The one call of a server.
pub fn serve_crew<G: Gate + Sync, R: Threads + Wait + Sync>(
    rt: &R,
    alloc: Global,
    words: &[String],
    listener: &MemListener,
    crew: &mut TestCrew,
    out: &mut MemSink,
    store: &mut MemStore,
    gate: &G,
) -> Served
    requires fresh { AreFresh crew.old.seats.items }
    ensures vacant { All (λ seat. pass_of seat ≡ None) crew.new.seats.items }
{
    serve(
        rt,
        alloc,
        words,
        listener,
        &mut crew.seats,
        out,
        store,
        gate,
    )
}

// What the server came to with these seats.
fn play_crew<R: Threads + Wait + Sync>(rt: &R, alloc: Global, crew: &mut TestCrew) -> Result<String>
    requires fresh { AreFresh crew.old.seats.items }
    ensures vacant { All (λ seat. pass_of seat ≡ None) crew.new.seats.items }
{
    let listener = listener(alloc)?;
    let words = words(alloc)?;
    let mut store = MemStore::new(MemKeeper::new(Vec::new(alloc), Vec::new(alloc)));
    let mut out = MemSink::new(alloc, Vec::new(alloc));
    let gate = HoldingGate::new();
    let served = serve_crew(
        rt, alloc, &words, &listener, crew, &mut out, &mut store, &gate,
    );
    tell_server(alloc, &served, &out, &gate, &crew.seats)
}

/// What a server came to.
pub fn play_server<R: Threads + Wait + Sync>(rt: &R, alloc: Global) -> Result<String> {
    let mut crew = Crew::new(alloc);
    let told = match add_seats(alloc, 2, 2, Failing::Nothing, &mut crew) {
        Ok(()) => play_crew(rt, alloc, &mut crew),
        Err(fault) => Err(fault.into()),
    };
    crew.leave();
    told
}
