// One round: threads that call, and what they recorded beside the history.
ghost use Rattle.std.specs.Prelude.{◌≡◌, ◌<◌, ◌≤◌, ◌+◌, length};
ghost use Rattle.std.specs.Thread.{IsSync};
ghost use Rattle.wm_test_parts.specs.Notes.{IsEven, IsReady};

use super::counter::Counter;
use super::record::{Record, Round};
use std::alloc::{AllocError, Global};
use std::sync::Wait;
use std::thread::{self, Threads, join_mut};
use std::time::{Clock, Duration};
use wm_turn::{Pass, Turnstile};

/// Sleeps for so many microseconds, or not at all.
pub fn rest<R: Clock>(rt: &R, micros: u64) {
    if micros > 0 {
        thread::sleep(rt, Duration::from_micros(micros));
    }
}

// One turn of a pass: the place of its entry, unless there was no memory.
fn one_turn<R: Wait + Clock>(
    rt: &R,
    stile: &Turnstile<Counter>,
    pass: &mut Pass<Counter>,
    micros: u64,
) -> Result<u64, AllocError>
    requires { IsReady stile.now pass.old }
    ensures ready { IsReady stile.now pass.new }
    ensures even { IsEven pass.old pass.new }
{
    let mut counter = stile.enter(rt, pass);
    let place = counter.add(pass.number());
    // The checker learns from this look that the list is shorter than 2^64, as `leave` asks.
    let _count = counter.notes.len();
    rest(rt, micros);
    stile.leave(pass, counter);
    place.ok_or(AllocError)
}

// So many turns of a pass, with the places of its entries.
fn work<R: Wait + Clock>(
    rt: &R,
    alloc: Global,
    stile: &Turnstile<Counter>,
    pass: &mut Pass<Counter>,
    turns: u32,
    micros: u64,
) -> Result<Record, AllocError>
    requires { IsReady stile.now pass.old }
    ensures ready { IsReady stile.now pass.new }
    ensures even { IsEven pass.old pass.new }
{
    let mut places = Vec::new(alloc);
    for _ in 0..turns {
        let place = one_turn(rt, stile, pass, micros)?;
        places.push(place)?;
    }
    Ok(Record {
        number: pass.number(),
        places,
    })
}

// So many threads, each with a pass that is split off before and joined after it, while the others call.
fn among<R: Threads + Wait + Clock + Sync>(
    rt: &R,
    alloc: Global,
    stile: &Turnstile<Counter>,
    zero: &mut Pass<Counter>,
    threads: u32,
    turns: u32,
    micros: u64,
    records: &mut Vec<Record>,
) -> Result<(), AllocError>
    requires ready { IsReady stile.now zero.old }
    requires zero { zero.old.number ≡ 0 }
    requires room { zero.old.made + threads < 4294967295 }
    ensures ready { IsReady stile.now zero.new }
    ensures even { IsEven zero.old zero.new }
{
    if threads == 0 {
        return Ok(());
    }
    let fewer = threads - 1;
    let Ok(mut pass) = stile.split(zero) else {
        unreachable!()
    };
    let (done, others) = join_mut(
        rt,
        &mut ||
            requires { IsSync R.row × IsReady stile.now pass }
            ensures { IsReady stile.entry.now pass.exit }
        { work(rt, alloc, stile, &mut pass, turns, micros) },
        &mut ||
            requires { IsSync R.row × IsReady stile.now zero.now × (zero.now.number ≡ 0) × (zero.now.made + fewer < 4294967295) }
            ensures { IsReady stile.entry.now zero.exit.now × IsEven zero.entry.now zero.exit.now }
        { among(rt, alloc, stile, zero, fewer, turns, micros, records) },
    );
    stile.join(zero, pass);
    others?;
    records.push(done?)?;
    Ok(())
}

/// A round of so many threads, each with so many entries. Before it the turnstile can't be closed, since a pass is out.
pub fn round<R: Threads + Wait + Clock + Sync>(
    rt: &R,
    alloc: Global,
    threads: u32,
    turns: u32,
    micros: u64,
) -> Result<Round, AllocError>
    requires { threads < 1000 }
{
    let (stile, mut zero) = match Turnstile::new(alloc, Counter::new(alloc)) {
        Ok(made) => made,
        Err((counter, failed)) => {
            drop(counter);
            return Err(failed);
        }
    };
    let Ok(one) = stile.split(&mut zero) else {
        unreachable!()
    };
    let Err((stile, mut zero)) = stile.close(zero) else {
        unreachable!()
    };
    stile.join(&mut zero, one);
    let mut records = Vec::new(alloc);
    let made = among(
        rt,
        alloc,
        &stile,
        &mut zero,
        threads,
        turns,
        micros,
        &mut records,
    );
    stile.recall(&mut zero);
    let closed = stile.close(zero);
    let Ok(counter) = closed else { unreachable!() };
    made?;
    let Counter { notes, marks: _ } = counter;
    Ok(Round { notes, records })
}
