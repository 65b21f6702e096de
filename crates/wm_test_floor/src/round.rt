// One round: threads that call one floor, and what they recorded beside its history.
ghost use Rattle.std.specs.Prelude.{◌≡◌, ◌<◌, ◌≤◌, ◌+◌, length, IfOk};
ghost use Rattle.std.specs.Thread.{IsSync};
ghost use Rattle.wm_floor.specs.Floor.{IsPassOf};
ghost use Rattle.wm_test_floor.specs.Passes.{IsEven};

use crate::keeper::TestKeeper;
use crate::record::{Record, Round};
use crate::work::{Plan, Post, begin};
use anyhow::{Result, bail};
use std::alloc::Global;
use std::sync::Wait;
use std::thread::{Threads, join_mut};
use wm_core::Setup;
use wm_desc::qbatch;
use wm_floor::{Closed, Floor, FloorPass};
use wm_when::Offset;

/// The floor of the tests.
pub type TestFloor = Floor<TestKeeper>;

/// A pass of it.
pub type TestPass = FloorPass<TestKeeper>;

/// A floor over a keeper without rows, and its pass 0.
pub fn opened(alloc: Global, keeper: TestKeeper) -> Result<(TestFloor, TestPass)>
    ensures own { IfOk result (λ made. IsPassOf made.0 made.1) }
    ensures zero { IfOk result (λ made. made.1.number ≡ 0) }
    ensures made { IfOk result (λ made. made.1.made ≡ 0) }
    ensures joined { IfOk result (λ made. length made.1.joined ≡ 0) }
{
    let setup = Setup {
        ctl: qbatch(),
        offset: Offset::new(0),
    };
    match Floor::open(alloc, keeper, &setup, 1_000_000) {
        Ok(made) => Ok(made),
        Err((keeper, fault)) => {
            drop(keeper);
            bail!("not opened: {fault}")
        }
    }
}

// So many threads, each with a pass that is split off before and joined after it, while the others call.
fn among<R: Threads + Wait + Sync>(
    rt: &R,
    alloc: Global,
    floor: &TestFloor,
    zero: &mut TestPass,
    threads: u32,
    plan: &Plan,
    records: &mut Vec<Record>,
) -> Result<()>
    requires own { IsPassOf floor.now zero.old }
    requires zero { zero.old.number ≡ 0 }
    requires room { zero.old.made + threads < 4294967295 }
    ensures own { IsPassOf floor.now zero.new }
    ensures even { IsEven zero.old zero.new }
{
    if threads == 0 {
        return Ok(());
    }
    let fewer = threads - 1;
    let Ok(pass) = floor.split(zero) else {
        unreachable!()
    };
    let mut post = Post {
        alloc,
        pass,
        thread: threads,
        plan: *plan,
    };
    let (done, others) = join_mut(
        rt,
        &mut ||
            requires { IsSync R.row × IsPassOf floor.now post.pass }
            ensures { IsPassOf floor.entry.now post.exit.pass }
        { post.work(rt, floor) },
        &mut ||
            requires { IsSync R.row × IsPassOf floor.now zero.now × (zero.now.number ≡ 0) × (zero.now.made + fewer < 4294967295) }
            ensures { IsPassOf floor.entry.now zero.exit.now × IsEven zero.entry.now zero.exit.now }
        { among(rt, alloc, floor, zero, fewer, plan, records) },
    );
    let Post {
        alloc: _,
        pass,
        thread: _,
        plan: _,
    } = post;
    floor.join(zero, pass);
    others?;
    records.push(done?)?;
    Ok(())
}

/// A round over a keeper, which comes back. It begins with a few commands. Before it the floor can't be closed, since a pass is
/// out.
pub fn round<R: Threads + Wait + Sync>(
    rt: &R,
    alloc: Global,
    keeper: TestKeeper,
    plan: Plan,
) -> Result<(Round, TestKeeper)>
    requires threads { plan.threads < 1000 }
    requires monitors { plan.monitors < 1000 }
{
    let (floor, mut zero) = opened(alloc, keeper)?;
    let Ok(one) = floor.split(&mut zero) else {
        unreachable!()
    };
    let Err((floor, mut zero)) = floor.close(zero) else {
        unreachable!()
    };
    floor.join(&mut zero, one);
    let mut records = Vec::new(alloc);
    let begun = begin(rt, alloc, &floor, &mut zero);
    let made = among(
        rt,
        alloc,
        &floor,
        &mut zero,
        plan.threads + plan.monitors,
        &plan,
        &mut records,
    );
    let closed = floor.close(zero);
    let Ok(Closed { log, keeper }) = closed else {
        unreachable!()
    };
    made?;
    records.push(begun?)?;
    Ok((Round { log, records }, keeper))
}
