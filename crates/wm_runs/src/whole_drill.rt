// A drill: a run over its text, and the line that says what that came to.
ghost use Rattle.std.specs.Prelude.{◌≡◌, ◌⊎◌, ◌≤◌, ℕ, IfSome, None, [], false, length, map, option_to_list, pos, string_bytes, take, true};
ghost use Rattle.std.specs.List.{list_all};
ghost use Rattle.wm_law.specs.History.{IsLegal};
ghost use Rattle.wm_law.specs.Opening.{opening};
ghost use Rattle.wm_run.specs.Serving.{is_of_run};
ghost use Rattle.wm_traits.specs.Cause.{raised};
ghost use Rattle.wm_traits.specs.Told.{Grows};
ghost use Rattle.wm_runs.specs.Counts.{drill_line};
ghost use Rattle.wm_runs.specs.Drill.{IsAmong, IsDrilled, IsRunOver, drill_settings, drill_statuses, line_statuses, steady_statuses};
ghost use Rattle.wm_runs.specs.Words.{drill_plan, is_drill};

use crate::counting::{counts, line};
use crate::steady::{SteadyKeeper, SteadySink, SteadySource, SteadySpawner};
use crate::text::drill_text;
use crate::words::drill_plan;
use std::alloc::Global;
use std::sync::Wait;
use wm_base::{Moment, Name};
use wm_desc::qbatch;
use wm_floor::Log;
use wm_outside::MemClock;
use wm_plan::DrillPlan;
use wm_run::{NO_MEMORY, Ran, Settings, run_kept, write_all};
use wm_traits::Sink;
use wm_when::Offset;

// After how many looks the jobs of a drill end.
const LAG: u32 = 50;

// The status of a drill whose line couldn't be written.
const WRITE_FAULT: u8 = 4;

// What a drill goes by.
fn settings() -> Settings
    ensures { result ≡ drill_settings }
{
    Settings {
        ctl: qbatch(),
        user: Name::of(b"QUSER"),
        offset: Offset::new(0),
        log_limit: 200_000,
    }
}

// A drill that has not begun.
fn not_begun(alloc: Global, status: u8) -> Ran
    ensures status { result.status ≡ status }
    ensures log { result.log ≡ [] }
    ensures kept { result.kept ≡ None }
{
    Ran {
        status,
        log: Log::none(alloc),
        kept: None,
    }
}

// A run over a text, by objects in memory of which no call fails, from no rows. Its jobs end after 50 looks, and its clock begins
// at 0 and goes on by a second at each call.
fn run_text<R: Wait>(rt: &R, alloc: Global, text: Vec<u8>) -> Ran
    requires { length text.items ≤ 1000000000 }
    ensures history { IsRunOver text.items result.status result.log (option_to_list result.kept) }
    ensures callers { list_all is_of_run result.log ≡ true }
    ensures kept { result.status ≡ 0 → result.kept ≡ None }
    ensures log_full { result.status ≡ 7 → 200000 ≤ length result.log }
    ensures statuses { IsAmong steady_statuses result.status }
{
    let mut input = SteadySource::new(alloc, text);
    let mut replies = SteadySink::new(alloc);
    let mut spawner = SteadySpawner::new(alloc, LAG);
    let mut clock = MemClock::new(Moment::new(0), 1);
    let (ran, keeper) = run_kept(
        rt,
        alloc,
        &mut input,
        &mut replies,
        SteadyKeeper::new(alloc),
        &mut spawner,
        &mut clock,
        &settings(),
    );
    drop(keeper);
    ran
}

// Writes the line, and answers the status of the drill.
fn write_line<O: Sink>(alloc: Global, plan: &DrillPlan, log: &Log, out: &mut O) -> u8
    requires { IsLegal (opening (pos 0)) log.now }
    ensures line { result ≡ 0 → Grows (O.written out.old) (O.written out.new) (drill_line plan.now log.now) }
    ensures first { (n : ℕ) × Grows (O.written out.old) (O.written out.new) (take n (drill_line plan.now log.now)) }
    ensures write_fault { result ≡ 4 → raised (O.faults out.old) ≤ O.faults out.new }
    ensures statuses { IsAmong line_statuses result }
{
    let Ok(counts) = counts(alloc, log) else {
        return NO_MEMORY;
    };
    let Ok(line) = line(alloc, plan, &counts) else {
        return NO_MEMORY;
    };
    match write_all(out, line.as_bytes()) {
        Ok(()) => 0,
        Err(_) => WRITE_FAULT,
    }
}

// The drill of a plan.
fn drill_planned<O: Sink, R: Wait>(rt: &R, alloc: Global, plan: &DrillPlan, out: &mut O) -> Ran
    requires { plan.now.jobs ≤ 5000 }
    ensures history { IsDrilled plan.now result.status result.log (option_to_list result.kept) }
    ensures callers { list_all is_of_run result.log ≡ true }
    ensures kept { result.status ≡ 0 → result.kept ≡ None }
    ensures line { result.status ≡ 0 → Grows (O.written out.old) (O.written out.new) (drill_line plan.now result.log) }
    ensures first { (n : ℕ) × Grows (O.written out.old) (O.written out.new) (take n (drill_line plan.now result.log)) }
    ensures write_fault { result.status ≡ 4 → raised (O.faults out.old) ≤ O.faults out.new }
    ensures log_full { result.status ≡ 7 → 200000 ≤ length result.log }
    ensures statuses { IsAmong drill_statuses result.status }
    ensures begun { result.status ≡ 2 → ⊥ }
{
    let Ok(text) = drill_text(alloc, plan.seed, plan.jobs) else {
        return not_begun(alloc, NO_MEMORY);
    };
    let mut ran = run_text(rt, alloc, text);
    if ran.status == 0 {
        ran.status = write_line(alloc, plan, &ran.log, out);
    }
    ran
}

/// Drills as the words of a command line say: a run over the text of a seed and a number of jobs, by objects in memory, and one
/// line that says what it came to. Status 0 comes where the line was written, 2 where the words are none of a drill, 4 where the
/// line couldn't be written, and 6 for want of memory. Another status is that of the run, and nothing is written then: 1 where a
/// command of the text got a fault or a refusal, and 7 where the history is full. That neither comes is tested, and not proved.
pub fn drill<O: Sink, R: Wait>(rt: &R, alloc: Global, words: &[String], out: &mut O) -> Ran
    ensures words { is_drill (map string_bytes words.now) ≡ false → (result.status ≡ 2) ⊎ (result.status ≡ 6) }
    ensures drill { is_drill (map string_bytes words.now) ≡ true → result.status ≡ 2 → ⊥ }
    ensures unwritten { is_drill (map string_bytes words.now) ≡ false → Grows (O.written out.old) (O.written out.new) [] }
    ensures not_begun { is_drill (map string_bytes words.now) ≡ false → result.log ≡ [] }
    ensures history { IfSome (drill_plan (map string_bytes words.now)) (λ plan. IsDrilled plan result.status result.log (option_to_list result.kept)) }
    ensures callers { list_all is_of_run result.log ≡ true }
    ensures kept { result.status ≡ 0 → result.kept ≡ None }
    ensures line { result.status ≡ 0 → IfSome (drill_plan (map string_bytes words.now)) (λ plan. Grows (O.written out.old) (O.written out.new) (drill_line plan result.log)) }
    ensures first { IfSome (drill_plan (map string_bytes words.now)) (λ plan. (n : ℕ) × Grows (O.written out.old) (O.written out.new) (take n (drill_line plan result.log))) }
    ensures write_fault { result.status ≡ 4 → raised (O.faults out.old) ≤ O.faults out.new }
    ensures log_full { result.status ≡ 7 → 200000 ≤ length result.log }
    ensures statuses { IsAmong drill_statuses result.status }
{
    match drill_plan(alloc, words) {
        Ok(plan) => drill_planned(rt, alloc, &plan, out),
        Err(status) => not_begun(alloc, status),
    }
}
