// Reading the words of a command line.
ghost use Rattle.std.specs.Prelude.{◌≡◌, Err, IfOk, IsTrue, None, Some, map, string_bytes};
ghost use Rattle.wm_when.specs.Schedule.{within};
ghost use Rattle.wm_plan.specs.Options.{joined};
ghost use Rattle.wm_plan.specs.Plans.{IsFitPlan, IsFitServe, drill_names, drill_plan, plan_for, plan_of, planned, run_names, run_plan, serve_names, serve_plan};

use crate::joined::joined;
use crate::made::{RunValues, ServeValues, made_drill, made_run, made_serve};
use crate::matched::matched;
use crate::{DrillPlan, Plan, RunPlan, ServePlan, WordFault};
use std::alloc::Global;

// The options of each command.
const RUN_NAMES: [&str; 5] = ["store", "ctl", "user", "offset", "log-limit"];

const SERVE_NAMES: [&str; 7] = [
    "listen",
    "workers",
    "monitors",
    "store",
    "ctl",
    "offset",
    "log-limit",
];

const DRILL_NAMES: [&str; 2] = ["seed", "jobs"];

// The plan of a run with these words behind `run`.
fn read_run(alloc: Global, words: &[String]) -> Result<RunPlan, WordFault>
    ensures ok { IfOk result (λ plan. planned run_names run_plan (joined (map string_bytes words.now)) ≡ Some plan) }
    ensures bad { result ≡ Err WordFault.Bad → planned run_names run_plan (joined (map string_bytes words.now)) ≡ None }
    ensures fit { IfOk result (λ plan. IsTrue (within 1 1000000 plan.log_limit)) }
{
    let options = joined(alloc, words)?;
    let matches = matched(alloc, &RUN_NAMES, &options)?;
    let values = RunValues {
        store: matches.get_str("store"),
        ctl: matches.get_str("ctl"),
        user: matches.get_str("user"),
        offset: matches.get_str("offset"),
        limit: matches.get_str("log-limit"),
    };
    made_run(alloc, values)
}

// The plan of a server with these words behind `serve`.
fn read_serve(alloc: Global, words: &[String]) -> Result<ServePlan, WordFault>
    ensures ok { IfOk result (λ plan. planned serve_names serve_plan (joined (map string_bytes words.now)) ≡ Some plan) }
    ensures bad { result ≡ Err WordFault.Bad → planned serve_names serve_plan (joined (map string_bytes words.now)) ≡ None }
    ensures fit { IfOk result IsFitServe }
{
    let options = joined(alloc, words)?;
    let matches = matched(alloc, &SERVE_NAMES, &options)?;
    let values = ServeValues {
        listen: matches.get_str("listen"),
        workers: matches.get_str("workers"),
        monitors: matches.get_str("monitors"),
        store: matches.get_str("store"),
        ctl: matches.get_str("ctl"),
        offset: matches.get_str("offset"),
        limit: matches.get_str("log-limit"),
    };
    made_serve(alloc, values)
}

// The plan of a drill with these words behind `drill`.
fn read_drill(alloc: Global, words: &[String]) -> Result<DrillPlan, WordFault>
    ensures ok { IfOk result (λ plan. planned drill_names drill_plan (joined (map string_bytes words.now)) ≡ Some plan) }
    ensures bad { result ≡ Err WordFault.Bad → planned drill_names drill_plan (joined (map string_bytes words.now)) ≡ None }
    ensures fit { IfOk result (λ plan. IsTrue (within 1 5000 plan.jobs)) }
{
    let options = joined(alloc, words)?;
    let matches = matched(alloc, &DRILL_NAMES, &options)?;
    match made_drill(matches.get_str("seed"), matches.get_str("jobs")) {
        Some(plan) => Ok(plan),
        None => Err(WordFault::Bad),
    }
}

// The plan of a command with these words behind it.
fn read_command(alloc: Global, command: &str, words: &[String]) -> Result<Plan, WordFault>
    ensures ok { IfOk result (λ plan. plan_for command.now (map string_bytes words.now) ≡ Some plan) }
    ensures bad { result ≡ Err WordFault.Bad → plan_for command.now (map string_bytes words.now) ≡ None }
    ensures fit { IfOk result IsFitPlan }
{
    if command == "run" {
        return Ok(Plan::Run(read_run(alloc, words)?));
    }
    if command == "serve" {
        return Ok(Plan::Serve(read_serve(alloc, words)?));
    }
    if command == "drill" {
        return Ok(Plan::Drill(read_drill(alloc, words)?));
    }
    Err(WordFault::Bad)
}

/// The plan that words ask for, which stand behind the program's name. `Bad` comes exactly where they are none, want of memory
/// aside. This is the one reading of them.
pub fn read_words(alloc: Global, words: &[String]) -> Result<Plan, WordFault>
    ensures ok { IfOk result (λ plan. plan_of (map string_bytes words.now) ≡ Some plan) }
    ensures bad { result ≡ Err WordFault.Bad → plan_of (map string_bytes words.now) ≡ None }
    ensures fit { IfOk result IsFitPlan }
{
    match words {
        [] => Err(WordFault::Bad),
        [command, options @ ..] => read_command(alloc, command.as_str(), options),
    }
}
