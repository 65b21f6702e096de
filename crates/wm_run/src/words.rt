// What the words of the command line ask of a run.
ghost use Rattle.std.specs.Prelude.{◌≡◌, ◌⊎◌, ◌≤◌, IfOk, IfErr, Err, None, Some, map, string_bytes};
ghost use Rattle.wm_run.specs.Words.{run_plan, settings_in};

use crate::settings::Settings;
use std::alloc::Global;
use wm_plan::{Plan, RunPlan, WordFault, read_words};

/// The status of words that are none of a run.
pub const WRONG_WORDS: u8 = 2;

/// The status of a run for which there is no memory.
pub const NO_MEMORY: u8 = 6;

/// The plan of a run that the words are, or the status of a run with them.
pub fn run_plan(alloc: Global, words: &[String]) -> Result<RunPlan, u8>
    ensures ok { IfOk result (λ plan. run_plan (map string_bytes words.now) ≡ Some plan) }
    ensures some { IfOk result (λ plan. 1 ≤ plan.log_limit) }
    ensures most { IfOk result (λ plan. plan.log_limit ≤ 1000000) }
    ensures statuses { IfErr result (λ status. (status ≡ 2) ⊎ (status ≡ 6)) }
    ensures wrong { result ≡ Err 2 → run_plan (map string_bytes words.now) ≡ None }
{
    match read_words(alloc, words) {
        Ok(Plan::Run(plan)) => Ok(plan),
        Ok(Plan::Serve(_) | Plan::Drill(_)) | Err(WordFault::Bad) => Err(WRONG_WORDS),
        Err(WordFault::NoMemory) => Err(NO_MEMORY),
    }
}

/// What a run of the plan goes by.
pub fn settings(plan: &RunPlan) -> Settings
    ensures { result ≡ settings_in (Some plan.now) }
{
    Settings {
        ctl: plan.ctl,
        user: plan.user,
        offset: plan.offset,
        log_limit: plan.log_limit,
    }
}
