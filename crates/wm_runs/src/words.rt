// The plan of a drill that words are.
ghost use Rattle.std.specs.Prelude.{◌≡◌, ◌⊎◌, IfErr, IfOk, IsTrue, None, Some, Err, map, string_bytes};
ghost use Rattle.wm_when.specs.Schedule.{within};
ghost use Rattle.wm_runs.specs.Words.{drill_plan};

use std::alloc::Global;
use wm_plan::{DrillPlan, Plan, WordFault, read_words};
use wm_run::{NO_MEMORY, WRONG_WORDS};

/// The plan of a drill that the words are, or the status of a drill with them.
pub fn drill_plan(alloc: Global, words: &[String]) -> Result<DrillPlan, u8>
    ensures ok { IfOk result (λ plan. drill_plan (map string_bytes words.now) ≡ Some plan) }
    ensures jobs { IfOk result (λ plan. IsTrue (within 1 5000 plan.jobs)) }
    ensures statuses { IfErr result (λ status. (status ≡ 2) ⊎ (status ≡ 6)) }
    ensures wrong { result ≡ Err 2 → drill_plan (map string_bytes words.now) ≡ None }
{
    match read_words(alloc, words) {
        Ok(Plan::Drill(plan)) => Ok(plan),
        Ok(Plan::Run(_) | Plan::Serve(_)) | Err(WordFault::Bad) => Err(WRONG_WORDS),
        Err(WordFault::NoMemory) => Err(NO_MEMORY),
    }
}
