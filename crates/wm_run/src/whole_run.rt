// A whole run: what the words say, the session over the input, and the status.
ghost use Rattle.std.specs.Prelude.{◌≡◌, ◌⊎◌, ◌<◌, ◌≤◌, None, [], length, map, option_to_list, string_bytes, true, false};
ghost use Rattle.std.specs.List.{list_all};
ghost use Rattle.wm_traits.specs.Cause.{raised};
ghost use Rattle.wm_run.specs.Kept.{HasBadRow, HasHistory};
ghost use Rattle.wm_run.specs.Outcome.{RunTakes};
ghost use Rattle.wm_run.specs.Run.{IsRunStatus, IsServed};
ghost use Rattle.wm_run.specs.Serving.{is_of_run};
ghost use Rattle.wm_run.specs.Words.{OpensStoreOf, is_run, settings_of};
ghost use Rattle.wm_floor.specs.Keeping.{telling};

use crate::kept_run::run_kept;
use crate::statuses::store_status;
use crate::words::{run_plan, settings};
use std::alloc::Global;
use std::sync::Wait;
use wm_floor::{Log, Report};
use wm_traits::{Clock, Sink, Source, Spawner, Store};

/// What a run answers for: its status, its history, and the report that it had not sent.
#[derive(Drop)]
pub struct Ran {
    pub status: u8,
    pub log: Log,
    pub kept: Option<Report>,
}

// A run that has not begun.
pub(crate) fn not_begun(alloc: Global, status: u8) -> Ran
    ensures status { result.status ≡ status }
    ensures log { result.log ≡ [] }
    ensures kept { result.kept ≡ None }
{
    Ran {
        status,
        log: Log::none(alloc),
        kept: None,
    }
}

/// Runs as the words of a command line say: the commands of the input are answered on the output, and their jobs run, up to the
/// end of the input or a line whose PWRDWNSYS is accepted. Status 0 and 1 come where no job is active any more, 1 where a line
/// got a fault or a refusal; 2 where the words are none of a run; 3 where the input couldn't be read, 4 where the output couldn't
/// be written, 5 where the store or its keeper failed, 6 for want of memory, 7 where the history is full, 8 where the spawner
/// couldn't kill or look, 9 where the rows that were found aren't good, and 11 where the input has more than 1,000,000,000 bytes.
pub fn run<I: Source, O: Sink, S: Store, P: Spawner, C: Clock, R: Wait>(
    rt: &R,
    alloc: Global,
    words: &[String],
    input: &mut I,
    out: &mut O,
    store: &mut S,
    spawner: &mut P,
    clock: &mut C,
) -> Ran
    ensures words { is_run (map string_bytes words.now) ≡ false → (result.status ≡ 2) ⊎ (result.status ≡ 6) }
    ensures run { is_run (map string_bytes words.now) ≡ true → result.status ≡ 2 → ⊥ }
    ensures unread { is_run (map string_bytes words.now) ≡ false → I.left input.new ≡ I.left input.old }
    ensures opened { OpensStoreOf (map string_bytes words.now) result.status (S.opened store.old) (S.opened store.new) }
    ensures history { HasHistory (settings_of (map string_bytes words.now)).offset result.status result.log (telling S.tables S.trail store.old) (telling S.tables S.trail store.new)
        (RunTakes (settings_of (map string_bytes words.now)) (I.left input.old) (I.left input.new) result.status result.log (O.written out.old) (O.written out.new)) }
    ensures callers { list_all is_of_run result.log ≡ true }
    ensures served { IsServed result.log (option_to_list result.kept) (P.asked spawner.old) (P.asked spawner.new) (P.told spawner.old) (P.told spawner.new) (P.misses spawner.old) (P.misses spawner.new) }
    ensures kept { result.status ≤ 1 → result.kept ≡ None }
    ensures read_fault { result.status ≡ 3 → raised (I.faults input.old) ≤ I.faults input.new }
    ensures write_fault { result.status ≡ 4 → raised (O.faults out.old) ≤ O.faults out.new }
    ensures keeper_fault { result.status ≡ 5 → raised (S.faults store.old) ≤ S.faults store.new }
    ensures log_full { result.status ≡ 7 → (settings_of (map string_bytes words.now)).log_limit ≤ length result.log }
    ensures reported { result.status ≡ 7 → length result.log < 4000000 → result.kept ≡ None }
    ensures wait_fault { result.status ≡ 8 → raised (P.faults spawner.old) ≤ P.faults spawner.new }
    ensures bad_row { result.status ≡ 9 → HasBadRow (settings_of (map string_bytes words.now)).offset (S.tables store.old) (S.tables store.new) }
    ensures out_faults { O.faults out.old ≤ O.faults out.new }
    ensures store_faults { S.faults store.old ≤ S.faults store.new }
    ensures statuses { IsRunStatus result.status }
    ensures not_begun { result.status ≡ 2 → result.log ≡ [] }
{
    let plan = match run_plan(alloc, words) {
        Ok(plan) => plan,
        Err(status) => return not_begun(alloc, status),
    };
    match store.open(plan.store.as_str()) {
        Ok(keeper) => {
            let (ran, keeper) = run_kept(
                rt,
                alloc,
                input,
                out,
                keeper,
                spawner,
                clock,
                &settings(&plan),
            );
            store.close(keeper);
            ran
        }
        Err(fault) => not_begun(alloc, store_status(fault)),
    }
}
