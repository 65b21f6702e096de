// Runs over one store, one after another.
ghost use Rattle.std.specs.Prelude.{◌≡◌, ◌≤◌, [], length, map, string_bytes, IfOk, IfSome, OnErr, vec_capacity};
ghost use Rattle.wm_law.specs.Kept.{IsDistinct};
ghost use Rattle.wm_run.specs.Words.{settings_of};
ghost use Rattle.wm_runs.specs.Chained.{HasChain, started};
ghost use Rattle.wm_runs.specs.Turns.{AreRuns, IsOneRun};

use std::alloc::Global;
use std::sync::Wait;
use wm_base::NoMemory;
use wm_run::{Ran, run, runs_make_chains};
use wm_tables::no_job_starts_twice;
use wm_traits::{Clock, Sink, Source, Spawner, Store};

// One run, as a turn of several.
fn one_run<I: Source, O: Sink, S: Store, P: Spawner, C: Clock, R: Wait>(
    rt: &R,
    alloc: Global,
    words: &[String],
    input: &mut I,
    out: &mut O,
    store: &mut S,
    spawner: &mut P,
    clock: &mut C,
) -> Ran
    ensures { IsOneRun
        (record { left = I.left; read_faults = I.faults; written = O.written; write_faults = O.faults; opened = S.opened; tables = S.tables; trail = S.trail; keeper_faults = S.faults; asked = P.asked; told = P.told; misses = P.misses; wait_faults = P.faults })
        (map string_bytes words.now)
        (record { ran = result; input_before = input.old; input_now = input.new; spawner_before = spawner.old; spawner_now = spawner.new; out_before = out.old; out_now = out.new; store_before = store.old; store_now = store.new }) }
{
    run(rt, alloc, words, input, out, store, spawner, clock)
}

// A run for each input. There is room for what they answer.
fn run_each<I: Source, O: Sink, S: Store, P: Spawner, C: Clock, R: Wait>(
    rt: &R,
    alloc: Global,
    words: &[String],
    inputs: &mut [I],
    out: &mut O,
    store: &mut S,
    spawners: &mut [P],
    clock: &mut C,
    rans: &mut Vec<Ran>,
)
    requires as_many { length inputs.old ≡ length spawners.old }
    requires none { rans.old.items ≡ [] }
    requires room { length inputs.old ≤ vec_capacity rans.old }
    ensures { AreRuns
        (record { left = I.left; read_faults = I.faults; written = O.written; write_faults = O.faults; opened = S.opened; tables = S.tables; trail = S.trail; keeper_faults = S.faults; asked = P.asked; told = P.told; misses = P.misses; wait_faults = P.faults })
        (map string_bytes words.now) inputs.old inputs.new spawners.old spawners.new rans.new.items out.old out.new store.old store.new }
{
    for at in 0..inputs.len() {
        let input = &mut inputs[at];
        let spawner = &mut spawners[at];
        let ran = one_run(rt, alloc, words, input, out, store, spawner, clock);
        rans.push_reserved(ran);
    }
}

/// Runs once for each input, in order, with the same words, over the one store, each time with the spawner that stands at the
/// input's place. What a run answers stands at the place of its input. An `Err` is want of memory for the answers, and comes
/// before the first run.
pub fn runs<I: Source, O: Sink, S: Store, P: Spawner, C: Clock, R: Wait>(
    rt: &R,
    alloc: Global,
    words: &[String],
    inputs: &mut [I],
    out: &mut O,
    store: &mut S,
    spawners: &mut [P],
    clock: &mut C,
) -> Result<Vec<Ran>, NoMemory>
    requires as_many { length inputs.old ≡ length spawners.old }
    ensures each { IfOk result (λ rans. AreRuns
        (record { left = I.left; read_faults = I.faults; written = O.written; write_faults = O.faults; opened = S.opened; tables = S.tables; trail = S.trail; keeper_faults = S.faults; asked = P.asked; told = P.told; misses = P.misses; wait_faults = P.faults })
        (map string_bytes words.now) inputs.old inputs.new spawners.old spawners.new rans.items out.old out.new store.old store.new) }
    ensures chain { IfOk result (λ rans. HasChain (settings_of (map string_bytes words.now)).offset (S.tables store.old) (S.tables store.new) rans.items) }
    ensures once { IfOk result (λ rans. IfSome (S.tables store.new) (λ _. IsDistinct (started rans.items))) }
    ensures out_faults { O.faults out.old ≤ O.faults out.new }
    ensures store_faults { S.faults store.old ≤ S.faults store.new }
    ensures unbegun { OnErr result ((inputs.new ≡ inputs.old) × (spawners.new ≡ spawners.old) × (out.new ≡ out.old) × (store.new ≡ store.old)) }
{
    let mut rans = Vec::new(alloc);
    rans.reserve(inputs.len())?;
    run_each(
        rt, alloc, words, inputs, out, store, spawners, clock, &mut rans,
    );
    runs_make_chains();
    no_job_starts_twice();
    Ok(rans)
}
