// Rounds of calls of prestart jobs, and the number of jobs that are made, reckoned round by round.
use super::prestart_pair::{PrestartPair, entry, job};
use anyhow::{Result, ensure};
use std::alloc::Global;
use wm_base::{Limit, Name, QName};
use wm_desc::PreEntry;
use wm_indexes::{Supply, replenish, use_done};
use wm_law::{Why, Wish};

// A prime number, so that the multiples of another one are each number below it, in a scrambled order.
const SERIALS: u64 = 211;

fn scrambled(count: u64) -> u64 {
    count.wrapping_mul(7_919) % 10_007
}

fn call_all(pair: &mut PrestartPair) -> Result<usize> {
    for count in 0..1_500 {
        let drawn = scrambled(count);
        let serial = drawn % SERIALS;
        if drawn % 3 == 0 {
            pair.take(serial);
        } else {
            pair.put(serial, &job(drawn / 7)?)?;
        }
        pair.compare(&entry(count)?)?;
    }
    Ok(pair.len())
}

/// Jobs come, change and go by a scrambled order.
pub fn prestart_calls(alloc: Global) -> Result<usize> {
    let mut pair = PrestartPair::new(alloc);
    let called = call_all(&mut pair);
    drop(pair);
    called
}

fn limit(number: u32) -> Limit {
    match number {
        0 => Limit::NoMax,
        most => Limit::Most(most),
    }
}

// Of any number as many as a limit leaves, where so many jobs were made.
fn left(limit: &Limit, count: u32, made: u32) -> u32 {
    match limit {
        Limit::NoMax => u32::MAX,
        Limit::Most(most) => most.saturating_sub(count).saturating_sub(made),
    }
}

// How many jobs are made round by round: while fewer than THRESHOLD are available, ADLJOBS or as many as there is room for.
fn in_rounds(entry: &PreEntry, supply: &Supply) -> u32 {
    let mut made = 0u32;
    for _round in 0..entry.threshold {
        if supply.stopped || supply.available.saturating_add(made) >= entry.threshold {
            return made;
        }
        let in_entry = left(&entry.maxjobs, supply.count, made);
        let in_sbs = left(&supply.sbs_maxjobs, supply.sbs_count, made);
        let numbers = supply.numbers_left.saturating_sub(made);
        made = made.saturating_add(entry.adljobs.min(in_entry).min(in_sbs).min(numbers));
    }
    made
}

fn prestart_entry(threshold: u32, adljobs: u32, maxjobs: Limit) -> Result<PreEntry> {
    let name = QName {
        lib: Name::read(b"QGPL")?,
        name: Name::read(b"ECHO")?,
    };
    Ok(PreEntry {
        pgm: name,
        strjobs: true,
        inljobs: 1,
        threshold,
        adljobs,
        maxjobs,
        maxuse: Limit::NoMax,
        wait: true,
        cls: name,
        poolid: 1,
    })
}

/// The number of jobs that are made, beside that of the rounds.
pub fn made_in_rounds() -> Result<u32> {
    let mut most = 0;
    for case in 0..40_000u32 {
        let entry = prestart_entry(case % 7, case / 7 % 5, limit(case / 35 % 6))?;
        let supply = Supply {
            stopped: case % 11 == 0,
            available: case / 210 % 5,
            count: case / 1_050 % 3,
            sbs_maxjobs: limit(case / 3_150 % 7),
            sbs_count: case / 13 % 4,
            numbers_left: case / 17 % 10,
        };
        let made = replenish(&entry, &supply);
        ensure!(
            made == in_rounds(&entry, &supply),
            "replenish in case {case}"
        );
        most = made.max(most);
    }
    Ok(most)
}

/// The wish of a job whose use is done.
pub fn wishes() -> Result<()> {
    let last = use_done(&Wish::NoWish, 3, &Limit::Most(3));
    ensure!(
        matches!(
            last,
            Wish::Now {
                why: Why::Maxuse,
                handed: false
            }
        ),
        "the last use"
    );
    let one_more = use_done(&Wish::NoWish, 2, &Limit::Most(3));
    ensure!(matches!(one_more, Wish::NoWish), "one use more");
    let later = Wish::Later {
        until: None,
        why: Why::Endsbs,
    };
    let ended = use_done(&later, 1, &Limit::NoMax);
    ensure!(
        matches!(
            ended,
            Wish::Now {
                why: Why::Endsbs,
                handed: false
            }
        ),
        "a wish for later"
    );
    Ok(())
}
