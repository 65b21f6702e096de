// The rows of references without a number. A row that has no job any more leaves.
ghost use Rattle.std.specs.Prelude.{◌≡◌, ◌+◌, ◌^◌, ◌<◌, ◌≤◌, cond, IsSome, Some};
ghost use Rattle.std.specs.HashMap.{get, spare};
ghost use Rattle.wm_indexes.specs.Namesakes.{joined, parted, namesakes_at, HaveJobs, IsAmong};

use crate::namesakes::Namesakes;
use std::collections::HashMap;
use std::hash::Hash;
use wm_base::Serial;

// Gives a key that is there another row.
fn set<K: Eq + Hash + Copy + Drop>(rows: &mut HashMap<K, Namesakes>, key: &K, row: Namesakes)
    requires there { IsSome (get K.eq rows.old key.now) }
    ensures rows { (k : K) → get K.eq rows.new k ≡ cond (K.eq key.now k) (Some row) (get K.eq rows.old k) }
    ensures spare { spare rows.new ≡ spare rows.old }
{
    let Some(place) = rows.get_mut(key) else {
        unreachable!()
    };
    *place = row;
}

/// Adds a job to the row of a key.
pub(crate) fn join<K: Eq + Hash + Copy + Drop>(
    rows: &mut HashMap<K, Namesakes>,
    key: K,
    serial: Serial,
)
    requires spare { 1 ≤ spare rows.old }
    requires few { (namesakes_at K.eq key rows.old.entries).count + 1 < 2 ^ 32 }
    ensures rows { (k : K) → namesakes_at K.eq k rows.new.entries ≡ joined (K.eq key k) serial (namesakes_at K.eq k rows.old.entries) }
    ensures kept { HaveJobs K.eq rows.old.entries → HaveJobs K.eq rows.new.entries }
    ensures spare { spare rows.old ≤ spare rows.new + 1 }
{
    let with = Namesakes::of(rows.get(&key).copied()).with(serial);
    let Ok(_) = rows.insert(key, with) else {
        unreachable!()
    };
}

/// Takes a job out of the row of a key.
pub(crate) fn leave<K: Eq + Hash + Copy + Drop>(
    rows: &mut HashMap<K, Namesakes>,
    key: &K,
    serial: Serial,
)
    requires { IsAmong serial (namesakes_at K.eq key.now rows.old.entries) }
    ensures rows { (k : K) → namesakes_at K.eq k rows.new.entries ≡ parted (K.eq key.now k) serial (namesakes_at K.eq k rows.old.entries) }
    ensures kept { HaveJobs K.eq rows.old.entries → HaveJobs K.eq rows.new.entries }
    ensures spare { spare rows.old ≤ spare rows.new }
{
    // `get` tells the range.
    serial.get();
    let row = Namesakes::of(rows.get(key).copied());
    if row.are_several() {
        set(rows, key, row.without(serial));
    } else {
        rows.remove(key);
    }
}
