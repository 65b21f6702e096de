// Rows of jobs by a key of theirs, which come and go without memory.
ghost use Rattle.std.specs.Prelude.{◌≡◌, ◌+◌, ◌≤◌, false, IfOk, if◌then◌else◌};
ghost use Rattle.wm_desc.specs.Sorted.{has_key, added, removed};
ghost use Rattle.wm_ordered.specs.Index.{capacity_of};
ghost use Rattle.wm_ordered.specs.Ordered.{key_of};

use std::alloc::AllocError;
use wm_base::NoMemory;
use wm_ordered::Ordered;

/// How many more rows there has to be room for, where there are to be so many at the most.
pub(crate) fn lacking(most: u32, there: usize) -> u32
    ensures { most ≤ there + result }
{
    (most as usize).saturating_sub(there) as u32
}

/// How many there may be, where there is to be room for so many more.
pub(crate) fn whole(there: usize, more: u32) -> Result<u32, NoMemory>
    ensures { IfOk result (λ most. most ≡ there + more) }
{
    let most = there.checked_add(more as usize).ok_or(AllocError)?;
    if most > u32::MAX as usize {
        return Err(AllocError);
    }
    Ok(most as u32)
}

/// Puts in the row of a job, where it has one.
pub(crate) fn put_row<K: Ord + Copy, V: Copy>(
    rows: &mut Ordered<K, V>,
    has_one: bool,
    key: K,
    value: V,
)
    requires spare { 1 ≤ rows.old.spare }
    requires new { has_key key_of K.eq key rows.old.items ≡ false }
    ensures items { rows.new.items ≡ (if has_one then added key_of K.cmp (key, value) rows.old.items else rows.old.items) }
    ensures capacity { capacity_of rows.new ≡ capacity_of rows.old }
{
    if has_one {
        rows.insert(key, value);
    }
}

/// Takes out the row of a job, where it has one. Its room is spare again.
pub(crate) fn take_row<K: Ord + Copy, V: Copy>(rows: &mut Ordered<K, V>, has_one: bool, key: &K)
    ensures items { rows.new.items ≡ (if has_one then removed key_of K.eq key.now rows.old.items else rows.old.items) }
    ensures capacity { capacity_of rows.new ≡ capacity_of rows.old }
{
    // `len` tells that a key has one row.
    rows.len();
    if has_one {
        rows.remove(key);
    }
}
