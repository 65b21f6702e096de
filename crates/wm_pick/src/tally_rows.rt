// Numbers by key: rows of a key and its number, in ascending order of the keys, each key once. A look-up halves the rows
// at each step. A row whose number falls to 0 leaves, so there are no more rows than keys that are counted now.
ghost use Rattle.std.specs.Prelude.{◌≡◌, ◌+◌, ◌^◌, ◌<◌, ◌≤◌, vec_len, vec_capacity, length, count_by, insert, MatchResult, if◌then◌else◌};
ghost use Rattle.wm_desc.specs.Place.{IsAt, IsGap};
ghost use Rattle.wm_desc.specs.Sorted.{IsSortedOnce};
ghost use Rattle.wm_pick.specs.Rows.{key_of, number_at, uncounted};

use std::cmp::Ordering;

// Where the row of a key stands, or where it would go.
fn place<K: Ord>(rows: &[(K, u32)], key: &K) -> Result<usize, usize>
    requires { IsSortedOnce key_of K.cmp rows.now }
    ensures { MatchResult result (IsAt key_of K.cmp key.now rows.now) (IsGap key_of K.cmp key.now rows.now) }
{
    rows.binary_search_by(
        |pair: &(K, u32)| -> Ordering
            ensures { result ≡ K.cmp pair.now.0 key.entry.now }
        { pair.0.cmp(key) },
    )
}

/// The number of a key, which is 0 where it has no row.
pub(crate) fn number<K: Ord>(rows: &[(K, u32)], key: &K) -> u32
    requires { IsSortedOnce key_of K.cmp rows.now }
    ensures { result ≡ number_at K.eq key.now rows.now }
{
    match place(rows, key) {
        Ok(at) => rows[at].1,
        Err(_) => 0,
    }
}

// Puts in a row with the number 1, for which there is room.
fn put<K>(rows: &mut Vec<(K, u32)>, at: usize, key: K)
    requires in_range { at ≤ vec_len rows.old }
    requires room { vec_len rows.old < vec_capacity rows.old }
    ensures items { rows.new.items ≡ insert rows.old.items at (key, 1) }
    ensures len { vec_len rows.new ≡ vec_len rows.old + 1 }
    ensures capacity { vec_capacity rows.new ≡ vec_capacity rows.old }
{
    rows.insert(at, (key, 1)).unwrap();
}

// Adds 1 to the number of a key.
fn raise<K: Ord + Copy>(rows: &mut Vec<(K, u32)>, key: &K)
    requires sorted { IsSortedOnce key_of K.cmp rows.old.items }
    requires counted { uncounted rows.old.items ≡ 0 }
    requires room { vec_len rows.old < vec_capacity rows.old }
    requires fits { number_at K.eq key.now rows.old.items + 1 < 2 ^ 32 }
    ensures sorted { IsSortedOnce key_of K.cmp rows.new.items }
    ensures counted { uncounted rows.new.items ≡ 0 }
    ensures numbers { (k : K) → number_at K.eq k rows.new.items ≡ number_at K.eq k rows.old.items + (if K.eq key.now k then 1 else 0) }
    ensures len { vec_len rows.new ≤ vec_len rows.old + 1 }
    ensures capacity { vec_capacity rows.new ≡ vec_capacity rows.old }
{
    match place(rows.as_slice(), key) {
        Ok(at) => {
            let pair = &mut rows[at];
            pair.1 += 1;
        }
        Err(at) => put(rows, at, *key),
    }
}

// Takes 1 from the number of a key.
fn lower<K: Ord + Copy>(rows: &mut Vec<(K, u32)>, key: &K)
    requires sorted { IsSortedOnce key_of K.cmp rows.old.items }
    requires counted { uncounted rows.old.items ≡ 0 }
    requires some { 1 ≤ number_at K.eq key.now rows.old.items }
    ensures sorted { IsSortedOnce key_of K.cmp rows.new.items }
    ensures counted { uncounted rows.new.items ≡ 0 }
    ensures numbers { (k : K) → number_at K.eq k rows.new.items + (if K.eq key.now k then 1 else 0) ≡ number_at K.eq k rows.old.items }
    ensures len { vec_len rows.new ≤ vec_len rows.old }
    ensures capacity { vec_capacity rows.new ≡ vec_capacity rows.old }
{
    let Ok(at) = place(rows.as_slice(), key) else {
        unreachable!()
    };
    if rows[at].1 == 1 {
        rows.remove(at);
    } else {
        let pair = &mut rows[at];
        pair.1 -= 1;
    }
}

/// Adds 1 to the number of each key in a list.
pub(crate) fn raise_all<K: Ord + Copy>(rows: &mut Vec<(K, u32)>, keys: &[K])
    requires sorted { IsSortedOnce key_of K.cmp rows.old.items }
    requires counted { uncounted rows.old.items ≡ 0 }
    requires room { vec_len rows.old + length keys.now ≤ vec_capacity rows.old }
    requires fits { (k : K) → number_at K.eq k rows.old.items + count_by (λ key. K.eq key k) keys.now < 2 ^ 32 }
    ensures sorted { IsSortedOnce key_of K.cmp rows.new.items }
    ensures counted { uncounted rows.new.items ≡ 0 }
    ensures numbers { (k : K) → number_at K.eq k rows.new.items ≡ number_at K.eq k rows.old.items + count_by (λ key. K.eq key k) keys.now }
    ensures len { vec_len rows.new ≤ vec_len rows.old + length keys.now }
    ensures capacity { vec_capacity rows.new ≡ vec_capacity rows.old }
{
    for key in keys {
        raise(rows, key);
    }
}

/// Takes 1 from the number of each key in a list.
pub(crate) fn lower_all<K: Ord + Copy>(rows: &mut Vec<(K, u32)>, keys: &[K])
    requires sorted { IsSortedOnce key_of K.cmp rows.old.items }
    requires counted { uncounted rows.old.items ≡ 0 }
    requires some { (k : K) → count_by (λ key. K.eq key k) keys.now ≤ number_at K.eq k rows.old.items }
    ensures sorted { IsSortedOnce key_of K.cmp rows.new.items }
    ensures counted { uncounted rows.new.items ≡ 0 }
    ensures numbers { (k : K) → number_at K.eq k rows.new.items + count_by (λ key. K.eq key k) keys.now ≡ number_at K.eq k rows.old.items }
    ensures len { vec_len rows.new ≤ vec_len rows.old }
    ensures capacity { vec_capacity rows.new ≡ vec_capacity rows.old }
{
    for key in keys {
        lower(rows, key);
    }
}
