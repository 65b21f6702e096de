// Numbers that are used.
ghost use Rattle.std.specs.Prelude.{◌≡◌, ◌≤◌, ◌&&◌, ◌||◌, true, false};
ghost use Rattle.wm_desc.specs.Sorted.{has_key};
ghost use Rattle.wm_ordered.specs.Ordered.{key_of};

use wm_ordered::Ordered;

/// Puts a number among those that are used, where it is to be marked.
pub(crate) fn mark<K: Ord + Copy>(used: &mut Ordered<K, ()>, number: K, marks: bool)
    requires spare { 1 ≤ used.old.spare }
    requires new { marks ≡ true → has_key key_of K.eq number used.old.items ≡ false }
    ensures { (k : K) → has_key key_of K.eq k used.new.items ≡ ((marks && K.eq number k) || has_key key_of K.eq k used.old.items) }
{
    if marks {
        used.insert(number, ());
    }
}
