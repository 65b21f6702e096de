// The kills that are yet to be handed, each with its monitor.
ghost use Rattle.std.specs.Prelude.{◌≡◌, ◌==◌, find, count_by, option_map};
ghost use Rattle.wm_ordered.specs.Ordered.{key_of};

use wm_base::Serial;
use wm_ordered::Ordered;

/// The least serial whose kill a monitor is to be handed.
pub(crate) fn first_of(kills: &Ordered<Serial, u32>, monitor: u32) -> Option<Serial>
    ensures { result ≡ option_map key_of (find (λ row. row.1 == monitor) kills.now.items) }
{
    let mut next = kills.first();
    for _place in 0..kills.len() {
        let Some(row) = next else { unreachable!() };
        if row.1 == monitor {
            return Some(row.0);
        }
        next = kills.first_above(&row.0);
    }
    None
}

/// How many kills a monitor is to be handed.
pub(crate) fn count_of(kills: &Ordered<Serial, u32>, monitor: u32) -> usize
    ensures { result ≡ count_by (λ row. row.1 == monitor) kills.now.items }
{
    let mut count = 0;
    let mut next = kills.first();
    for _place in 0..kills.len() {
        let Some(row) = next else { unreachable!() };
        if row.1 == monitor {
            count += 1;
        }
        next = kills.first_above(&row.0);
    }
    count
}
