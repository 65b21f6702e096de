// The end of a use of a prestart job.
ghost use Rattle.std.specs.Prelude.{◌≡◌};
ghost use Rattle.wm_law.specs.Prestart.{wish_after_use};

use wm_base::Limit;
use wm_law::{Why, Wish};

/// The wish of a prestart job whose use is done: one for later is one for now, for the same reason; without one the job ends
/// once it was used MAXUSE times. `uses` counts the use that is done.
pub fn use_done(wish: &Wish, uses: u32, maxuse: &Limit) -> Wish
    ensures { result ≡ wish_after_use maxuse.now uses wish.now }
{
    match wish {
        Wish::NoWish => {
            if maxuse.admits(uses as usize) {
                Wish::NoWish
            } else {
                Wish::Now {
                    why: Why::Maxuse,
                    handed: false,
                }
            }
        }
        Wish::Later { why, .. } => Wish::Now {
            why: *why,
            handed: false,
        },
        Wish::Now { why, handed } => Wish::Now {
            why: *why,
            handed: *handed,
        },
    }
}
