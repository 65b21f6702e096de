// What the wish of a job says.
ghost use Rattle.std.specs.Prelude.{◌≡◌};
ghost use Rattle.wm_law.specs.Wishes.{handed_wish, now_cause, why_cause};

use wm_base::EndCause;
use wm_law::{Why, Wish};

fn why_cause(why: &Why) -> EndCause
    ensures { result ≡ why_cause why.now }
{
    match why {
        Why::Endjob => EndCause::Endjob,
        Why::Endsbs => EndCause::Endsbs,
        Why::Endpj => EndCause::Endpj,
        Why::Maxuse => EndCause::Maxuse,
    }
}

/// The cause by which a wish to end now ends a job.
pub fn now_cause(wish: &Wish) -> Option<EndCause>
    ensures { result ≡ now_cause wish.now }
{
    match wish {
        Wish::NoWish | Wish::Later { .. } => None,
        Wish::Now { why, .. } => Some(why_cause(why)),
    }
}

/// The wish once its kill is handed.
pub fn handed_wish(wish: &Wish) -> Wish
    ensures { result ≡ handed_wish wish.now }
{
    match wish {
        Wish::NoWish | Wish::Later { .. } => *wish,
        Wish::Now { why, .. } => Wish::Now {
            why: *why,
            handed: true,
        },
    }
}
