// The keys that a how names.
use crate::Counted;
use wm_base::How;

/// The keys that a how names: none, two or four.
#[derive(Drop)]
pub(crate) enum Keys {
    NoKey,
    Two([Counted; 2]),
    Four([Counted; 4]),
}

impl Keys {
    ghost use Rattle.std.specs.Prelude.{◌≡◌};
    ghost use Rattle.wm_pick.specs.How.{keys_of};
    ghost use Rattle.wm_pick.specs.Keys.{keys_in};

    pub(crate) fn of(how: &How) -> Keys
        ensures { keys_in result ≡ keys_of how.now }
    {
        match how {
            How::NotYet => Keys::NoKey,
            How::FromQueue {
                sbs,
                jobq,
                pty,
                route,
            } => Keys::Four([
                Counted::Sbs(*sbs),
                Counted::Queue(*sbs, *jobq),
                Counted::Pty(*sbs, *jobq, *pty),
                Counted::Route(*sbs, *route),
            ]),
            How::Auto { sbs, route } => {
                Keys::Two([Counted::Sbs(*sbs), Counted::Route(*sbs, *route)])
            }
            How::Pre { sbs, pgm } => Keys::Two([Counted::Sbs(*sbs), Counted::Pre(*sbs, *pgm)]),
        }
    }

    pub(crate) fn as_slice(&self) -> &[Counted]
        ensures { result.now ≡ keys_in self.now }
    {
        match self {
            Keys::NoKey => &[],
            Keys::Two(keys) => keys,
            Keys::Four(keys) => keys,
        }
    }
}
