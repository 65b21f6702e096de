// What time it is.
ghost use Rattle.std.specs.Prelude.{◌≡◌, ℕ, Option, IfSome, IsSome};

use wm_base::Moment;

/// A clock. It may stand still and go back.
pub trait Clock {
    /// The moment that the next call gives, where it is told.
    ghost coming: { Self → Option ℕ };

    /// The present moment.
    fn now(&mut self) -> Moment
        ensures told { IfSome (coming self.old) (λ moment. result ≡ moment) }
        ensures never_again { IfSome (coming self.new) (λ _. IsSome (coming self.old)) };
}
