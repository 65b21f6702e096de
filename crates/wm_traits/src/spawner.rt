// What starts programs.
ghost use Rattle.std.specs.Prelude.{◌≡◌, ◌↔◌, ℕ, List, [], ◌∷◌, Option, None, Ok, IsTrue, IfOk, IfErr, OnOk, OnErr, IfSome, Contains, is_some};
ghost use Rattle.wm_base.specs.declared.job.Asked.{Asked};
ghost use Rattle.wm_base.specs.declared.job.Asked.TheVariants.{Start, Kill};
ghost use Rattle.wm_traits.specs.Told.{AreAmong, Grows, Becomes, IsEmpty};
ghost use Rattle.wm_traits.specs.Cause.{HasCause, HasStartCause};

use crate::{Failed, StartFault};
use std::sync::Wait;
use wm_base::{Event, Moment, Serial, StartOrder};

/// What a spawner answered: a child began or it didn't, and what a child reported.
#[derive(Clone, Copy)]
pub enum Told {
    Began(Serial),
    NotBegan(Serial, StartFault),
    Happened(Event),
}

/// What starts programs, kills them and reports their ends. A child is out from its start until its end is reported.
pub trait Spawner {
    ghost use Rattle.wm_traits.specs.declared.spawner.Told.{Told};
    ghost use Rattle.wm_traits.specs.declared.spawner.Told.TheVariants.{Began, NotBegan};
    ghost use Rattle.wm_traits.specs.Spawner.{look_told, out_after, IfEnded};

    /// How many starts failed. It never falls, and `start` alone raises it.
    ghost misses: { Self → ℕ };

    /// How many of the other calls failed. It never falls, and they alone raise it.
    ghost faults: { Self → ℕ };

    /// All starts and kills that were asked for, in order, where they are told.
    ghost asked: { Self → Option (List Asked) };

    /// The children that are out, the longest out first, where they are told.
    ghost out: { Self → Option (List ℕ) };

    /// What was answered, in order, told where `out` is told.
    ghost told: { Self → Option (List Told) };

    /// The children that have a report at the next look, where they are told.
    ghost reporting: { Self → Option (List ℕ) };

    /// The moments until which reports were waited for, in order, None where there was no such moment, where they are told.
    ghost awaited: { Self → Option (List (Option ℕ)) };

    /// Starts a program. The child is out then.
    fn start(&mut self, order: &StartOrder) -> Result<(), StartFault>
        ensures asked { Grows (asked self.old) (asked self.new) (Start order.now ∷ []) }
        ensures began { OnOk result (Grows (told self.old) (told self.new) (Began order.now.serial ∷ [])) }
        ensures not_began { IfErr result (λ fault. Grows (told self.old) (told self.new) (NotBegan order.now.serial fault ∷ [])) }
        ensures out { OnOk result (Grows (out self.old) (out self.new) (order.now.serial ∷ [])) }
        ensures not_out { OnErr result (Grows (out self.old) (out self.new) []) }
        ensures cause { HasStartCause (misses self.old) (misses self.new) result }
        ensures faults { faults self.new ≡ faults self.old }
        ensures awaited { Grows (awaited self.old) (awaited self.new) [] };

    /// Kills a child, and answers whether it was out. Its end is still to be reported.
    fn kill(&mut self, job: Serial) -> Result<bool, Failed>
        ensures was_out { IfOk result (λ was_out. IfSome (out self.old) (λ out. IsTrue was_out ↔ Contains out job)) }
        ensures asked { Grows (asked self.old) (asked self.new) (Kill job ∷ []) }
        ensures told { Grows (told self.old) (told self.new) [] }
        ensures out { Grows (out self.old) (out self.new) [] }
        ensures cause { HasCause (faults self.old) (faults self.new) result }
        ensures misses { misses self.new ≡ misses self.old }
        ensures awaited { Grows (awaited self.old) (awaited self.new) [] };

    /// Looks for a report, and doesn't wait. It is None only where no child that is out has one.
    fn ended(&mut self) -> Result<Option<Event>, Failed>
        ensures none { result ≡ Ok None → IsEmpty (reporting self.old) }
        ensures was_out { IfEnded result (λ serial. IfSome (out self.old) (λ out. Contains out serial)) }
        ensures out { Becomes (out self.old) (out self.new) (out_after result) }
        ensures told { Grows (told self.old) (told self.new) (look_told result) }
        ensures asked { Grows (asked self.old) (asked self.new) [] }
        ensures cause { HasCause (faults self.old) (faults self.new) result }
        ensures misses { misses self.new ≡ misses self.old }
        ensures awaited { Grows (awaited self.old) (awaited self.new) [] };

    /// Waits for a report, until the moment at the latest where one is given. It is None only where no child is out or
    /// a moment was given.
    fn wait_ended<W: Wait>(
        &mut self,
        rt: &W,
        until: Option<Moment>,
    ) -> Result<Option<Event>, Failed>
        ensures none { result ≡ Ok None → until ≡ None → IsEmpty (out self.old) }
        ensures was_out { IfEnded result (λ serial. IfSome (out self.old) (λ out. Contains out serial)) }
        ensures out { Becomes (out self.old) (out self.new) (out_after result) }
        ensures told { Grows (told self.old) (told self.new) (look_told result) }
        ensures asked { Grows (asked self.old) (asked self.new) [] }
        ensures cause { HasCause (faults self.old) (faults self.new) result }
        ensures misses { misses self.new ≡ misses self.old }
        ensures awaited { Grows (awaited self.old) (awaited self.new) (until ∷ []) };

    /// The answers are told where the children are.
    ghost told_with_out: { (spawner : Self) → is_some (told spawner) ≡ is_some (out spawner) };

    /// A child that has a report is out.
    ghost reporting_are_out: { (spawner : Self) → AreAmong (reporting spawner) (out spawner) };
}
