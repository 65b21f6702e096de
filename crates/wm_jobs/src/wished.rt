// What the wishes of active jobs ask for.
use crate::JobTable;
use wm_base::Moment;
use wm_law::Job;

impl JobTable {
    ghost use Rattle.std.specs.Prelude.{◌≡◌, ◌==◌, Some, find};
    ghost use Rattle.std.specs.Option.{option_copied};
    ghost use Rattle.wm_law.specs.Reports.{is_to_kill};
    ghost use Rattle.wm_law.specs.declared.job.Job.{Job};
    ghost use Rattle.wm_jobs.specs.Table.{kills_in, next_wish_in};

    /// The job of least serial that a monitor runs and whose kill isn't handed to it yet. It goes through the kills alone that
    /// are yet to be handed.
    pub fn first_kill(&self, monitor: u32) -> Option<&Job>
        ensures first { option_copied result ≡ find (is_to_kill monitor) self.now.jobs }
        ensures by_serial { (j : Job) → option_copied result ≡ Some j → find (λ k. k.serial == j.serial) self.now.jobs ≡ Some j }
    {
        let serial = self.active.first_kill(monitor)?;
        self.job(serial)
    }

    /// How many kills a monitor is yet to be handed. It goes through those of all monitors.
    pub fn kills(&self, monitor: u32) -> usize
        ensures { result ≡ kills_in monitor self.now.jobs }
    {
        self.active.kills(monitor)
    }

    /// The least moment above the clock of an active job's wish. It is one look.
    pub fn next_wish(&self) -> Option<Moment>
        ensures { result ≡ next_wish_in self.now.clock self.now.jobs }
    {
        self.active.next_above(self.waiting.clock())
    }
}
