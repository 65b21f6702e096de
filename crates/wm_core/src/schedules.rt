// From which moment on a job may start, by the schedule of a command.
ghost use Rattle.std.specs.Prelude.{◌≡◌};
ghost use Rattle.wm_law.specs.Schedules.{due_refusal};

use crate::Machine;
use wm_base::{Moment, Refusal};
use wm_when::{DateSpec, DueFault, SchedSpec, TimeSpec, due};

fn due_refusal(fault: DueFault) -> Refusal
    ensures { result ≡ due_refusal fault }
{
    match fault {
        DueFault::Past => Refusal::Past,
        DueFault::OutOfRange => Refusal::OutOfRange,
    }
}

impl Machine {
    ghost use Rattle.std.specs.Prelude.{◌≡◌, IsTrue, IfSome};
    ghost use Rattle.wm_when.specs.Schedule.{date_in_range, time_in_range};
    ghost use Rattle.wm_law.specs.Schedules.{scheduled, rescheduled};

    // The moment that the words name by the clock and the local time, or why there is none.
    pub(crate) fn scheduled(&self, date: DateSpec, time: TimeSpec) -> Result<Moment, Refusal>
        requires date { IsTrue (date_in_range date) }
        requires time { IsTrue (time_in_range time) }
        ensures { result ≡ scheduled self.now.state date time }
    {
        let clock = self.table.clock();
        match due(&SchedSpec { date, time }, clock, self.offset.minutes()) {
            Ok(due) => Ok(due),
            Err(fault) => Err(due_refusal(fault)),
        }
    }

    // The same where words may be left out: without both the moment stays.
    pub(crate) fn rescheduled(
        &self,
        due: Moment,
        date: Option<DateSpec>,
        time: Option<TimeSpec>,
    ) -> Result<Moment, Refusal>
        requires date { IfSome date (λ d. IsTrue (date_in_range d)) }
        requires time { IfSome time (λ t. IsTrue (time_in_range t)) }
        ensures { result ≡ rescheduled self.now.state due date time }
    {
        match (date, time) {
            (None, None) => Ok(due),
            (None, Some(time)) => self.scheduled(DateSpec::Current, time),
            (Some(date), None) => self.scheduled(date, TimeSpec::Current),
            (Some(date), Some(time)) => self.scheduled(date, time),
        }
    }
}
