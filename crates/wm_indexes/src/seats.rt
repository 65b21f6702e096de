// The seats of idle prestart jobs.
ghost use Rattle.std.specs.Prelude.{◌≡◌};
ghost use Rattle.wm_indexes.specs.Seats.{seat_of};

use crate::prestart_job::PrestartJob;
use crate::seat::Seat;
use wm_base::Serial;

/// The seat of a job.
pub(crate) fn seat_of(serial: Serial, job: &PrestartJob) -> Seat
    ensures { result ≡ seat_of (serial, job.now) }
{
    Seat {
        entry: job.entry,
        number: job.number.get(),
        serial,
    }
}
