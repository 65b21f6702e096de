// A job that a restart has ended, which no call does.
use std::alloc::Global;
use wm_base::{EndCause, JobName, JobNumber, Name, NoMemory, Priority};
use wm_law::JobKind;
use wm_listing::listing;
use wm_views::{JobLine, JobLines, Shown, Status};

fn restarted() -> JobLine {
    JobLine {
        job: JobName {
            number: JobNumber::new(1),
            user: Name::of(b"QUSER"),
            name: Name::of(b"A"),
        },
        kind: JobKind::Bch,
        pty: Priority::new(5),
        status: Status::Ended(EndCause::Restarted),
    }
}

/// The listing of that job.
pub fn listed_restarted(alloc: Global) -> Result<Vec<u8>, NoMemory> {
    let mut lines = Vec::new(alloc);
    lines.push(restarted())?;
    listing(alloc, &Shown::Submitted(JobLines::from(lines)))
}
