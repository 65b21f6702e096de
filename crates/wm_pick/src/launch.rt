// What becomes of a job whose turn has come.
ghost use Rattle.std.specs.Prelude.{◌≡◌};
ghost use Rattle.wm_law.specs.Launch.{requested, called_program, ends_by, starts_as};

use crate::Parts;
use crate::routing::route;
use wm_base::{EndCause, How, QName};
use wm_clwords::Request;
use wm_desc::{RouteEntry, is_qcmd};
use wm_law::{Job, Launched, Phase};

// The program that a request calls, where there is one and it is a CALL.
fn requested(request: &Option<Request>) -> Option<QName>
    ensures { result ≡ requested request.now }
{
    match request {
        None => None,
        Some(request) => request.program(),
    }
}

// The program that the entry's program calls: QSYS/QCMD that of the request, another one itself.
pub(crate) fn called_program(entry: &RouteEntry, request: &Option<Request>) -> Option<QName>
    ensures { result ≡ called_program entry.now request.now }
{
    if !is_qcmd(&entry.pgm) {
        return Some(entry.pgm);
    }
    requested(request)
}

fn ends_by(cause: EndCause) -> Launched
    ensures { result ≡ ends_by cause }
{
    Launched {
        phase: Phase::Ended(cause),
        how: How::NotYet,
    }
}

fn starts_as(how: How) -> Launched
    ensures { result ≡ starts_as how }
{
    Launched {
        phase: Phase::Starting,
        how,
    }
}

impl<'a> Parts<'a> {
    ghost use Rattle.std.specs.Prelude.{◌≡◌, ℕ};
    ghost use Rattle.wm_base.specs.declared.job.How.{How};
    ghost use Rattle.wm_law.specs.Launch.{program_fault, route_fault, as_auto, routed_in, routed_from_queue};
    ghost use Rattle.wm_pick.specs.Routed.{as_routed};

    // Why what is called can't be started.
    fn program_fault(&self, pgm: Option<QName>) -> Option<EndCause>
        ensures { result ≡ program_fault self.now pgm }
    {
        match pgm {
            None => Some(EndCause::BadRequest),
            Some(pgm) => match self.objects.programs.object(&pgm) {
                None => Some(EndCause::NoProgram),
                Some(_) => None,
            },
        }
    }

    // Why a job that the entry matches can't start in the subsystem.
    fn route_fault(&self, sbs: &QName, entry: &RouteEntry, job: &Job) -> Option<EndCause>
        ensures { result ≡ route_fault self.now sbs.now entry.now job.now }
    {
        let count = self.count_by_route(sbs, entry.seq);
        if entry.maxact.admits(count as usize) {
            self.program_fault(called_program(entry, &job.rqsdta))
        } else {
            Some(EndCause::RouteFull(entry.seq))
        }
    }

    // The number of the routing entry by which a job starts in a subsystem, or why it ends.
    fn routed(&self, sbs: &QName, job: &Job) -> Result<u32, EndCause>
        ensures { (how : ℕ → How) → routed_in self.now sbs.now how job.now ≡ as_routed how result }
    {
        let entry = match self.objects.sbsds.object(sbs) {
            None => None,
            Some(description) => route(description, &job.rtgdta),
        };
        let Some(entry) = entry else {
            return Err(EndCause::NoRoute);
        };
        match self.route_fault(sbs, entry, job) {
            Some(cause) => Err(cause),
            None => Ok(entry.seq),
        }
    }

    /// What the launch of a job of a queue makes of it in a subsystem.
    pub fn launched(&self, sbs: &QName, queue: &QName, job: &Job) -> Launched
        ensures { result ≡ routed_from_queue self.now sbs.now queue.now job.now }
    {
        match self.routed(sbs, job) {
            Err(cause) => ends_by(cause),
            Ok(seq) => starts_as(How::FromQueue {
                sbs: *sbs,
                jobq: *queue,
                pty: job.pty,
                route: seq,
            }),
        }
    }

    /// What the launch of an autostart job makes of it in a subsystem.
    pub fn launched_auto(&self, sbs: &QName, job: &Job) -> Launched
        ensures { result ≡ routed_in self.now sbs.now (as_auto sbs.now) job.now }
    {
        match self.routed(sbs, job) {
            Err(cause) => ends_by(cause),
            Ok(seq) => starts_as(How::Auto {
                sbs: *sbs,
                route: seq,
            }),
        }
    }
}
