// What a monitor is told to start.
ghost use Rattle.std.specs.Prelude.{◌≡◌, IfOk};
ghost use Rattle.wm_law.specs.Launch.{args_of, called_args};

use crate::Parts;
use crate::launch::called_program;
use crate::routing::entry_numbered;
use std::alloc::Global;
use wm_base::{Args, How, NoMemory, QName, StartOrder};
use wm_clwords::Request;
use wm_desc::{PreEntry, RouteEntry, is_qcmd};
use wm_law::Job;

// The values of the request.
fn args_of(alloc: Global, request: &Option<Request>) -> Result<Args, NoMemory>
    ensures { IfOk result (λ args. args ≡ args_of request.now) }
{
    match request {
        None => Ok(Args::new(alloc)),
        Some(request) => request.parms(alloc),
    }
}

// The arguments that the called program gets.
fn called_args(
    alloc: Global,
    entry: &RouteEntry,
    request: &Option<Request>,
) -> Result<Args, NoMemory>
    ensures { IfOk result (λ args. args ≡ called_args entry.now request.now) }
{
    if is_qcmd(&entry.pgm) {
        return args_of(alloc, request);
    }
    let Some(request) = request else {
        return Ok(Args::new(alloc));
    };
    Ok(Args::from(vec![in alloc; request.text().clone()?]?))
}

impl<'a> Parts<'a> {
    ghost use Rattle.std.specs.Prelude.{◌≡◌, Some, IfOk};
    ghost use Rattle.std.specs.Option.{option_copied};
    ghost use Rattle.wm_law.specs.Launch.{route_entry, pre_entry, order_of, order_pre, order_through};

    // A subsystem's routing entry of a number.
    fn route_entry(&self, sbs: &QName, seq: u32) -> Option<&RouteEntry>
        ensures { option_copied result ≡ route_entry self.now sbs.now seq }
    {
        entry_numbered(self.objects.sbsds.object(sbs)?, seq)
    }

    // A subsystem's prestart entry for a program.
    fn pre_entry(&self, sbs: &QName, pgm: &QName) -> Option<&PreEntry>
        ensures { option_copied result ≡ pre_entry self.now sbs.now pgm.now }
    {
        self.objects.sbsds.object(sbs)?.pres.get(pgm)
    }

    /// The order of a Starting job: the program of its routing or prestart entry with the entry's class. `None` where one of
    /// these isn't there. An `Err` is want of memory.
    pub fn order_of(&self, alloc: Global, job: &Job) -> Result<Option<StartOrder>, NoMemory>
        ensures { IfOk result (λ order. order ≡ order_of self.now job.now) }
    {
        let entry = match &job.how {
            How::FromQueue { sbs, route, .. } => self.route_entry(sbs, *route),
            How::Auto { sbs, route } => self.route_entry(sbs, *route),
            How::Pre { sbs, pgm } => return self.order_pre(alloc, job, self.pre_entry(sbs, pgm)),
            How::NotYet => None,
        };
        match entry {
            None => Ok(None),
            Some(entry) => self.order_through(alloc, job, entry),
        }
    }

    // The order of a prestart job by its entry.
    fn order_pre(
        &self,
        alloc: Global,
        job: &Job,
        entry: Option<&PreEntry>,
    ) -> Result<Option<StartOrder>, NoMemory>
        ensures { IfOk result (λ order. order ≡ order_pre self.now job.now (option_copied entry.entry)) }
    {
        let Some(entry) = entry else {
            return Ok(None);
        };
        let Some(program) = self.objects.programs.object(&entry.pgm) else {
            return Ok(None);
        };
        let Some(cls) = self.objects.classes.object(&entry.cls) else {
            return Ok(None);
        };
        Ok(Some(StartOrder {
            serial: job.serial,
            job: job.job,
            path: program.path.clone()?,
            args: Args::new(alloc),
            cls: *cls,
            pre: true,
        }))
    }

    fn order_through(
        &self,
        alloc: Global,
        job: &Job,
        entry: &RouteEntry,
    ) -> Result<Option<StartOrder>, NoMemory>
        ensures { IfOk result (λ order. order ≡ order_through self.now job.now (Some entry.now)) }
    {
        let Some(pgm) = called_program(entry, &job.rqsdta) else {
            return Ok(None);
        };
        let Some(program) = self.objects.programs.object(&pgm) else {
            return Ok(None);
        };
        let Some(cls) = self.objects.classes.object(&entry.cls) else {
            return Ok(None);
        };
        Ok(Some(StartOrder {
            serial: job.serial,
            job: job.job,
            path: program.path.clone()?,
            args: called_args(alloc, entry, &job.rqsdta)?,
            cls: *cls,
            pre: false,
        }))
    }
}
