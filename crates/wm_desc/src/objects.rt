// The objects, and what makes one.
use crate::refuse::{object_refusal, program_refusal};
use crate::{Classes, DescFault, Jobd, Jobds, Jobq, Jobqs, Program, Programs, Sbsd, Sbsds};
use std::alloc::Global;
use wm_base::{Class, Kind, Limit, QName, Text};

/// The objects: one description for each qualified name of a kind.
#[derive(Clone, Drop)]
pub struct Objects {
    pub classes: Classes,
    pub jobqs: Jobqs,
    pub programs: Programs,
    pub jobds: Jobds,
    pub sbsds: Sbsds,
}

impl Objects {
    ghost use Rattle.std.specs.Prelude.{◌≡◌, IsTrue, OnOk, OnErr, []};
    ghost use Rattle.wm_desc.specs.Objects.{with_class, with_jobq, with_program, with_jobd, with_sbsd};
    ghost use Rattle.wm_desc.specs.Ranges.{class_in_range, path_in_range, jobd_in_range, maxjobs_in_range};
    ghost use Rattle.wm_desc.specs.Refusals.{IsAnswer, object_refusal, program_refusal};

    /// No objects.
    pub fn new(alloc: Global) -> Objects
        ensures { result ≡ record { classes = []; jobqs = []; programs = []; jobds = []; sbsds = [] } }
    {
        Objects {
            classes: Classes::new(alloc),
            jobqs: Jobqs::new(alloc),
            programs: Programs::new(alloc),
            jobds: Jobds::new(alloc),
            sbsds: Sbsds::new(alloc),
        }
    }

    /// Makes a class (CRTCLS).
    pub fn add_class(&mut self, name: QName, cls: Class) -> Result<(), DescFault>
        requires { IsTrue (class_in_range cls) }
        ensures answer { IsAnswer (object_refusal Kind.Cls name self.old.classes) result }
        ensures ok { OnOk result (self.new ≡ with_class name cls self.old) }
        ensures err { OnErr result (self.new ≡ self.old) }
    {
        if let Some(refusal) = object_refusal(&self.classes, &name, Kind::Cls) {
            return Err(DescFault::No(refusal));
        }
        self.classes.insert((name, cls))?;
        Ok(())
    }

    /// Makes a job queue (CRTJOBQ).
    pub fn add_jobq(&mut self, name: QName) -> Result<(), DescFault>
        ensures answer { IsAnswer (object_refusal Kind.Jobq name self.old.jobqs) result }
        ensures ok { OnOk result (self.new ≡ with_jobq name self.old) }
        ensures err { OnErr result (self.new ≡ self.old) }
    {
        if let Some(refusal) = object_refusal(&self.jobqs, &name, Kind::Jobq) {
            return Err(DescFault::No(refusal));
        }
        self.jobqs.insert((name, Jobq {}))?;
        Ok(())
    }

    /// Makes a program of this project's own command CRTPGMREF. QSYS/QCMD is refused as one that exists.
    pub fn add_program(&mut self, name: QName, path: Text) -> Result<(), DescFault>
        requires { IsTrue (path_in_range path) }
        ensures answer { IsAnswer (program_refusal name self.old.programs) result }
        ensures ok { OnOk result (self.new ≡ with_program name path self.old) }
        ensures err { OnErr result (self.new ≡ self.old) }
    {
        if let Some(refusal) = program_refusal(&self.programs, &name) {
            return Err(DescFault::No(refusal));
        }
        self.programs.insert((name, Program { path }))?;
        Ok(())
    }

    /// Makes a job description (CRTJOBD). Its queue needn't exist.
    pub fn add_jobd(&mut self, name: QName, jobd: Jobd) -> Result<(), DescFault>
        requires { IsTrue (jobd_in_range jobd) }
        ensures answer { IsAnswer (object_refusal Kind.Jobd name self.old.jobds) result }
        ensures ok { OnOk result (self.new ≡ with_jobd name jobd self.old) }
        ensures err { OnErr result (self.new ≡ self.old) }
    {
        if let Some(refusal) = object_refusal(&self.jobds, &name, Kind::Jobd) {
            return Err(DescFault::No(refusal));
        }
        self.jobds.insert((name, jobd))?;
        Ok(())
    }

    /// Makes a subsystem description without entries (CRTSBSD).
    pub fn add_sbsd(&mut self, alloc: Global, name: QName, maxjobs: Limit) -> Result<(), DescFault>
        requires { IsTrue (maxjobs_in_range maxjobs) }
        ensures answer { IsAnswer (object_refusal Kind.Sbsd name self.old.sbsds) result }
        ensures ok { OnOk result (self.new ≡ with_sbsd name maxjobs self.old) }
        ensures err { OnErr result (self.new ≡ self.old) }
    {
        if let Some(refusal) = object_refusal(&self.sbsds, &name, Kind::Sbsd) {
            return Err(DescFault::No(refusal));
        }
        self.sbsds.insert((name, Sbsd::new(alloc, maxjobs)))?;
        Ok(())
    }
}
