// The commands that make objects.
ghost use Rattle.std.specs.Prelude.{◌≡◌, [], IsTrue, OnOk, OnErr, IfOk};
ghost use Rattle.wm_desc.specs.Ranges.{class_in_range, path_in_range, jobd_in_range, maxjobs_in_range};
ghost use Rattle.wm_law.specs.Making.{class_of, jobd_of, make_class, make_queue, make_program, make_job_description, make_description};
ghost use Rattle.wm_making.specs.Making.{state_with};

use crate::replies::made;
use crate::values::{class_of, jobd_of};
use std::alloc::Global;
use wm_base::NoMemory;
use wm_desc::Objects;
use wm_law::{Crtcls, Crtjobd, Crtjobq, Crtpgmref, Crtsbsd, Reply};

/// CRTCLS.
pub(crate) fn make_class(objects: &mut Objects, command: &Crtcls) -> Result<Reply, NoMemory>
    requires { IsTrue (class_in_range (class_of command.now)) }
    ensures reply { IfOk result (λ r. r ≡ (make_class (state_with objects.old []) command.now).reply) }
    ensures objects { OnOk result (objects.new ≡ (make_class (state_with objects.old []) command.now).state.objects) }
    ensures err { OnErr result (objects.new ≡ objects.old) }
{
    let reply = made(objects.add_class(command.cls, class_of(command)))?;
    Ok(reply)
}

/// CRTJOBQ.
pub(crate) fn make_queue(objects: &mut Objects, command: &Crtjobq) -> Result<Reply, NoMemory>
    ensures reply { IfOk result (λ r. r ≡ (make_queue (state_with objects.old []) command.now).reply) }
    ensures objects { OnOk result (objects.new ≡ (make_queue (state_with objects.old []) command.now).state.objects) }
    ensures err { OnErr result (objects.new ≡ objects.old) }
{
    let reply = made(objects.add_jobq(command.jobq))?;
    Ok(reply)
}

/// CRTPGMREF.
pub(crate) fn make_program(objects: &mut Objects, command: &Crtpgmref) -> Result<Reply, NoMemory>
    requires { IsTrue (path_in_range command.now.path) }
    ensures reply { IfOk result (λ r. r ≡ (make_program (state_with objects.old []) command.now).reply) }
    ensures objects { OnOk result (objects.new ≡ (make_program (state_with objects.old []) command.now).state.objects) }
    ensures err { OnErr result (objects.new ≡ objects.old) }
{
    let reply = made(objects.add_program(command.pgm, command.path.clone()?))?;
    Ok(reply)
}

/// CRTJOBD.
pub(crate) fn make_job_description(
    objects: &mut Objects,
    command: &Crtjobd,
) -> Result<Reply, NoMemory>
    requires { IsTrue (jobd_in_range (jobd_of command.now)) }
    ensures reply { IfOk result (λ r. r ≡ (make_job_description (state_with objects.old []) command.now).reply) }
    ensures objects { OnOk result (objects.new ≡ (make_job_description (state_with objects.old []) command.now).state.objects) }
    ensures err { OnErr result (objects.new ≡ objects.old) }
{
    let reply = made(objects.add_jobd(command.jobd, jobd_of(command)?))?;
    Ok(reply)
}

/// CRTSBSD.
pub(crate) fn make_description(
    alloc: Global,
    objects: &mut Objects,
    command: &Crtsbsd,
) -> Result<Reply, NoMemory>
    requires { IsTrue (maxjobs_in_range command.now.maxjobs) }
    ensures reply { IfOk result (λ r. r ≡ (make_description (state_with objects.old []) command.now).reply) }
    ensures objects { OnOk result (objects.new ≡ (make_description (state_with objects.old []) command.now).state.objects) }
    ensures err { OnErr result (objects.new ≡ objects.old) }
{
    let reply = made(objects.add_sbsd(alloc, command.sbsd, command.maxjobs))?;
    Ok(reply)
}
