// What a command makes of the objects.
ghost use Rattle.std.specs.Prelude.{◌≡◌, OnOk, OnErr, IfOk};
ghost use Rattle.wm_law.specs.Fit.{IsCommand};
ghost use Rattle.wm_making.specs.Making.{change_objects, state_with};

use crate::entries::{
    add_auto, add_pre, add_queue, add_route, remove_auto, remove_pre, remove_queue, remove_route,
};
use crate::making::{make_class, make_description, make_job_description, make_program, make_queue};
use std::alloc::Global;
use wm_base::NoMemory;
use wm_desc::Objects;
use wm_law::{Command, Reply, SbsList};

/// Applies a command that makes an object, or adds or removes an entry; any other does nothing. An `Err` is want of memory
/// and leaves the objects.
pub fn change_objects(
    alloc: Global,
    objects: &mut Objects,
    started: &SbsList,
    command: &Command,
) -> Result<Reply, NoMemory>
    requires { IsCommand command.now }
    ensures reply { IfOk result (λ r. r ≡ (change_objects (state_with objects.old started.now) command.now).reply) }
    ensures objects { OnOk result (objects.new ≡ (change_objects (state_with objects.old started.now) command.now).state.objects) }
    ensures err { OnErr result (objects.new ≡ objects.old) }
{
    match command {
        Command::Crtcls(command) => make_class(objects, command),
        Command::Crtjobq(command) => make_queue(objects, command),
        Command::Crtpgmref(command) => make_program(objects, command),
        Command::Crtjobd(command) => make_job_description(objects, command),
        Command::Crtsbsd(command) => make_description(alloc, objects, command),
        Command::Addjobqe(command) => add_queue(objects, started, command),
        Command::Addrtge(command) => add_route(objects, started, command),
        Command::Addaje(command) => add_auto(objects, started, command),
        Command::Addpje(command) => add_pre(objects, started, command),
        Command::Rmvjobqe(command) => Ok(remove_queue(objects, started, command)),
        Command::Rmvrtge(command) => Ok(remove_route(objects, started, command)),
        Command::Rmvaje(command) => Ok(remove_auto(objects, started, command)),
        Command::Rmvpje(command) => Ok(remove_pre(objects, started, command)),
        _ => Ok(Reply::Nothing),
    }
}
