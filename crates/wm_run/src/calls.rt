// The session's calls: that of a user's command, and its own.
ghost use Rattle.std.specs.Prelude.{◌≡◌, IfOk};
ghost use Rattle.wm_law.specs.Fit.{IsCall, IsCommand};
ghost use Rattle.wm_law.specs.declared.call.Call.TheVariants.{Change};
ghost use Rattle.wm_run.specs.Session.{start_call, end_call};

use std::alloc::Global;
use wm_base::{Name, NoMemory, QName};
use wm_law::{Boxed, Call, Command, EndOption, Pwrdwnsys, Strsbs};

/// The call of a user's command. An `Err` is want of memory.
pub fn user_call(alloc: Global, user: &Name, command: Command) -> Result<Call, NoMemory>
    requires { IsCommand command }
    ensures call { IfOk result (λ call. call ≡ Change user.now command) }
    ensures fit { IfOk result IsCall }
{
    // The form of the name is what a call asks for.
    let _name = user.as_bytes();
    Ok(Call::Change {
        user: *user,
        command: Boxed::new(alloc, command)?,
    })
}

/// The call that starts the controlling subsystem. An `Err` is want of memory.
pub fn start_call(alloc: Global, ctl: &QName) -> Result<Call, NoMemory>
    ensures call { IfOk result (λ call. call ≡ start_call ctl.now) }
    ensures fit { IfOk result IsCall }
{
    // The forms of the names are what a call asks for.
    let _lib = ctl.lib.as_bytes();
    let _name = ctl.name.as_bytes();
    let command = Command::Strsbs(Strsbs { sbsd: *ctl });
    Ok(Call::Change {
        user: Name::of(b"QSYS"),
        command: Boxed::new(alloc, command)?,
    })
}

/// The call that puts the power down at the end of the input. An `Err` is want of memory.
pub fn end_call(alloc: Global) -> Result<Call, NoMemory>
    ensures call { IfOk result (λ call. call ≡ end_call) }
    ensures fit { IfOk result IsCall }
{
    let command = Command::Pwrdwnsys(Pwrdwnsys {
        option: EndOption::Immed,
        delay: Some(3600),
    });
    Ok(Call::Change {
        user: Name::of(b"QSYS"),
        command: Boxed::new(alloc, command)?,
    })
}
