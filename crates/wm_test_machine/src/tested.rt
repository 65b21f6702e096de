// What the cases ask: the machine, and the user of its commands.
use crate::calls;
use crate::change::line_of;
use crate::monitor::call_of;
use crate::reply::{write_ordered, write_reply};
use crate::text::{first_word, number_of};
use anyhow::Result;
use std::alloc::Global;
use wm_base::{Moment, Name};
use wm_command::Line;
use wm_core::Core;
use wm_desc::Objects;
use wm_law::{Boxed, Call, Command, Reply};

/// The moment of each call, where no other is set.
const NOW: u64 = 1000;

/// The pass of a session.
const SESSION: u32 = 0;

#[derive(Drop)]
pub struct Tested {
    pub alloc: Global,
    pub user: Name,
    pub core: Core,
    /// The moment of the calls.
    pub now: Moment,
}

impl Tested {
    ghost use Rattle.wm_command.specs.Printed.{FitsMachine};
    ghost use Rattle.wm_law.specs.Fit.{IsCall, IsCommand};

    /// The state of an empty store, and QUSER as the user of commands.
    pub fn new(alloc: Global) -> Result<Tested> {
        let core = calls::opened(alloc)?;
        Ok(Tested {
            alloc,
            user: Name::of(b"QUSER"),
            core,
            now: Moment::new(NOW),
        })
    }

    /// The objects.
    pub fn objects(&self) -> &Objects {
        self.core.objects()
    }

    // The reply to a call.
    fn reply(&mut self, caller: u32, call: &Call) -> Result<Reply>
        requires { IsCall call.now }
    {
        let reply = calls::reply(self.alloc, &mut self.core, caller, call, self.now)?;
        Ok(reply)
    }

    // Makes a call, and adds the reply.
    fn call(&mut self, caller: u32, call: &Call, answer: &mut String) -> Result<()>
        requires { IsCall call.now }
    {
        let reply = self.reply(caller, call)?;
        write_reply(&reply, answer)
    }

    // Calls a command of the user. The command is let go on one path alone, which keeps the proof short.
    fn change(&mut self, command: Command, answer: &mut String) -> Result<()>
        requires { IsCommand command }
    {
        let _user = self.user.as_bytes();
        let call = Call::Change {
            user: self.user,
            command: Boxed::new(self.alloc, command)?,
        };
        self.call(SESSION, &call, answer)
    }

    fn line(&mut self, line: Line, answer: &mut String) -> Result<()>
        requires { FitsMachine line }
    {
        match line {
            Line::Change(command) => self.change(command, answer),
            Line::Read(_) => Ok(answer.push_str("READS\n")?),
        }
    }

    /// Calls the command that a CL text is, and adds the reply.
    pub fn command(&mut self, text: &str, answer: &mut String) -> Result<()> {
        let line = line_of(self.alloc, &self.user, text)?;
        self.line(line, answer)
    }

    // Hands the next order to the monitor, and adds all of it.
    fn order(&mut self, monitor: u32, answer: &mut String) -> Result<()> {
        let reply = self.reply(monitor, &Call::Hand)?;
        write_ordered(&reply, answer)
    }

    /// Makes the call of a monitor, as `1 started 2`, and adds the reply.
    pub fn monitor(&mut self, words: &str, answer: &mut String) -> Result<()> {
        let (monitor, words) = first_word(words);
        let monitor = u32::try_from(number_of(monitor)?)?;
        if words == "order" {
            return self.order(monitor, answer);
        }
        let call = call_of(words)?;
        self.call(monitor, &call, answer)
    }
}
