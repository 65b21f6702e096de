// What the line of a reply mentions of its command.
use wm_base::{Name, QName};
use wm_command::ChangeVerb;

/// What a command is about, as the line of its reply names it.
#[derive(Clone, Copy)]
pub enum Subject {
    Nothing,
    /// An object that is made or changed, or a queue.
    Object(QName),
    /// A prestart entry: its program, and the simple name of its subsystem.
    PreEntry { pgm: QName, sbs: Name },
}

/// Which command it is, and what it is about. A caller may keep this in place of the command.
#[derive(Clone, Copy)]
pub struct Mention {
    pub verb: ChangeVerb,
    pub subject: Subject,
}
