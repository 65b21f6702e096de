// The texts of commands are printable, as each `Text` is.
ghost use Rattle.std.specs.Prelude.{IfSome};
ghost use Rattle.wm_base.specs.Text.{IsText};
ghost use Rattle.wm_command.specs.Printed.{HasTexts};

use wm_base::Text;
use wm_desc::Cmp;
use wm_law::Command;

fn text_is_printable(text: &Text)
    ensures { IsText text.now }
{
    let _bytes = text.as_bytes();
}

fn is_printable_if_any(text: &Option<Text>)
    ensures { IfSome text.now IsText }
{
    if let Some(text) = text {
        text_is_printable(text);
    }
}

/// Does nothing: its contract says what `Text` keeps of each text of a command.
pub fn texts_are_printable(command: &Command)
    ensures { HasTexts command.now }
{
    match command {
        Command::Crtpgmref(c) => text_is_printable(&c.path),
        Command::Crtjobd(c) => {
            text_is_printable(&c.rtgdta);
            is_printable_if_any(&c.rqsdta);
        }
        Command::Addrtge(c) => {
            if let Cmp::Val { value, .. } = &c.cmpval {
                text_is_printable(value);
            }
        }
        Command::Sbmjob(c) => {
            is_printable_if_any(&c.rqsdta);
            is_printable_if_any(&c.rtgdta);
        }
        _ => {}
    }
}
