// What holds of commands and their texts.
ghost use Rattle.wm_command.specs.Printed.{PrintedCommandIsRead, ShownValuesMakeTheCommand};

/// The values that are shown of a command, completed by the table, make the same command.
#[tactic(auto, using(crate::proofs::Back::shown_back))]
pub fn shown_values_make_the_command()
    ensures { ShownValuesMakeTheCommand }
{}

/// The text that `print` gives of a command is a command's text, and the tree that it is read as is that command's line.
#[tactic(auto, using(crate::proofs::ReadBack::printed_back))]
pub fn printed_command_is_read()
    ensures { PrintedCommandIsRead }
{}
