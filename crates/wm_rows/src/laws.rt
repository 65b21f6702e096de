// What holds of the rows of objects and entries.
ghost use Rattle.wm_law.specs.Again.{IsMadeAgain};
ghost use Rattle.wm_rows.specs.Rows.{HasItsRow};

/// The command that a row holds makes the same description or entry again.
pub fn things_are_made_again()
    ensures { IsMadeAgain }
{}

/// The row of a command that makes an object or an entry is that object's or entry's row.
pub fn commands_have_rows()
    ensures { HasItsRow }
{}
