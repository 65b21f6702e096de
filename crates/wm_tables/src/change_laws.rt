// Laws of changes, each for all. They are no calls.
ghost use Rattle.wm_tables.specs.ChangeLaws.{DifferencesAreOne, StepChangesAreDifference};

/// Two tables have one difference: changes in the order of their places that make the second of the first, each of which
/// says something new, are these and no others.
pub fn differences_are_one()
    ensures { DifferencesAreOne }
{}

/// The changes of a step of a sound state in range are the difference of its tables and those of the state after it.
pub fn step_changes_are_difference()
    ensures { StepChangesAreDifference }
{}
