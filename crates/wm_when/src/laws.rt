// Laws of the definitions of days and months. They are no calls.
ghost use Rattle.wm_when.specs.Laws.{DayIsInItsMonth, DatesBegin, DatesEnd};

/// A month's days are those from its first one on, up to the first of the next month. Days are numbered from the first
/// date of the calendar on, and the last date is day 2,932,896.
#[tactic(auto, using(crate::proofs::MonthLaws::dates_begin, crate::proofs::MonthLaws::dates_end))]
pub fn days_are_in_months()
    ensures month { DayIsInItsMonth }
    ensures begin { DatesBegin }
    ensures end { DatesEnd }
{}
