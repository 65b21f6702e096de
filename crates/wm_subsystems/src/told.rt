// What a job is told, by its subsystem, by its prestart entry or by the clock.
ghost use Rattle.std.specs.Prelude.{◌≡◌};
ghost use Rattle.wm_law.specs.Endings.{is_ending_by, is_left_to_use};
ghost use Rattle.wm_law.specs.Prestarting.{is_of_entry, prestart_wish};
ghost use Rattle.wm_law.specs.Settling.{is_sbs_now};
ghost use Rattle.wm_law.specs.Wishes.{is_in_any, is_to_end};
ghost use Rattle.wm_subsystems.specs.Telling.{passes, option_wish, entry_wish, newly_now, clock_wish, clock_cause, told_of};

use crate::deadlines::{deadline, is_prestart};
use crate::gone_sbs::is_ending;
use crate::meant::{Telling, Those, Told};
use crate::one_job::{has_wish, is_now, is_wished, moment_after};
use crate::phases::{is_active, is_from_pre, is_in_sbs, is_starting};
use crate::wishes::now_cause;
use wm_base::{EndCause, How, Moment, QName};
use wm_law::{EndOption, Job, Sbs, SbsList, SbsPhase, Why, Wish};

fn is_sbs_now(phase: &SbsPhase) -> bool
    ensures { result ≡ is_sbs_now phase.now }
{
    match phase {
        SbsPhase::Active | SbsPhase::Ending(_) => false,
        SbsPhase::Now => true,
    }
}

/// Whether a subsystem ends already as the option would have it.
pub fn is_ending_by(option: EndOption, phase: &SbsPhase) -> bool
    ensures { result ≡ is_ending_by option phase.now }
{
    match option {
        EndOption::Cntrld => is_ending(phase),
        EndOption::Immed => is_sbs_now(phase),
    }
}

/// Whether a subsystem is one of those that are meant.
pub(crate) fn passes(those: &Those, sbs: &Sbs) -> bool
    ensures { result ≡ passes those.now sbs.now }
{
    match those {
        Those::Named(name) => sbs.sbsd == *name,
        Those::NotEnded(option) => !is_ending_by(*option, &sbs.phase),
        Those::EndingNow => is_sbs_now(&sbs.phase),
    }
}

// Whether a how names one of those subsystems.
fn is_in_any(those: &Those, started: &SbsList, how: &How) -> bool
    ensures { result ≡ is_in_any (passes those.now) started.now how.now }
{
    started
        .as_slice()
        .iter()
        .any(|sbs| passes(those, sbs) && is_in_sbs(&sbs.sbsd, how))
}

fn is_left_to_use(those: &Those, started: &SbsList, job: &Job) -> bool
    ensures { result ≡ is_left_to_use (passes those.now) started.now job.now }
{
    is_active(&job.phase)
        && is_prestart(&job.kind)
        && !has_wish(&job.wish)
        && is_in_any(those, started, &job.how)
}

fn is_to_end(those: &Those, started: &SbsList, job: &Job) -> bool
    ensures { result ≡ is_to_end (passes those.now) started.now job.now }
{
    is_active(&job.phase) && !is_now(&job.wish) && is_in_any(those, started, &job.how)
}

// The wish that an option gives a job of those subsystems.
fn option_wish(option: EndOption, those: &Those, started: &SbsList, job: &Job) -> Option<Wish>
    ensures { result ≡ option_wish option those.now started.now job.now }
{
    match option {
        EndOption::Cntrld => {
            if is_left_to_use(those, started, job) {
                Some(Wish::Later {
                    until: None,
                    why: Why::Endsbs,
                })
            } else {
                None
            }
        }
        EndOption::Immed => {
            if is_to_end(those, started, job) {
                Some(Wish::Now {
                    why: Why::Endsbs,
                    handed: false,
                })
            } else {
                None
            }
        }
    }
}

// The wish that ENDPJ gives.
fn prestart_wish(clock: Moment, option: EndOption, delay: Option<u32>) -> Wish
    ensures { result ≡ prestart_wish clock option delay }
{
    match (option, delay) {
        (EndOption::Cntrld, None) => Wish::Later {
            until: None,
            why: Why::Endpj,
        },
        (EndOption::Cntrld, Some(delay)) => Wish::Later {
            until: Some(moment_after(clock, delay)),
            why: Why::Endpj,
        },
        (EndOption::Immed, _) => Wish::Now {
            why: Why::Endpj,
            handed: false,
        },
    }
}

// Whether a job is an active one of the prestart entry, without a wish that the option would give.
fn is_of_entry(option: EndOption, sbs: &QName, pgm: &QName, job: &Job) -> bool
    ensures { result ≡ is_of_entry option sbs.now pgm.now job.now }
{
    is_active(&job.phase) && is_from_pre(sbs, pgm, &job.how) && !is_wished(option, &job.wish)
}

// The wish that an option gives a job of the prestart entry.
fn entry_wish(
    clock: Moment,
    option: EndOption,
    delay: Option<u32>,
    sbs: &QName,
    pgm: &QName,
    job: &Job,
) -> Option<Wish>
    ensures { result ≡ entry_wish clock option delay sbs.now pgm.now job.now }
{
    if is_of_entry(option, sbs, pgm, job) {
        Some(prestart_wish(clock, option, delay))
    } else {
        None
    }
}

// The second wish, where it is one to end now and the first isn't.
fn newly_now(old: &Wish, new: Wish) -> Option<Wish>
    ensures { result ≡ newly_now old.now new }
{
    if is_now(&new) && !is_now(old) {
        Some(new)
    } else {
        None
    }
}

// The wish that the clock gives a job.
fn clock_wish(clock: Moment, started: &SbsList, job: &Job) -> Option<Wish>
    ensures { result ≡ clock_wish clock started.now job.now }
{
    if is_to_end(&Those::EndingNow, started, job) {
        Some(Wish::Now {
            why: Why::Endsbs,
            handed: false,
        })
    } else {
        newly_now(&job.wish, deadline(job, clock))
    }
}

// The cause by which a Starting job ends that then has such a wish.
fn clock_cause(job: &Job, wish: &Option<Wish>) -> Option<EndCause>
    ensures { result ≡ clock_cause job.now wish.now }
{
    if is_starting(&job.phase) {
        now_cause(&wish.unwrap_or(job.wish))
    } else {
        None
    }
}

/// What an active job is told.
pub(crate) fn told_of(telling: &Telling, clock: Moment, started: &SbsList, job: &Job) -> Told
    ensures { result ≡ told_of telling.now clock started.now job.now }
{
    match telling {
        Telling::By(option, those) => Told {
            wish: option_wish(*option, those, started, job),
            cause: None,
        },
        Telling::Entry {
            option,
            delay,
            sbs,
            pgm,
        } => Told {
            wish: entry_wish(clock, *option, *delay, sbs, pgm, job),
            cause: None,
        },
        Telling::Clock => {
            let wish = clock_wish(clock, started, job);
            let cause = clock_cause(job, &wish);
            Told { wish, cause }
        }
    }
}
