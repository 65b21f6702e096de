// Which subsystems are meant, and what active jobs are told.
use wm_base::{EndCause, QName};
use wm_law::{EndOption, Wish};

/// Which of the started subsystems.
#[derive(Clone, Copy)]
pub enum Those {
    Named(QName),
    /// Those that don't end yet as the option would have it.
    NotEnded(EndOption),
    EndingNow,
}

/// What active jobs are told.
#[derive(Clone, Copy)]
pub enum Telling {
    /// To end with their subsystem, as the option would have it.
    By(EndOption, Those),
    /// To end with their prestart entry, as the option would have it.
    Entry {
        option: EndOption,
        delay: Option<u32>,
        sbs: QName,
        pgm: QName,
    },
    /// To end where the clock says so.
    Clock,
}

/// What one active job is told: the wish that it gets, where that is another one, and the cause by which it ends at once.
#[derive(Clone, Copy)]
pub(crate) struct Told {
    pub(crate) wish: Option<Wish>,
    pub(crate) cause: Option<EndCause>,
}
