// What autostart jobs are made of, and where.
use wm_base::{Name, QName, Text};
use wm_clwords::Request;
use wm_desc::Objects;
use wm_law::{QNames, SbsList};

/// What of an autostart job wants memory, and its name: it is taken before anything is changed.
#[derive(Drop)]
pub(crate) struct Draft {
    pub name: Name,
    pub rtgdta: Text,
    pub rqsdta: Option<Request>,
}

/// The subsystem that autostart jobs are made in, and what their launches look at beside the jobs.
#[derive(Drop)]
pub(crate) struct Site<'a> {
    pub sbs: QName,
    pub objects: &'a Objects,
    pub started: &'a SbsList,
    pub held: &'a QNames,
}
