// Objects' descriptions.
use crate::{AutoEntry, Keyed, PreEntry, QueueEntry, RouteEntry, SortedList};
use std::alloc::Global;
use wm_base::{Class, Limit, Priority, QName, Text};

/// A job queue.
#[derive(Clone, Copy)]
pub struct Jobq {}

/// A program: where the one that is started lies.
#[derive(Clone, Drop)]
pub struct Program {
    pub path: Text,
}

/// A job description: what a submitted or autostart job gets where its command doesn't say.
#[derive(Clone, Drop)]
pub struct Jobd {
    pub jobq: QName,
    pub pty: Priority,
    pub rtgdta: Text,
    pub rqsdta: Option<Text>,
    pub hold: bool,
}

/// A subsystem description.
#[derive(Clone, Drop)]
pub struct Sbsd {
    pub maxjobs: Limit,
    pub queues: QueueEntries,
    pub routes: RouteEntries,
    pub autos: AutoEntries,
    pub pres: PreEntries,
}

impl Sbsd {
    ghost use Rattle.std.specs.Prelude.{◌≡◌};
    ghost use Rattle.wm_desc.specs.Objects.{empty_sbsd};

    /// A description without entries.
    pub fn new(alloc: Global, maxjobs: Limit) -> Sbsd
        ensures { result ≡ empty_sbsd maxjobs }
    {
        Sbsd {
            maxjobs,
            queues: SortedList::new(alloc),
            routes: SortedList::new(alloc),
            autos: SortedList::new(alloc),
            pres: SortedList::new(alloc),
        }
    }
}

/// Queue entries by sequence number.
pub type QueueEntries = SortedList<QueueEntry>;

/// Routing entries by sequence number.
pub type RouteEntries = SortedList<RouteEntry>;

/// Autostart entries by job name.
pub type AutoEntries = SortedList<AutoEntry>;

/// Prestart entries by program.
pub type PreEntries = SortedList<PreEntry>;

impl<V> Keyed for (QName, V) {
    type By = QName;

    ghost key = { λ object. object.0 };

    fn key(&self) -> &QName {
        &self.0
    }
}

/// Objects of one kind by qualified name.
pub type Table<V> = SortedList<(QName, V)>;

pub type Classes = Table<Class>;

pub type Jobqs = Table<Jobq>;

pub type Programs = Table<Program>;

pub type Jobds = Table<Jobd>;

pub type Sbsds = Table<Sbsd>;

impl<V> Table<V> {
    ghost use Rattle.std.specs.Prelude.{◌≡◌, option_copied, IsSome};
    ghost use Rattle.wm_desc.specs.Table.{object_named, StandsAt};

    /// The description of the object with a name.
    pub fn object(&self, name: &QName) -> Option<&V>
        ensures { option_copied result ≡ object_named name.now self.now }
    {
        self.get(name).map(|object| &object.1)
    }

    // Where the object with a name stands.
    pub(crate) fn place(&self, name: &QName) -> usize
        requires { IsSome (object_named name.now self.now) }
        ensures { StandsAt name.now self.now result }
    {
        let Ok(at) = self.search(name) else {
            unreachable!()
        };
        at
    }
}

impl QueueEntries {
    ghost use Rattle.std.specs.Prelude.{◌≡◌, not, find, filter, option_copied};
    ghost use Rattle.wm_desc.specs.Refusals.{has_queue};
    ghost use Rattle.wm_desc.specs.Table.{same_qname};

    /// The entry for a queue.
    pub fn for_queue(&self, jobq: &QName) -> Option<&QueueEntry>
        ensures { option_copied result ≡ find (λ e. same_qname e.jobq jobq.now) self.now }
    {
        self.as_slice().iter().find(|entry| entry.jobq == *jobq)
    }

    pub fn has_queue(&self, jobq: &QName) -> bool
        ensures { result ≡ has_queue jobq.now self.now }
    {
        self.as_slice().iter().any(|entry| entry.jobq == *jobq)
    }

    /// Takes the entry for a queue out.
    pub fn remove_queue(&mut self, jobq: &QName)
        ensures { self.new ≡ filter (λ e. not (same_qname e.jobq jobq.now)) self.old }
    {
        self.items.retain(
            |entry: &QueueEntry| -> bool
                ensures { result ≡ not (same_qname entry.now.jobq jobq.entry.now) }
            { entry.jobq != *jobq },
        );
    }
}
