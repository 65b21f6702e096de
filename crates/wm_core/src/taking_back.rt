// What a step keeps of the state as it begins, and taking the step back.
//
// A step makes its copies first: what the call may change of the objects and the held queues, the started subsystems with
// their stopped entries and waiting requests, the next number and the power. The jobs are marked, and from then on each
// change of a job writes a note. To take the step back, the copies are swapped in and the notes are undone, the newest
// first. Each of these finds the room that it left or that was set aside, so none takes memory. `before` of
// `specs/Marks.antt` is the state that this gives; that it is the one before the step is the law of `proofs/Undone.antt`.
use crate::Machine;
use crate::mark::Mark;
use std::alloc::Global;
use std::mem::{replace, swap};
use wm_base::NoMemory;
use wm_law::{Call, ListOf};
use wm_making::{Saved, put_back, saved_of};

impl Machine {
    ghost use Rattle.std.specs.Prelude.{◌≡◌, true, false, OnOk, OnErr, IfOk};
    ghost use Rattle.wm_core.specs.Marks.{before, marks_at};

    // What the call may change, with all that is kept beside the jobs.
    fn mark_of(&self, alloc: Global, call: &Call) -> Result<Mark, NoMemory>
        ensures { IfOk result (λ mark. mark ≡ (marks_at self.now.state call.now).mark) }
    {
        let started = ListOf::from(self.started.as_slice().to_vec(alloc)?);
        let stopped = ListOf::from(self.stopped.as_slice().to_vec(alloc)?);
        let evokes = ListOf::from(self.evokes.as_slice().to_vec(alloc)?);
        let saved = saved_of(alloc, &self.objects, &self.held, call)?;
        Ok(Mark {
            saved,
            started,
            stopped,
            evokes,
            next_number: self.next_number,
            power: self.power,
            undoable: true,
        })
    }

    /// What the call may change is kept, so that from here on all can be taken back. An `Err` is want of memory and leaves
    /// the machine.
    pub(crate) fn begin(&mut self, alloc: Global, call: &Call) -> Result<(), NoMemory>
        ensures state { OnOk result (self.new.state ≡ self.old.state) }
        ensures marks { OnOk result (self.new.marks ≡ marks_at self.old.state call.now) }
        ensures err { OnErr result (self.new ≡ self.old) }
    {
        let mark = self.mark_of(alloc, call)?;
        self.table.reserve(0)?;
        self.table.mark();
        self.mark = mark;
        Ok(())
    }

    /// The step that was taken last is taken back. It takes no memory.
    pub(crate) fn take_back(&mut self)
        requires { self.old.marks.mark.undoable ≡ true }
        ensures state { self.new.state ≡ before self.old.marks self.old.state }
        ensures undoable { self.new.marks.mark.undoable ≡ false }
    {
        let alloc = *self.started.items.allocator();
        let saved = replace(&mut self.mark.saved, Saved::Nothing);
        put_back(alloc, &mut self.objects, &mut self.held, saved);
        swap(&mut self.started, &mut self.mark.started);
        swap(&mut self.stopped, &mut self.mark.stopped);
        swap(&mut self.evokes, &mut self.mark.evokes);
        self.next_number = self.mark.next_number;
        self.power = self.mark.power;
        self.mark.undoable = false;
        self.table.take_back();
    }
}
