// What adds and removes the entries of a subsystem description.
use crate::refuse::{
    auto_refusal, pre_refusal, queue_refusal, remove_auto_refusal, remove_pre_refusal,
    remove_queue_refusal, remove_route_refusal, route_refusal,
};
use crate::{AutoEntry, DescFault, Objects, PreEntry, QueueEntry, RouteEntry};
use wm_base::{Name, QName, Refusal};

impl Objects {
    ghost use Rattle.std.specs.Prelude.{◌≡◌, IsTrue, OnOk, OnErr};
    ghost use Rattle.wm_desc.specs.Objects.{with_description, with_queue, with_route, with_auto, with_pre, without_queue, without_route, without_auto, without_pre};
    ghost use Rattle.wm_desc.specs.Ranges.{queue_in_range, route_in_range, pre_in_range};
    ghost use Rattle.wm_desc.specs.Refusals.{IsAnswer, answer_of, queue_refusal, route_refusal, auto_refusal, pre_refusal, remove_queue_refusal, remove_route_refusal, remove_auto_refusal, remove_pre_refusal};

    /// Adds a queue entry to a subsystem description (ADDJOBQE).
    pub fn add_queue(&mut self, sbsd: &QName, entry: QueueEntry) -> Result<(), DescFault>
        requires { IsTrue (queue_in_range entry) }
        ensures answer { IsAnswer (queue_refusal self.old sbsd.now entry) result }
        ensures ok { OnOk result (self.new ≡ with_description sbsd.now (with_queue entry) self.old) }
        ensures err { OnErr result (self.new ≡ self.old) }
    {
        if let Some(refusal) = queue_refusal(self, sbsd, &entry) {
            return Err(DescFault::No(refusal));
        }
        let at = self.sbsds.place(sbsd);
        let sbsds = &mut self.sbsds;
        let object = &mut sbsds.items[at];
        object.1.queues.insert(entry)?;
        Ok(())
    }

    /// Adds a routing entry to a subsystem description (ADDRTGE).
    pub fn add_route(&mut self, sbsd: &QName, entry: RouteEntry) -> Result<(), DescFault>
        requires { IsTrue (route_in_range entry) }
        ensures answer { IsAnswer (route_refusal self.old sbsd.now entry) result }
        ensures ok { OnOk result (self.new ≡ with_description sbsd.now (with_route entry) self.old) }
        ensures err { OnErr result (self.new ≡ self.old) }
    {
        if let Some(refusal) = route_refusal(self, sbsd, &entry) {
            return Err(DescFault::No(refusal));
        }
        let at = self.sbsds.place(sbsd);
        let sbsds = &mut self.sbsds;
        let object = &mut sbsds.items[at];
        object.1.routes.insert(entry)?;
        Ok(())
    }

    /// Adds an autostart entry to a subsystem description (ADDAJE).
    pub fn add_auto(&mut self, sbsd: &QName, entry: AutoEntry) -> Result<(), DescFault>
        ensures answer { IsAnswer (auto_refusal self.old sbsd.now entry) result }
        ensures ok { OnOk result (self.new ≡ with_description sbsd.now (with_auto entry) self.old) }
        ensures err { OnErr result (self.new ≡ self.old) }
    {
        if let Some(refusal) = auto_refusal(self, sbsd, &entry) {
            return Err(DescFault::No(refusal));
        }
        let at = self.sbsds.place(sbsd);
        let sbsds = &mut self.sbsds;
        let object = &mut sbsds.items[at];
        object.1.autos.insert(entry)?;
        Ok(())
    }

    /// Adds a prestart entry to a subsystem description (ADDPJE).
    pub fn add_pre(&mut self, sbsd: &QName, entry: PreEntry) -> Result<(), DescFault>
        requires { IsTrue (pre_in_range entry) }
        ensures answer { IsAnswer (pre_refusal self.old sbsd.now entry) result }
        ensures ok { OnOk result (self.new ≡ with_description sbsd.now (with_pre entry) self.old) }
        ensures err { OnErr result (self.new ≡ self.old) }
    {
        if let Some(refusal) = pre_refusal(self, sbsd, &entry) {
            return Err(DescFault::No(refusal));
        }
        let at = self.sbsds.place(sbsd);
        let sbsds = &mut self.sbsds;
        let object = &mut sbsds.items[at];
        object.1.pres.insert(entry)?;
        Ok(())
    }

    /// Removes a description's entry for a queue (RMVJOBQE).
    pub fn remove_queue(&mut self, sbsd: &QName, jobq: &QName) -> Result<(), Refusal>
        ensures answer { result ≡ answer_of (remove_queue_refusal self.old sbsd.now jobq.now) }
        ensures ok { OnOk result (self.new ≡ with_description sbsd.now (without_queue jobq.now) self.old) }
        ensures err { OnErr result (self.new ≡ self.old) }
    {
        if let Some(refusal) = remove_queue_refusal(self, sbsd, jobq) {
            return Err(refusal);
        }
        let at = self.sbsds.place(sbsd);
        let sbsds = &mut self.sbsds;
        let object = &mut sbsds.items[at];
        object.1.queues.remove_queue(jobq);
        Ok(())
    }

    /// Removes a description's routing entry (RMVRTGE).
    pub fn remove_route(&mut self, sbsd: &QName, seq: u32) -> Result<(), Refusal>
        ensures answer { result ≡ answer_of (remove_route_refusal self.old sbsd.now seq) }
        ensures ok { OnOk result (self.new ≡ with_description sbsd.now (without_route seq) self.old) }
        ensures err { OnErr result (self.new ≡ self.old) }
    {
        if let Some(refusal) = remove_route_refusal(self, sbsd, seq) {
            return Err(refusal);
        }
        let at = self.sbsds.place(sbsd);
        let sbsds = &mut self.sbsds;
        let object = &mut sbsds.items[at];
        object.1.routes.remove(&seq);
        Ok(())
    }

    /// Removes a description's autostart entry (RMVAJE).
    pub fn remove_auto(&mut self, sbsd: &QName, job: &Name) -> Result<(), Refusal>
        ensures answer { result ≡ answer_of (remove_auto_refusal self.old sbsd.now job.now) }
        ensures ok { OnOk result (self.new ≡ with_description sbsd.now (without_auto job.now) self.old) }
        ensures err { OnErr result (self.new ≡ self.old) }
    {
        if let Some(refusal) = remove_auto_refusal(self, sbsd, job) {
            return Err(refusal);
        }
        let at = self.sbsds.place(sbsd);
        let sbsds = &mut self.sbsds;
        let object = &mut sbsds.items[at];
        object.1.autos.remove(job);
        Ok(())
    }

    /// Removes a description's prestart entry (RMVPJE).
    pub fn remove_pre(&mut self, sbsd: &QName, pgm: &QName) -> Result<(), Refusal>
        ensures answer { result ≡ answer_of (remove_pre_refusal self.old sbsd.now pgm.now) }
        ensures ok { OnOk result (self.new ≡ with_description sbsd.now (without_pre pgm.now) self.old) }
        ensures err { OnErr result (self.new ≡ self.old) }
    {
        if let Some(refusal) = remove_pre_refusal(self, sbsd, pgm) {
            return Err(refusal);
        }
        let at = self.sbsds.place(sbsd);
        let sbsds = &mut self.sbsds;
        let object = &mut sbsds.items[at];
        object.1.pres.remove(pgm);
        Ok(())
    }
}
