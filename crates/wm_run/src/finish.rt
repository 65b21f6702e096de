// The first call, the end of the input, and the monitor's turns until no job is active.
use crate::calls::{end_call, start_call};
use crate::halt::Halt;
use crate::running::Run;
use crate::seeing::see;
use std::alloc::Global;
use std::sync::Wait;
use wm_base::QName;
use wm_floor::Waiting;
use wm_law::Pending;
use wm_traits::{Clock, Keeper, Spawner};

/// The active jobs whose end is waited for.
#[derive(Clone, Copy)]
enum Awaited {
    /// Those that are no prestart jobs.
    Busy,
    /// All.
    Active,
}

impl Awaited {
    ghost use Rattle.std.specs.Prelude.{◌≡◌};
    ghost use Rattle.wm_run.specs.Awaited.{jobs_left};

    // How many of them a monitor was told of.
    fn left(self, pending: &Pending) -> usize
        ensures { result ≡ jobs_left self pending.now }
    {
        match self {
            Awaited::Busy => pending.busy,
            Awaited::Active => pending.active,
        }
    }
}

impl<K: Keeper> Run<K> {
    ghost use Rattle.std.specs.Prelude.{◌≡◌, ◌<◌, ◌≤◌, List, IfOk, OnOk, OnErr, IsErrOf, None, length, min};
    ghost use Rattle.wm_law.specs.Pending.{pending};
    ghost use Rattle.wm_law.specs.declared.call.Entry.{Entry};
    ghost use Rattle.wm_floor.specs.History.{reached};
    ghost use Rattle.wm_floor.specs.Floor.{HasLooked, IsSame, Waits};
    ghost use Rattle.wm_floor.specs.Ledger.{behind};
    ghost use Rattle.wm_floor.specs.Idle.{monitor_pass};
    ghost use Rattle.wm_floor.specs.Lists.{since};
    ghost use Rattle.wm_floor.specs.Advance.{added};
    ghost use Rattle.wm_floor.specs.Scene.{IsClear, Spawning};
    ghost use Rattle.wm_traits.specs.Told.{IsEmpty};
    ghost use Rattle.wm_run.specs.Awaited.{jobs_left};
    ghost use Rattle.wm_run.specs.Grown.{seen_since, session_of};
    ghost use Rattle.wm_run.specs.Halt.{HasFloorCauses, HasMonitorCauses, KeepsNone};
    ghost use Rattle.wm_run.specs.Serving.{IsHistory, IsRunning, LeftNoOrder, RunServes, Serves};
    ghost use Rattle.wm_run.specs.Session.{Closes, EndsInput, IsUncalled, OneCall, start_call};
    ghost use Rattle.wm_run.specs.Stopped.{AtMostOne, MayClose};

    // Turns until one makes no entry.
    fn drain<P: Spawner, C: Clock, R: Wait>(
        &mut self,
        rt: &R,
        alloc: Global,
        spawner: &mut P,
        clock: &mut C,
    ) -> Result<(), Halt>
        requires ready { IsRunning self.old }
        ensures ready { IsRunning self.new }
        ensures floor { self.new.floor ≡ self.old.floor }
        ensures session { self.new.session ≡ self.old.session }
        ensures serves { RunServes P.asked P.told P.misses P.faults self.old spawner.old self.new spawner.new }
        ensures orders { OnOk result (LeftNoOrder self.new (length self.old.watch.seen)) }
        ensures clear { OnOk result (IsClear self.new.monitor) }
        ensures causes { HasMonitorCauses result (P.faults spawner.old) (P.faults spawner.new) }
        ensures floor_causes { HasFloorCauses (IsErrOf result Halt.KeeperFault) (IsErrOf result Halt.LogFull) 4000000 self.new }
        ensures log_full { IsErrOf result Halt.LogFull → 4000000 ≤ length self.new.watch.seen }
    {
        'turns: for _ in rt.forever() {
            let waiting = self.waiting(rt);
            let turned = self.turn(rt, alloc, spawner, clock, waiting)?;
            if turned.sent == 0 {
                return Ok(());
            }
        }
        unreachable!()
    }

    // What waits for the monitor, and behind how many entries.
    fn waiting<R: Wait>(&mut self, rt: &R) -> Waiting
        requires ready { IsRunning self.old }
        ensures ready { IsRunning self.new }
        ensures floor { self.new.floor ≡ self.old.floor }
        ensures session { self.new.session ≡ self.old.session }
        ensures serves { (s : Spawning) → Serves self.old self.new s s }
        ensures monitor { self.new.monitor ≡ self.old.monitor }
        ensures waits { Waits self.new.floor self.new.watch result }
        ensures at { result.at ≡ length self.new.watch.seen }
        ensures pending { result.pending ≡ pending (reached (behind self.new.floor.opening self.new.watch.seen)) monitor_pass }
    {
        self.floor.waiting(rt, &mut self.watch)
    }

    // Turns and waits until none of these jobs is active. It answers behind how many entries.
    fn wait_for<P: Spawner, C: Clock, R: Wait>(
        &mut self,
        rt: &R,
        alloc: Global,
        spawner: &mut P,
        clock: &mut C,
        jobs: Awaited,
    ) -> Result<u32, Halt>
        requires ready { IsRunning self.old }
        ensures at { IfOk result (λ at. at ≡ length self.new.watch.seen) }
        ensures ready { IsRunning self.new }
        ensures floor { self.new.floor ≡ self.old.floor }
        ensures session { self.new.session ≡ self.old.session }
        ensures serves { RunServes P.asked P.told P.misses P.faults self.old spawner.old self.new spawner.new }
        ensures none { OnOk result (jobs_left jobs (pending (reached (behind self.new.floor.opening self.new.watch.seen)) monitor_pass) ≡ 0) }
        ensures clear { OnOk result (IsClear self.new.monitor) }
        ensures causes { HasMonitorCauses result (P.faults spawner.old) (P.faults spawner.new) }
        ensures floor_causes { HasFloorCauses (IsErrOf result Halt.KeeperFault) (IsErrOf result Halt.LogFull) 4000000 self.new }
        ensures log_full { IsErrOf result Halt.LogFull → 4000000 ≤ length self.new.watch.seen }
    {
        'waits: for _ in rt.forever() {
            self.drain(rt, alloc, spawner, clock)?;
            let waiting = self.waiting(rt);
            if jobs.left(&waiting.pending) == 0 {
                return Ok(waiting.at);
            }
            self.wait(rt, alloc, spawner, clock, &waiting)?;
        }
        unreachable!()
    }

    /// Starts the controlling subsystem, and lets the monitor turn, which leaves no order where it makes no entry.
    pub fn begin<P: Spawner, C: Clock, R: Wait>(
        &mut self,
        rt: &R,
        alloc: Global,
        spawner: &mut P,
        clock: &mut C,
        ctl: &QName,
    ) -> Result<(), Halt>
        requires ready { IsRunning self.old }
        ensures ready { IsRunning self.new }
        ensures serves { RunServes P.asked P.told P.misses P.faults self.old spawner.old self.new spawner.new }
        ensures not_begun { OnErr result (AtMostOne (start_call ctl.now) (seen_since self.old self.new)) }
        ensures unmonitored { OnErr result (IsUncalled (seen_since self.old self.new) → self.new.watch.mine ≡ self.old.watch.mine) }
        ensures begun { OnOk result (OneCall (start_call ctl.now) (seen_since self.old self.new)) }
        ensures orders { OnOk result (length (added self.old.watch self.new.watch) ≡ 0 → LeftNoOrder self.new (length self.new.session.seen)) }
        ensures quiet { OnOk result (length (added self.old.watch self.new.watch) ≡ 0 → self.old.monitor.failed_kill ≡ None → IsEmpty (P.reporting spawner.old)) }
        ensures causes { HasMonitorCauses result (P.faults spawner.old) (P.faults spawner.new) }
        ensures floor_causes { HasFloorCauses (IsErrOf result Halt.KeeperFault) (IsErrOf result Halt.LogFull) (min self.new.floor.opening.limit 4000000) self.new }
        ensures none_kept { OnOk result (KeepsNone self.old.monitor.kept self.new.monitor.kept) }
        ensures full { IsErrOf result Halt.LogFull → length self.new.watch.seen < 4000000 → KeepsNone self.old.monitor.kept self.new.monitor.kept }
    {
        let start = start_call(alloc, ctl)?;
        let (_, waiting) = self.call(rt, alloc, clock, start)?;
        self.turn(rt, alloc, spawner, clock, waiting)?;
        Ok(())
    }

    // Has the session see what the monitor has seen. It makes no entry.
    fn catch_up<R: Wait>(&mut self, rt: &R, at: u32)
        requires ready { IsRunning self.old }
        ensures ready { IsRunning self.new }
        ensures floor { self.new.floor ≡ self.old.floor }
        ensures serves { (s : Spawning) → Serves self.old self.new s s }
        ensures session { HasLooked self.old.session self.new.session }
        ensures uncalled { IsUncalled (seen_since self.old self.new) }
        ensures seen { at ≤ length self.new.session.seen }
        ensures watch { self.new.watch ≡ self.old.watch }
        ensures monitor { self.new.monitor ≡ self.old.monitor }
    {
        see(rt, &self.floor, &mut self.session, at);
    }

    // Waits until no job is active but prestart jobs, and puts the power down. The session sees all that the monitor has seen
    // before it calls, and the monitor sees the call before it makes another entry: so no entry stands between what the monitor
    // saw last and the call.
    fn end_input<P: Spawner, C: Clock, R: Wait>(
        &mut self,
        rt: &R,
        alloc: Global,
        spawner: &mut P,
        clock: &mut C,
    ) -> Result<(), Halt>
        requires ready { IsRunning self.old }
        ensures ready { IsRunning self.new }
        ensures serves { RunServes P.asked P.told P.misses P.faults self.old spawner.old self.new spawner.new }
        ensures not_ended { OnErr result (IsUncalled (seen_since self.old self.new)) }
        ensures ended { OnOk result ((log : List Entry) → IsHistory self.new log → EndsInput (session_of self.old) (since self.old.session.seen log)) }
        ensures causes { HasMonitorCauses result (P.faults spawner.old) (P.faults spawner.new) }
        ensures floor_causes { HasFloorCauses (IsErrOf result Halt.KeeperFault) (IsErrOf result Halt.LogFull) (min self.new.floor.opening.limit 4000000) self.new }
        ensures none_kept { OnOk result (KeepsNone self.old.monitor.kept self.new.monitor.kept) }
        ensures full { IsErrOf result Halt.LogFull → length self.new.watch.seen < 4000000 → KeepsNone self.old.monitor.kept self.new.monitor.kept }
    {
        let at = self.wait_for(rt, alloc, spawner, clock, Awaited::Busy)?;
        self.catch_up(rt, at);
        let end = end_call(alloc)?;
        self.call(rt, alloc, clock, end)?;
        Ok(())
    }

    // Makes the last call, which an accepted PWRDWNSYS of a line has made needless.
    fn close_input<P: Spawner, C: Clock, R: Wait>(
        &mut self,
        rt: &R,
        alloc: Global,
        spawner: &mut P,
        clock: &mut C,
        down: bool,
    ) -> Result<(), Halt>
        requires ready { IsRunning self.old }
        ensures ready { IsRunning self.new }
        ensures serves { RunServes P.asked P.told P.misses P.faults self.old spawner.old self.new spawner.new }
        ensures not_ended { OnErr result (IsUncalled (seen_since self.old self.new)) }
        ensures ended { OnOk result ((log : List Entry) → IsHistory self.new log → Closes down (session_of self.old) (since self.old.session.seen log)) }
        ensures causes { HasMonitorCauses result (P.faults spawner.old) (P.faults spawner.new) }
        ensures floor_causes { HasFloorCauses (IsErrOf result Halt.KeeperFault) (IsErrOf result Halt.LogFull) (min self.new.floor.opening.limit 4000000) self.new }
        ensures none_kept { OnOk result (KeepsNone self.old.monitor.kept self.new.monitor.kept) }
        ensures full { IsErrOf result Halt.LogFull → length self.new.watch.seen < 4000000 → KeepsNone self.old.monitor.kept self.new.monitor.kept }
    {
        if down {
            return Ok(());
        }
        self.end_input(rt, alloc, spawner, clock)?;
        Ok(())
    }

    /// Puts the power down where no line did so, and turns and waits until no job is active.
    pub fn finish<P: Spawner, C: Clock, R: Wait>(
        &mut self,
        rt: &R,
        alloc: Global,
        spawner: &mut P,
        clock: &mut C,
        down: bool,
    ) -> Result<(), Halt>
        requires ready { IsRunning self.old }
        ensures ready { IsRunning self.new }
        ensures serves { RunServes P.asked P.told P.misses P.faults self.old spawner.old self.new spawner.new }
        ensures not_ended { OnErr result ((log : List Entry) → IsHistory self.new log → MayClose down (session_of self.old) (since self.old.session.seen log)) }
        ensures ended { OnOk result ((log : List Entry) → IsHistory self.new log → Closes down (session_of self.old) (since self.old.session.seen log)) }
        ensures clear { OnOk result (IsClear self.new.monitor) }
        ensures causes { HasMonitorCauses result (P.faults spawner.old) (P.faults spawner.new) }
        ensures floor_causes { HasFloorCauses (IsErrOf result Halt.KeeperFault) (IsErrOf result Halt.LogFull) (min self.new.floor.opening.limit 4000000) self.new }
        ensures none_kept { OnOk result (KeepsNone self.old.monitor.kept self.new.monitor.kept) }
        ensures full { IsErrOf result Halt.LogFull → length self.new.watch.seen < 4000000 → KeepsNone self.old.monitor.kept self.new.monitor.kept }
    {
        self.close_input(rt, alloc, spawner, clock, down)?;
        self.wait_for(rt, alloc, spawner, clock, Awaited::Active)?;
        Ok(())
    }
}
