// The session's calls and answers, and the monitor's turns between them.
ghost use Rattle.std.specs.Prelude.{◌≡◌, ◌≤◌, ℕ, Err, IfOk, OnOk, OnErr, IsErrOf, take};
ghost use Rattle.wm_listing.specs.Said.{said_of};
ghost use Rattle.wm_traits.specs.Told.{Grows};
ghost use Rattle.wm_traits.specs.Cause.{raised};
ghost use Rattle.wm_run.specs.Answer.{is_power_down, is_refused, with_end};

use crate::answer::{fault_answer, is_fault, is_power_down, is_refused, with_end};
use crate::answered::Answered;
use crate::calls::user_call;
use crate::halt::Halt;
use crate::parse::parse_line;
use crate::parsed::Parsed;
use crate::running::Run;
use crate::seeing::see;
use crate::write::write_all;
use std::alloc::Global;
use std::sync::Wait;
use wm_base::{Moment, Name};
use wm_clwords::ClFault;
use wm_floor::{Turned, Waiting};
use wm_law::{Call, Command, Reply};
use wm_listing::{LineFault, Mention, mention_of, said};
use wm_traits::{Clock, Keeper, Sink, Spawner};

// Writes, and tells a fault as the run's.
pub(crate) fn put<O: Sink>(out: &mut O, bytes: &[u8]) -> Result<(), Halt>
    ensures ok { OnOk result (Grows (O.written out.old) (O.written out.new) bytes.now) }
    ensures some { OnErr result ((n : ℕ) × Grows (O.written out.old) (O.written out.new) (take n bytes.now)) }
    ensures faults { O.faults out.old ≤ O.faults out.new }
    ensures write_fault { IsErrOf result Halt.WriteFault → raised (O.faults out.old) ≤ O.faults out.new }
    ensures only { OnErr result (result ≡ Err Halt.WriteFault) }
{
    match write_all(out, bytes) {
        Ok(()) => Ok(()),
        Err(_) => Err(Halt::WriteFault),
    }
}

// Writes what is said of a reply to a command, and answers whether it is a refusal, and whether the power goes down.
fn say<O: Sink>(
    alloc: Global,
    out: &mut O,
    mention: &Mention,
    reply: &Reply,
) -> Result<Answered, Halt>
    ensures ok { OnOk result (Grows (O.written out.old) (O.written out.new) (with_end (said_of mention.now reply.now))) }
    ensures faulty { IfOk result (λ r. r.faulty ≡ is_refused reply.now) }
    ensures down { IfOk result (λ r. r.down ≡ is_power_down reply.now) }
    ensures some { OnErr result ((n : ℕ) × Grows (O.written out.old) (O.written out.new) (take n (with_end (said_of mention.now reply.now)))) }
    ensures faults { O.faults out.old ≤ O.faults out.new }
    ensures write_fault { IsErrOf result Halt.WriteFault → raised (O.faults out.old) ≤ O.faults out.new }
    ensures no_wait { IsErrOf result Halt.WaitFault → ⊥ }
    ensures no_read { IsErrOf result Halt.ReadFault → ⊥ }
    ensures not_full { IsErrOf result Halt.InputFull → ⊥ }
    ensures no_keeper { IsErrOf result Halt.KeeperFault → ⊥ }
    ensures no_log { IsErrOf result Halt.LogFull → ⊥ }
{
    let line = with_end(said(alloc, mention, reply)?)?;
    put(out, line.as_bytes())?;
    Ok(Answered {
        faulty: is_refused(reply),
        down: is_power_down(reply),
    })
}

impl<K: Keeper> Run<K> {
    ghost use Rattle.std.specs.Prelude.{◌≡◌, ◌⊎◌, ◌<◌, ◌≤◌, ◌∷◌, [], ℕ, None, Some, Ok, OnOk, OnErr, IsErrOf, IfOk, length, min};
    ghost use Rattle.std.specs.Option.{option_copied};
    ghost use Rattle.wm_law.specs.Fit.{IsCall, IsCommand};
    ghost use Rattle.wm_traits.specs.Told.{Grows, IsEmpty};
    ghost use Rattle.wm_law.specs.Pending.{next_moment, pending};
    ghost use Rattle.wm_floor.specs.History.{reached};
    ghost use Rattle.wm_floor.specs.Floor.{HasLooked, IsPassOf, IsSame, Waits};
    ghost use Rattle.wm_floor.specs.Ledger.{behind};
    ghost use Rattle.wm_floor.specs.Idle.{monitor_pass};
    ghost use Rattle.wm_floor.specs.Monitor.{hands_of};
    ghost use Rattle.wm_floor.specs.Advance.{added};
    ghost use Rattle.wm_floor.specs.Scene.{IsClear, Spawning};
    ghost use Rattle.wm_floor.specs.Turned.{HadNothing, WaitedAt};
    ghost use Rattle.wm_run.specs.Calls.{Called, MakesCall};
    ghost use Rattle.wm_run.specs.Down.{is_down};
    ghost use Rattle.wm_run.specs.Grown.{seen_since, session_of};
    ghost use Rattle.wm_run.specs.Halt.{HasCauses, HasFloorCauses, HasMonitorCauses, KeepsNone};
    ghost use Rattle.wm_run.specs.Parsed.{IsFitParsed};
    ghost use Rattle.wm_run.specs.Serving.{IsRunning, LeftNoOrder, RunServes, Serves};
    ghost use Rattle.wm_run.specs.Session.{AnsweredBy, AnswersLine, AnswersParsed, Calls, IsUncalled};
    ghost use Rattle.wm_run.specs.Stopped.{IsCutShort};

    // Makes one call of the session. An `Err` makes no entry.
    fn enter<R: Wait>(
        &mut self,
        rt: &R,
        alloc: Global,
        call: Call,
        now: Moment,
    ) -> Result<(u32, Reply), Halt>
        requires ready { IsRunning self.old }
        requires fit { IsCall call }
        ensures own { IsPassOf self.old.floor self.new.session }
        ensures same { IsSame self.old.session self.new.session }
        ensures ok { IfOk result (λ r. Called self.old.floor.opening call (Some now) self.old.session self.new.session r.1) }
        ensures place { IfOk result (λ r. r.0 ≡ length self.new.session.seen) }
        ensures err { OnErr result (HasLooked self.old.session self.new.session) }
        ensures mark { self.old.session.mark ≤ self.new.session.mark }
        ensures floor { self.new.floor ≡ self.old.floor }
        ensures watch { self.new.watch ≡ self.old.watch }
        ensures monitor { self.new.monitor ≡ self.old.monitor }
        ensures keeper_fault { IsErrOf result Halt.KeeperFault → raised self.old.session.mark ≤ self.new.session.mark }
        ensures log_full { IsErrOf result Halt.LogFull → min self.old.floor.opening.limit 4000000 ≤ length self.new.session.seen }
        ensures no_write { IsErrOf result Halt.WriteFault → ⊥ }
        ensures no_wait { IsErrOf result Halt.WaitFault → ⊥ }
        ensures no_read { IsErrOf result Halt.ReadFault → ⊥ }
        ensures not_full { IsErrOf result Halt.InputFull → ⊥ }
    {
        match self.floor.call(rt, alloc, &mut self.session, call, now) {
            Ok(answered) => Ok((answered.place, answered.reply)),
            Err(fault) => Err(Halt::from(fault)),
        }
    }

    // Makes one call of the session, which the monitor has then seen. It answers the reply, and what waits for the monitor then. An
    // `Err` makes no entry.
    pub(crate) fn call<C: Clock, R: Wait>(
        &mut self,
        rt: &R,
        alloc: Global,
        clock: &mut C,
        call: Call,
    ) -> Result<(Reply, Waiting), Halt>
        requires ready { IsRunning self.old }
        requires fit { IsCall call }
        ensures ready { IsRunning self.new }
        ensures serves { (s : Spawning) → Serves self.old self.new s s }
        ensures called { IfOk result (λ r. Called self.old.floor.opening call (C.coming clock.old) self.old.session self.new.session r.0) }
        ensures made { IfOk result (λ r. MakesCall call r.0 (seen_since self.old self.new)) }
        ensures unmade { OnErr result (IsUncalled (seen_since self.old self.new)) }
        ensures seen { OnOk result (length self.new.session.seen ≤ length self.new.watch.seen) }
        ensures waits { IfOk result (λ r. Waits self.new.floor self.new.watch r.1) }
        ensures floor { self.new.floor ≡ self.old.floor }
        ensures watch { HasLooked self.old.watch self.new.watch }
        ensures monitor { self.new.monitor ≡ self.old.monitor }
        ensures no_write { IsErrOf result Halt.WriteFault → ⊥ }
        ensures no_wait { IsErrOf result Halt.WaitFault → ⊥ }
        ensures no_read { IsErrOf result Halt.ReadFault → ⊥ }
        ensures not_full { IsErrOf result Halt.InputFull → ⊥ }
        ensures floor_causes { HasFloorCauses (IsErrOf result Halt.KeeperFault) (IsErrOf result Halt.LogFull) (min self.new.floor.opening.limit 4000000) self.new }
    {
        let now = clock.now();
        let (place, reply) = self.enter(rt, alloc, call, now)?;
        let waiting = see(rt, &self.floor, &mut self.watch, place);
        Ok((reply, waiting))
    }

    // One turn of the monitor, which begins with what it has seen to wait.
    pub(crate) fn turn<P: Spawner, C: Clock, R: Wait>(
        &mut self,
        rt: &R,
        alloc: Global,
        spawner: &mut P,
        clock: &mut C,
        waiting: Waiting,
    ) -> Result<Turned, Halt>
        requires ready { IsRunning self.old }
        requires waits { Waits self.old.floor self.old.watch waiting }
        ensures ready { IsRunning self.new }
        ensures floor { self.new.floor ≡ self.old.floor }
        ensures session { self.new.session ≡ self.old.session }
        ensures serves { RunServes P.asked P.told P.misses P.faults self.old spawner.old self.new spawner.new }
        ensures clear { OnOk result (IsClear self.new.monitor) }
        ensures causes { HasMonitorCauses result (P.faults spawner.old) (P.faults spawner.new) }
        ensures floor_causes { HasFloorCauses (IsErrOf result Halt.KeeperFault) (IsErrOf result Halt.LogFull) 4000000 self.new }
        ensures log_full { IsErrOf result Halt.LogFull → 4000000 ≤ length self.new.watch.seen }
        ensures sent { IfOk result (λ turned. turned.sent ≡ length (added self.old.watch self.new.watch)) }
        ensures waited { IfOk result (λ turned. WaitedAt self.old.floor self.old.watch self.new.watch turned.at turned.pending) }
        ensures handed { IfOk result (λ turned. (turned.pending.orders ≡ 0) ⊎ (hands_of (added self.old.watch self.new.watch) ≡ 256)) }
        ensures idle { IfOk result (λ turned. turned.sent ≡ 0 → self.old.monitor.failed_kill ≡ None →
            HadNothing self.old.floor self.old.watch self.new.watch self.old.monitor.kept (C.coming clock.old) (P.reporting spawner.old)) }
    {
        match self.monitor.turn(
            rt,
            alloc,
            &self.floor,
            &mut self.watch,
            spawner,
            clock,
            waiting,
        ) {
            Ok(turned) => Ok(turned),
            Err(fault) => Err(Halt::from(fault)),
        }
    }

    // One wait of the monitor, until what waits is due at the latest.
    pub(crate) fn wait<P: Spawner, C: Clock, R: Wait>(
        &mut self,
        rt: &R,
        alloc: Global,
        spawner: &mut P,
        clock: &mut C,
        waiting: &Waiting,
    ) -> Result<(), Halt>
        requires ready { IsRunning self.old }
        requires waits { waiting.now.pending ≡ pending (reached (behind self.old.floor.opening self.old.watch.seen)) monitor_pass }
        ensures ready { IsRunning self.new }
        ensures floor { self.new.floor ≡ self.old.floor }
        ensures session { self.new.session ≡ self.old.session }
        ensures serves { RunServes P.asked P.told P.misses P.faults self.old spawner.old self.new spawner.new }
        ensures report { OnOk result (next_moment (reached (behind self.old.floor.opening self.old.watch.seen)) ≡ None → IsEmpty (P.out spawner.old) ⊎ (1 ≤ length (added self.old.watch self.new.watch))) }
        ensures awaited { OnOk result (Grows (P.awaited spawner.old) (P.awaited spawner.new) (next_moment (reached (behind self.old.floor.opening self.old.watch.seen)) ∷ [])) }
        ensures kept { OnOk result (self.new.monitor.kept ≡ None) }
        ensures kill { self.new.monitor.failed_kill ≡ self.old.monitor.failed_kill }
        ensures causes { HasMonitorCauses result (P.faults spawner.old) (P.faults spawner.new) }
        ensures floor_causes { HasFloorCauses (IsErrOf result Halt.KeeperFault) (IsErrOf result Halt.LogFull) 4000000 self.new }
        ensures log_full { IsErrOf result Halt.LogFull → 4000000 ≤ length self.new.watch.seen }
    {
        let until = waiting.pending.next;
        match self.monitor.wait(
            rt,
            alloc,
            &self.floor,
            &mut self.watch,
            spawner,
            clock,
            until,
        ) {
            Ok(_) => Ok(()),
            Err(fault) => Err(Halt::from(fault)),
        }
    }

    // Makes the call of a user's command, says its reply, and lets the monitor turn, which leaves no order where it
    // makes no entry.
    fn call_command<O: Sink, P: Spawner, C: Clock, R: Wait>(
        &mut self,
        rt: &R,
        alloc: Global,
        out: &mut O,
        spawner: &mut P,
        clock: &mut C,
        user: &Name,
        command: Command,
    ) -> Result<Answered, Halt>
        requires ready { IsRunning self.old }
        requires fit { IsCommand command }
        ensures ready { IsRunning self.new }
        ensures serves { RunServes P.asked P.told P.misses P.faults self.old spawner.old self.new spawner.new }
        ensures answered { IfOk result (λ r. AnsweredBy (Calls user.now command)
            (seen_since self.old self.new) (O.written out.old) (O.written out.new) r.faulty) }
        ensures down { IfOk result (λ r. r.down ≡ is_down (seen_since self.old self.new)) }
        ensures stopped { OnErr result (IsCutShort (Calls user.now command)
            (seen_since self.old self.new) (O.written out.old) (O.written out.new)) }
        ensures orders { OnOk result (length (added self.old.watch self.new.watch) ≡ 0 → LeftNoOrder self.new (length self.new.session.seen)) }
        ensures quiet { OnOk result (length (added self.old.watch self.new.watch) ≡ 0 → self.old.monitor.failed_kill ≡ None → IsEmpty (P.reporting spawner.old)) }
        ensures causes { HasCauses result (O.faults out.old) (O.faults out.new) (P.faults spawner.old) (P.faults spawner.new) }
        ensures floor_causes { HasFloorCauses (IsErrOf result Halt.KeeperFault) (IsErrOf result Halt.LogFull) (min self.new.floor.opening.limit 4000000) self.new }
        ensures none_kept { OnOk result (KeepsNone self.old.monitor.kept self.new.monitor.kept) }
        ensures full { IsErrOf result Halt.LogFull → length self.new.watch.seen < 4000000 → KeepsNone self.old.monitor.kept self.new.monitor.kept }
    {
        let mention = mention_of(&command);
        let change = user_call(alloc, user, command)?;
        let (reply, waiting) = self.call(rt, alloc, clock, change)?;
        let answered = say(alloc, out, &mention, &reply)?;
        self.turn(rt, alloc, spawner, clock, waiting)?;
        Ok(answered)
    }

    // Answers a parsed line: a fault by its text, a reading command by its listing, a call by its reply.
    fn answer_parsed<O: Sink, P: Spawner, C: Clock, R: Wait>(
        &mut self,
        rt: &R,
        alloc: Global,
        out: &mut O,
        spawner: &mut P,
        clock: &mut C,
        user: &Name,
        parsed: Parsed,
    ) -> Result<Answered, Halt>
        requires ready { IsRunning self.old }
        requires fit { IsFitParsed parsed }
        ensures ready { IsRunning self.new }
        ensures serves { RunServes P.asked P.told P.misses P.faults self.old spawner.old self.new spawner.new }
        ensures answered { IfOk result (λ r. AnsweredBy (AnswersParsed user.now parsed (session_of self.old))
            (seen_since self.old self.new) (O.written out.old) (O.written out.new) r.faulty) }
        ensures down { IfOk result (λ r. r.down ≡ is_down (seen_since self.old self.new)) }
        ensures stopped { OnErr result (IsCutShort (AnswersParsed user.now parsed (session_of self.old))
            (seen_since self.old self.new) (O.written out.old) (O.written out.new)) }
        ensures causes { HasCauses result (O.faults out.old) (O.faults out.new) (P.faults spawner.old) (P.faults spawner.new) }
        ensures floor_causes { HasFloorCauses (IsErrOf result Halt.KeeperFault) (IsErrOf result Halt.LogFull) (min self.new.floor.opening.limit 4000000) self.new }
        ensures none_kept { OnOk result (KeepsNone self.old.monitor.kept self.new.monitor.kept) }
        ensures full { IsErrOf result Halt.LogFull → length self.new.watch.seen < 4000000 → KeepsNone self.old.monitor.kept self.new.monitor.kept }
    {
        match parsed {
            Parsed::Fault(fault) => {
                let line = fault_answer(alloc, &fault)?;
                put(out, line.as_bytes())?;
                Ok(Answered::uncalled(is_fault(&fault)))
            }
            Parsed::Read(ask) => {
                let refused = self.list(rt, alloc, out, &ask)?;
                Ok(Answered::uncalled(refused))
            }
            Parsed::Call(command) => {
                self.call_command(rt, alloc, out, spawner, clock, user, command)
            }
        }
    }

    // Answers one logical line, which may be too long.
    pub(crate) fn answer<O: Sink, P: Spawner, C: Clock, R: Wait>(
        &mut self,
        rt: &R,
        alloc: Global,
        out: &mut O,
        spawner: &mut P,
        clock: &mut C,
        user: &Name,
        line: Option<&[u8]>,
    ) -> Result<Answered, Halt>
        requires ready { IsRunning self.old }
        ensures ready { IsRunning self.new }
        ensures serves { RunServes P.asked P.told P.misses P.faults self.old spawner.old self.new spawner.new }
        ensures answered { IfOk result (λ r. AnsweredBy (AnswersLine user.now (option_copied line.entry) (session_of self.old))
            (seen_since self.old self.new) (O.written out.old) (O.written out.new) r.faulty) }
        ensures down { IfOk result (λ r. r.down ≡ is_down (seen_since self.old self.new)) }
        ensures stopped { OnErr result (IsCutShort (AnswersLine user.now (option_copied line.entry) (session_of self.old))
            (seen_since self.old self.new) (O.written out.old) (O.written out.new)) }
        ensures causes { HasCauses result (O.faults out.old) (O.faults out.new) (P.faults spawner.old) (P.faults spawner.new) }
        ensures floor_causes { HasFloorCauses (IsErrOf result Halt.KeeperFault) (IsErrOf result Halt.LogFull) (min self.new.floor.opening.limit 4000000) self.new }
        ensures none_kept { OnOk result (KeepsNone self.old.monitor.kept self.new.monitor.kept) }
        ensures full { IsErrOf result Halt.LogFull → length self.new.watch.seen < 4000000 → KeepsNone self.old.monitor.kept self.new.monitor.kept }
    {
        let parsed = match line {
            None => Parsed::Fault(LineFault::Cl(ClFault::TooLong)),
            Some(text) => parse_line(alloc, user, text)?,
        };
        self.answer_parsed(rt, alloc, out, spawner, clock, user, parsed)
    }
}
