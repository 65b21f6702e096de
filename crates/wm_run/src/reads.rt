// What a reading command is answered: a listing of the state that the history then reaches, in one write.
ghost use Rattle.std.specs.Prelude.{◌≡◌};
ghost use Rattle.wm_run.specs.Reads.{is_log, is_no};

use crate::halt::Halt;
use crate::log_lines::log_bytes;
use crate::running::Run;
use crate::session::put;
use std::alloc::Global;
use std::sync::Wait;
use wm_base::NoMemory;
use wm_law::Ask;
use wm_listing::listing;
use wm_traits::{Keeper, Sink};
use wm_views::Shown;

// Whether what is shown is a refusal.
fn is_no(shown: &Shown) -> bool
    ensures { result ≡ is_no shown.now }
{
    matches!(shown, Shown::No(_))
}

impl<K: Keeper> Run<K> {
    ghost use Rattle.std.specs.Prelude.{◌≡◌, ◌≤◌, false, IfOk, OnErr, IsErrOf};
    ghost use Rattle.wm_floor.specs.Floor.{HasLooked, IsSame};
    ghost use Rattle.wm_floor.specs.Scene.{Spawning};
    ghost use Rattle.wm_traits.specs.Cause.{raised};
    ghost use Rattle.wm_run.specs.Grown.{seen_since, session_of};
    ghost use Rattle.wm_run.specs.Reads.{read_text, is_read_refused};
    ghost use Rattle.wm_run.specs.Serving.{IsRunning, Serves};
    ghost use Rattle.wm_run.specs.Session.{AnsweredBy, IsUncalled, Reads};
    ghost use Rattle.wm_run.specs.Stopped.{IsCutShort};

    // The bytes of the history's listing. An `Err` is want of memory.
    fn listed_log<R: Wait>(&mut self, rt: &R, alloc: Global) -> Result<(Vec<u8>, bool), NoMemory>
        requires ready { IsRunning self.old }
        ensures ready { IsRunning self.new }
        ensures floor { self.new.floor ≡ self.old.floor }
        ensures session { HasLooked self.old.session self.new.session }
        ensures same { IsSame self.old.session self.new.session }
        ensures watch { self.new.watch ≡ self.old.watch }
        ensures monitor { self.new.monitor ≡ self.old.monitor }
        ensures text { IfOk result (λ r. r.0.items ≡ read_text Ask.Log (session_of self.new)) }
        ensures refused { IfOk result (λ r. r.1 ≡ is_read_refused Ask.Log (session_of self.new)) }
    {
        let log = self.floor.log(rt, alloc, &mut self.session)?;
        let bytes = log_bytes(alloc, &log)?;
        Ok((bytes, false))
    }

    // The bytes of a listing of the state, and whether it is the line of a refusal. An `Err` is want of memory.
    fn listed_state<R: Wait>(
        &mut self,
        rt: &R,
        alloc: Global,
        ask: &Ask,
    ) -> Result<(Vec<u8>, bool), NoMemory>
        requires ready { IsRunning self.old }
        requires state { is_log ask.now ≡ false }
        ensures ready { IsRunning self.new }
        ensures floor { self.new.floor ≡ self.old.floor }
        ensures session { HasLooked self.old.session self.new.session }
        ensures same { IsSame self.old.session self.new.session }
        ensures watch { self.new.watch ≡ self.old.watch }
        ensures monitor { self.new.monitor ≡ self.old.monitor }
        ensures text { IfOk result (λ r. r.0.items ≡ read_text ask.now (session_of self.new)) }
        ensures refused { IfOk result (λ r. r.1 ≡ is_read_refused ask.now (session_of self.new)) }
    {
        let view = self.floor.read(rt, alloc, &mut self.session, ask)?;
        let bytes = listing(alloc, &view.shown)?;
        Ok((bytes, is_no(&view.shown)))
    }

    // The bytes of a listing, and whether it is the line of a refusal. An `Err` is want of memory.
    fn listed<R: Wait>(
        &mut self,
        rt: &R,
        alloc: Global,
        ask: &Ask,
    ) -> Result<(Vec<u8>, bool), NoMemory>
        requires ready { IsRunning self.old }
        ensures ready { IsRunning self.new }
        ensures floor { self.new.floor ≡ self.old.floor }
        ensures session { HasLooked self.old.session self.new.session }
        ensures same { IsSame self.old.session self.new.session }
        ensures watch { self.new.watch ≡ self.old.watch }
        ensures monitor { self.new.monitor ≡ self.old.monitor }
        ensures text { IfOk result (λ r. r.0.items ≡ read_text ask.now (session_of self.new)) }
        ensures refused { IfOk result (λ r. r.1 ≡ is_read_refused ask.now (session_of self.new)) }
    {
        match ask {
            Ask::Log => self.listed_log(rt, alloc),
            _ => self.listed_state(rt, alloc, ask),
        }
    }

    /// Answers a reading command, and tells whether it is refused. No entry is made.
    pub fn list<O: Sink, R: Wait>(
        &mut self,
        rt: &R,
        alloc: Global,
        out: &mut O,
        ask: &Ask,
    ) -> Result<bool, Halt>
        requires ready { IsRunning self.old }
        ensures ready { IsRunning self.new }
        ensures floor { self.new.floor ≡ self.old.floor }
        ensures serves { (s : Spawning) → Serves self.old self.new s s }
        ensures uncalled { IsUncalled (seen_since self.old self.new) }
        ensures watch { self.new.watch ≡ self.old.watch }
        ensures monitor { self.new.monitor ≡ self.old.monitor }
        ensures answered { IfOk result (λ refused. AnsweredBy (Reads ask.now (session_of self.old)) (seen_since self.old self.new) (O.written out.old) (O.written out.new) refused) }
        ensures stopped { OnErr result (IsCutShort (Reads ask.now (session_of self.old)) (seen_since self.old self.new) (O.written out.old) (O.written out.new)) }
        ensures faults { O.faults out.old ≤ O.faults out.new }
        ensures write_fault { IsErrOf result Halt.WriteFault → raised (O.faults out.old) ≤ O.faults out.new }
        ensures no_wait { IsErrOf result Halt.WaitFault → ⊥ }
        ensures no_read { IsErrOf result Halt.ReadFault → ⊥ }
        ensures not_full { IsErrOf result Halt.InputFull → ⊥ }
        ensures no_keeper { IsErrOf result Halt.KeeperFault → ⊥ }
        ensures no_log { IsErrOf result Halt.LogFull → ⊥ }
    {
        let (bytes, refused) = self.listed(rt, alloc, ask)?;
        put(out, &bytes)?;
        Ok(refused)
    }
}
