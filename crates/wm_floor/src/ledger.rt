// What the callers of a floor take turns with: the machine with its keeper, and its history.
ghost use Rattle.std.specs.Arc.{arc_value};
ghost use Rattle.std.specs.Prelude.{◌≡◌, ◌<◌, ◌≤◌, ℕ, [], length, Err, IfOk, IfErr, OnOk, OnErr};
ghost use Rattle.wm_law.specs.Fit.{IsCall};
ghost use Rattle.wm_law.specs.Pending.{pending};
ghost use Rattle.wm_floor.specs.History.{entry_at, reached, with_call};
ghost use Rattle.wm_floor.specs.Floor.{IsLeftOrOpened};
ghost use Rattle.wm_floor.specs.Keeping.{telling, IsOpened};
ghost use Rattle.wm_floor.specs.Limit.{limit_of};
ghost use Rattle.wm_floor.specs.OpenFaults.{IsCounted, NamesBad};
ghost use Rattle.wm_floor.specs.Stored.{HasTables};
ghost use Rattle.wm_views.specs.Views.{shown};

use crate::answer::Answered;
use crate::limit::limit_of;
use crate::log::Log;
use crate::opened::Opened;
use crate::shared::Shared;
use crate::shared_list::SharedList;
use crate::step::step;
use crate::{CallFault, OpenFault, StoredCore};
use std::alloc::{AllocFailed, Global};
use std::marker::Model;
use std::snapshot::Snapshot;
use std::sync::Arc;
use wm_base::{Moment, NoMemory};
use wm_core::Setup;
use wm_law::{Ask, Call, Entry, Pending, Reply};
use wm_traits::Keeper;
use wm_turn::Standing;
use wm_views::Shown;

/// The machine with its keeper, its history, and how many calls the keeper has failed. The callers of a floor take turns with it.
#[derive(Drop)]
pub struct Ledger<K: Keeper> {
    found: Snapshot<K>,
    opened: Snapshot<StoredCore<K>>,
    // Behind a box, since each turn moves the ledger out of the turnstile and back.
    stored: Box<StoredCore<K>>,
    log: SharedList<Entry>,
    limit: u32,
    misses: u64,
}

/// What is left of a floor: the history, which is legal from the state that it was opened with, and the keeper, which has the
/// rows of the last state.
#[derive(Drop)]
pub struct Closed<K> {
    pub log: Log,
    pub keeper: K,
}

// Room for an entry, whose call has no reply yet.
fn room(alloc: Global, caller: u32, call: Call, moment: Moment) -> Result<Arc<Entry>, NoMemory>
    ensures { IfOk result (λ room. arc_value room ≡ record { caller = caller; call = call; moment = moment; reply = Reply.Nothing }) }
{
    let entry = Entry {
        caller,
        call,
        moment,
        reply: Reply::Nothing,
    };
    Ok(Arc::new(alloc, entry)?)
}

impl<K: Keeper> Model for Ledger<K> {
    ghost use Rattle.wm_floor.specs.Ledger.{Ledgered};

    ghost Value = { Ledgered K };

    ghost use Rattle.wm_floor.specs.Ledger.{IsLedger};

    ghost view = { λ l. record { opening = record { state = l.opened.value.state; keeper = l.opened.value.keeper; found = l.found.value; limit = l.limit }; log = l.log.items; keeper = l.stored.value.keeper; misses = l.misses } };

    ghost invariant = { λ l. IsLedger K.faults K.tables K.trail (record { opening = record { state = l.opened.value.state; keeper = l.opened.value.keeper; found = l.found.value; limit = l.limit }; log = l.log.items; keeper = l.stored.value.keeper; misses = l.misses }) l.stored.value.state };
}

impl<K: Keeper> Standing for Ledger<K> {
    type Opening = Opened<K>;

    type Entry = Entry;

    ghost use Rattle.wm_floor.specs.Ledger.{caller_of};

    ghost opening = { λ l. l.opening };

    ghost stands = { λ l. l.log };

    ghost mark = { λ l. l.misses };

    ghost by = { caller_of };

    ghost fact = { λ _ _. Unit {0} };

    fn entries(&self) -> u64 {
        self.log.len() as u64
    }

    fn marked(&self) -> bool {
        self.misses != 0
    }

    ghost meets = { λ _. tt };

    ghost fronts = { λ _ _ _ _. tt };
}

impl<K: Keeper> Ledger<K> {
    ghost use Rattle.wm_floor.specs.Causes.{HasMissed};
    ghost use Rattle.wm_floor.specs.Ledger.{history_of, HasLedger};

    /// The machine of the rows that a keeper has, with no history. An `Err` hands the keeper back, with its rows as they were, or,
    /// where there was no memory for a place of the machine's own, with those of the opened state.
    pub(crate) fn open(
        alloc: Global,
        keeper: K,
        setup: &Setup,
        limit: u32,
    ) -> Result<Ledger<K>, (K, OpenFault)>
        requires some { 1 ≤ limit }
        requires most { limit ≤ 1000000 }
        ensures ok { IfOk result (λ l. IsOpened setup.now.offset l.opening.state (telling K.tables K.trail keeper) (telling K.tables K.trail l.opening.keeper)) }
        ensures ok_faults { IfOk result (λ l. K.faults l.opening.keeper ≡ K.faults keeper) }
        ensures found { IfOk result (λ l. l.opening.found ≡ keeper) }
        ensures limit { IfOk result (λ l. l.opening.limit ≡ limit) }
        ensures log { IfOk result (λ l. l.log ≡ []) }
        ensures misses { IfOk result (λ l. l.misses ≡ 0) }
        ensures now { IfOk result (λ l. l.keeper ≡ l.opening.keeper) }
        ensures err { IfErr result (λ back. IsLeftOrOpened setup.now.offset (telling K.tables K.trail keeper) (telling K.tables K.trail back.0) back.1) }
        ensures bad { IfErr result (λ back. NamesBad setup.now.offset (K.tables keeper) back.1) }
        ensures faults { IfErr result (λ back. IsCounted (K.faults keeper) (K.faults back.0) back.1) }
    {
        let found = Snapshot::of(&keeper);
        let stored = StoredCore::open(alloc, keeper, setup)?;
        let opened = Snapshot::of(&stored);
        match Box::new(alloc, stored) {
            Ok(boxed) => Ok(Ledger {
                found,
                opened,
                stored: boxed,
                log: SharedList::new(alloc),
                limit,
                misses: 0,
            }),
            Err(AllocFailed { value }) => Err((value.close(), OpenFault::NoMemory)),
        }
    }

    // Makes one call, whose rows are kept before its entry is the last of the history, and answers a copy of its reply.
    fn enter(
        &mut self,
        alloc: Global,
        caller: u32,
        call: Call,
        now: Moment,
    ) -> Result<Reply, CallFault>
        requires fit { IsCall call }
        ensures opening { self.new.opening ≡ self.old.opening }
        ensures ok { OnOk result (history_of self.new ≡ with_call (history_of self.old) caller call now) }
        ensures reply { IfOk result (λ reply. reply ≡ (entry_at (history_of self.old) caller call now).reply) }
        ensures err { OnErr result (self.new.log ≡ self.old.log) }
        ensures full { limit_of call self.old.opening.limit ≤ length self.old.log → result ≡ Err (CallFault.LogFull (limit_of call self.old.opening.limit)) }
        ensures not_full { length self.old.log < limit_of call self.old.opening.limit → (n : ℕ) → result ≡ Err (CallFault.LogFull n) → ⊥ }
        ensures missed { HasMissed self.old.misses self.new.misses result }
    {
        let limit = limit_of(&call, self.limit);
        if self.log.len() >= limit as usize {
            return Err(CallFault::LogFull(limit));
        }
        self.log.reserve(alloc)?;
        // The range of the moment is what `legal` needs of the entry.
        let _moment = now.get();
        let mut shared = room(alloc, caller, call, now)?;
        // No other list has it yet, which std's contract doesn't tell. So it is looked at before the step.
        let Some(entry) = Arc::get_mut(&mut shared) else {
            return Err(CallFault::NoMemory);
        };
        let reply = step(alloc, &mut *self.stored, &mut self.misses, entry)?;
        self.log.push_reserved(Shared::of(shared));
        Ok(reply)
    }

    /// How many entries there are.
    pub(crate) fn len(&self) -> u32
        ensures len { result ≡ length self.now.log }
        ensures most { length self.now.log ≤ 4000000 }
    {
        self.log.len() as u32
    }

    /// Makes one call, and tells its place and its reply.
    pub(crate) fn call(
        &mut self,
        alloc: Global,
        caller: u32,
        call: Call,
        now: Moment,
    ) -> Result<Answered, CallFault>
        requires fit { IsCall call }
        ensures opening { self.new.opening ≡ self.old.opening }
        ensures ok { OnOk result (history_of self.new ≡ with_call (history_of self.old) caller call now) }
        ensures place { IfOk result (λ a. a.place ≡ length self.new.log) }
        ensures reply { IfOk result (λ a. a.reply ≡ (entry_at (history_of self.old) caller call now).reply) }
        ensures err { OnErr result (self.new.log ≡ self.old.log) }
        ensures full { limit_of call self.old.opening.limit ≤ length self.old.log → result ≡ Err (CallFault.LogFull (limit_of call self.old.opening.limit)) }
        ensures not_full { length self.old.log < limit_of call self.old.opening.limit → (n : ℕ) → result ≡ Err (CallFault.LogFull n) → ⊥ }
        ensures missed { HasMissed self.old.misses self.new.misses result }
    {
        let reply = self.enter(alloc, caller, call, now)?;
        Ok(Answered {
            place: self.len(),
            reply,
        })
    }

    /// The history.
    pub(crate) fn log(&self, alloc: Global) -> Result<Log, NoMemory>
        ensures { IfOk result (λ log. log ≡ self.now.log) }
    {
        Ok(Log::of(self.log.again(alloc)?))
    }

    /// What is shown of the state.
    pub(crate) fn view(&self, alloc: Global, ask: &Ask) -> Result<Shown, NoMemory>
        ensures { IfOk result (λ view. view ≡ shown (reached (history_of self.now)) ask.now) }
    {
        self.stored.view(alloc, ask)
    }

    /// What waits for a monitor.
    pub(crate) fn pending(&self, monitor: u32) -> Pending
        ensures { result ≡ pending (reached (history_of self.now)) monitor }
    {
        self.stored.pending(monitor)
    }

    /// What is always so of a ledger.
    pub(crate) fn recall(&self)
        ensures { HasLedger K.faults K.tables K.trail self.now }
    {
        let _ = &self.found;
    }

    /// The entries and the keeper.
    pub(crate) fn close(self) -> Closed<K>
        ensures log { result.log ≡ self.log }
        ensures keeper { result.keeper ≡ self.keeper }
        ensures known { HasLedger K.faults K.tables K.trail self }
        ensures tables { HasTables (reached (history_of self)) (K.tables result.keeper) }
    {
        Closed {
            log: Log::of(self.log),
            keeper: Box::into_inner(self.stored).close(),
        }
    }
}
