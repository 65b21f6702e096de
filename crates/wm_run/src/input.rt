// Taking the input: its pieces are joined into logical lines, and each line is answered.
ghost use Rattle.std.specs.Prelude.{◌≡◌, ◌≤◌, ◌<◌, ◌+◌, [], ◌∷◌, Ok, Some, IfOk, OnErr, IsErrOf, length, take};
ghost use Rattle.std.specs.Option.{option_copied};
ghost use Rattle.std.specs.Io.KnownBytes.{IsAtEnd};
ghost use Rattle.wm_clwords.specs.Part.{ended_lines};
ghost use Rattle.wm_traits.specs.Told.{Takes};
ghost use Rattle.wm_traits.specs.Cause.{raised};
ghost use Rattle.wm_run.specs.Taking.{StopsReading, TakesInput};

use crate::answered::Answered;
use crate::halt::Halt;
use crate::running::Run;
use std::alloc::Global;
use std::sync::Wait;
use wm_base::{Name, NoMemory};
use wm_clwords::{Joiner, LogicalLine};
use wm_traits::{Clock, Keeper, Sink, Source, Spawner};

/// How many bytes of input a run takes at the most.
pub const MOST_INPUT: u64 = 1_000_000_000;

/// How many bytes are read at a time.
pub const PIECE_LEN: usize = 65536;

// Reads a piece behind so many bytes, and tells a fault as the run's. An input that is too long is told before its
// bytes are used.
fn read<I: Source>(input: &mut I, piece: &mut [u8], total: u64) -> Result<usize, Halt>
    requires few { total ≤ 1000000000 }
    requires whole { length piece.old ≡ 65536 }
    ensures within { IfOk result (λ n. n ≤ length piece.new) }
    ensures len { length piece.new ≡ length piece.old }
    ensures taken { IfOk result (λ n. Takes (I.left input.old) (take n piece.new) (I.left input.new)) }
    ensures room { IfOk result (λ n. total + n ≤ 1000000000) }
    ensures end { result ≡ Ok 0 → 0 < length piece.new → IsAtEnd (I.left input.new) }
    ensures stopped { OnErr result (TakesInput (I.left input.old) (I.left input.new) (λ bytes. StopsReading bytes total result)) }
    ensures faults { I.faults input.old ≤ I.faults input.new }
    ensures read_fault { IsErrOf result Halt.ReadFault → raised (I.faults input.old) ≤ I.faults input.new }
    ensures no_write { IsErrOf result Halt.WriteFault → ⊥ }
    ensures no_wait { IsErrOf result Halt.WaitFault → ⊥ }
    ensures no_keeper { IsErrOf result Halt.KeeperFault → ⊥ }
    ensures no_log { IsErrOf result Halt.LogFull → ⊥ }
{
    let Ok(n) = input.read(piece) else {
        return Err(Halt::ReadFault);
    };
    if n as u64 > MOST_INPUT - total {
        return Err(Halt::InputFull);
    }
    Ok(n)
}

// The room for a piece. It is made apart from the loop, so that its bytes aren't looked at there.
fn piece_buffer(alloc: Global) -> Result<Vec<u8>, NoMemory>
    ensures { IfOk result (λ piece. length piece.items ≡ 65536) }
{
    Ok(vec![in alloc; 0u8; PIECE_LEN]?)
}

// A line that ended, as the session takes it: None is one that is too long.
fn text_of(line: LogicalLine, joiner: &Joiner) -> Option<&[u8]>
    ensures { ended_lines (Some line) joiner.now ≡ option_copied result ∷ [] }
{
    match line {
        LogicalLine::Command => Some(joiner.line()),
        LogicalLine::Long => None,
    }
}

impl<K: Keeper> Run<K> {
    ghost use Rattle.std.specs.Prelude.{◌≡◌, ◌≤◌, ◌<◌, ◌++◌, [], List, ℕ, false, Some, IfOk, OnOk, OnErr, IsErrOf, length, drop, min};
    ghost use Rattle.std.specs.Io.KnownBytes.{IsAtEnd};
    ghost use Rattle.wm_clwords.specs.Part.{lines_from, ended_lines};
    ghost use Rattle.wm_run.specs.Halt.{HasCauses, HasFloorCauses, HasInputCauses, KeepsNone};
    ghost use Rattle.wm_run.specs.Down.{is_down};
    ghost use Rattle.wm_run.specs.Outcome.{LinesCame};
    ghost use Rattle.wm_run.specs.Grown.{seen_since, session_of};
    ghost use Rattle.wm_run.specs.Serving.{IsRunning, RunServes};
    ghost use Rattle.wm_run.specs.Session.{Answers, AnsweredBy};
    ghost use Rattle.wm_run.specs.Stopped.{StopsIn};
    ghost use Rattle.wm_run.specs.Taking.{TakesPiece, TakesUpTo, TakesInput};

    // Answers the line that a joiner has.
    fn answer_joined<O: Sink, P: Spawner, C: Clock, R: Wait>(
        &mut self,
        rt: &R,
        alloc: Global,
        out: &mut O,
        spawner: &mut P,
        clock: &mut C,
        user: &Name,
        line: LogicalLine,
        joiner: &Joiner,
    ) -> Result<Answered, Halt>
        requires ready { IsRunning self.old }
        ensures ready { IsRunning self.new }
        ensures serves { RunServes P.asked P.told P.misses P.faults self.old spawner.old self.new spawner.new }
        ensures answered { IfOk result (λ r. AnsweredBy (Answers user.now (ended_lines (Some line) joiner.now) (session_of self.old))
            (seen_since self.old self.new) (O.written out.old) (O.written out.new) r.faulty) }
        ensures down { IfOk result (λ r. r.down ≡ is_down (seen_since self.old self.new)) }
        ensures stopped { OnErr result (StopsIn user.now (ended_lines (Some line) joiner.now) (session_of self.old)
            (seen_since self.old self.new) (O.written out.old) (O.written out.new)) }
        ensures causes { HasCauses result (O.faults out.old) (O.faults out.new) (P.faults spawner.old) (P.faults spawner.new) }
        ensures floor_causes { HasFloorCauses (IsErrOf result Halt.KeeperFault) (IsErrOf result Halt.LogFull) (min self.new.floor.opening.limit 4000000) self.new }
        ensures none_kept { OnOk result (KeepsNone self.old.monitor.kept self.new.monitor.kept) }
        ensures full { IsErrOf result Halt.LogFull → length self.new.watch.seen < 4000000 → KeepsNone self.old.monitor.kept self.new.monitor.kept }
    {
        self.answer(rt, alloc, out, spawner, clock, user, text_of(line, joiner))
    }

    // Takes bytes up to the end of a line, which is answered, or all of them. It answers how many it took.
    fn take_line<O: Sink, P: Spawner, C: Clock, R: Wait>(
        &mut self,
        rt: &R,
        alloc: Global,
        out: &mut O,
        spawner: &mut P,
        clock: &mut C,
        user: &Name,
        joiner: &mut Joiner,
        piece: &[u8],
    ) -> Result<(usize, Answered), Halt>
        requires ready { IsRunning self.old }
        ensures ready { IsRunning self.new }
        ensures serves { RunServes P.asked P.told P.misses P.faults self.old spawner.old self.new spawner.new }
        ensures taken { IfOk result (λ r. TakesPiece user.now joiner.old piece.now joiner.new (drop r.0 piece.now) (session_of self.old)
            (seen_since self.old self.new) (O.written out.old) (O.written out.new) r.1.faulty) }
        ensures down { IfOk result (λ r. r.1.down ≡ is_down (seen_since self.old self.new)) }
        ensures within { IfOk result (λ r. r.0 ≤ length piece.now) }
        ensures progress { IfOk result (λ r. 0 < length piece.now → 0 < r.0) }
        ensures stopped { OnErr result ((more : List ℕ) → StopsIn user.now (lines_from joiner.old (piece.now ++ more)) (session_of self.old)
            (seen_since self.old self.new) (O.written out.old) (O.written out.new)) }
        ensures causes { HasCauses result (O.faults out.old) (O.faults out.new) (P.faults spawner.old) (P.faults spawner.new) }
        ensures floor_causes { HasFloorCauses (IsErrOf result Halt.KeeperFault) (IsErrOf result Halt.LogFull) (min self.new.floor.opening.limit 4000000) self.new }
        ensures none_kept { OnOk result (KeepsNone self.old.monitor.kept self.new.monitor.kept) }
        ensures full { IsErrOf result Halt.LogFull → length self.new.watch.seen < 4000000 → KeepsNone self.old.monitor.kept self.new.monitor.kept }
    {
        let (taken, ended) = joiner.feed(piece);
        let Some(line) = ended else {
            return Ok((taken, Answered::uncalled(false)));
        };
        let answered = self.answer_joined(rt, alloc, out, spawner, clock, user, line, joiner)?;
        Ok((taken, answered))
    }

    // Takes the bytes of a piece, line by line, up to the line that puts the power down.
    fn take_piece<O: Sink, P: Spawner, C: Clock, R: Wait>(
        &mut self,
        rt: &R,
        alloc: Global,
        out: &mut O,
        spawner: &mut P,
        clock: &mut C,
        user: &Name,
        joiner: &mut Joiner,
        piece: &[u8],
    ) -> Result<Answered, Halt>
        requires ready { IsRunning self.old }
        ensures ready { IsRunning self.new }
        ensures serves { RunServes P.asked P.told P.misses P.faults self.old spawner.old self.new spawner.new }
        ensures taken { IfOk result (λ r. TakesUpTo user.now r.down joiner.old piece.now joiner.new (session_of self.old)
            (seen_since self.old self.new) (O.written out.old) (O.written out.new) r.faulty) }
        ensures down { IfOk result (λ r. r.down ≡ is_down (seen_since self.old self.new)) }
        ensures stopped { OnErr result ((more : List ℕ) → StopsIn user.now (lines_from joiner.old (piece.now ++ more)) (session_of self.old)
            (seen_since self.old self.new) (O.written out.old) (O.written out.new)) }
        ensures causes { HasCauses result (O.faults out.old) (O.faults out.new) (P.faults spawner.old) (P.faults spawner.new) }
        ensures floor_causes { HasFloorCauses (IsErrOf result Halt.KeeperFault) (IsErrOf result Halt.LogFull) (min self.new.floor.opening.limit 4000000) self.new }
        ensures none_kept { OnOk result (KeepsNone self.old.monitor.kept self.new.monitor.kept) }
        ensures full { IsErrOf result Halt.LogFull → length self.new.watch.seen < 4000000 → KeepsNone self.old.monitor.kept self.new.monitor.kept }
    {
        let mut faulty = false;
        let mut at = 0;
        'lines: while at < piece.len() {
            let (taken, line) = self.take_line(
                rt,
                alloc,
                out,
                spawner,
                clock,
                user,
                joiner,
                &piece[at..],
            )?;
            let answered = line.behind(faulty);
            if answered.down {
                return Ok(answered);
            }
            faulty = answered.faulty;
            at += taken;
        }
        Ok(Answered::uncalled(faulty))
    }

    // Answers the line that ends with the input, where there is one.
    fn take_rest<O: Sink, P: Spawner, C: Clock, R: Wait>(
        &mut self,
        rt: &R,
        alloc: Global,
        out: &mut O,
        spawner: &mut P,
        clock: &mut C,
        user: &Name,
        joiner: &mut Joiner,
    ) -> Result<Answered, Halt>
        requires ready { IsRunning self.old }
        ensures ready { IsRunning self.new }
        ensures serves { RunServes P.asked P.told P.misses P.faults self.old spawner.old self.new spawner.new }
        ensures answered { IfOk result (λ r. AnsweredBy (Answers user.now (lines_from joiner.old []) (session_of self.old))
            (seen_since self.old self.new) (O.written out.old) (O.written out.new) r.faulty) }
        ensures down { IfOk result (λ r. r.down ≡ is_down (seen_since self.old self.new)) }
        ensures stopped { OnErr result (StopsIn user.now (lines_from joiner.old []) (session_of self.old)
            (seen_since self.old self.new) (O.written out.old) (O.written out.new)) }
        ensures causes { HasCauses result (O.faults out.old) (O.faults out.new) (P.faults spawner.old) (P.faults spawner.new) }
        ensures floor_causes { HasFloorCauses (IsErrOf result Halt.KeeperFault) (IsErrOf result Halt.LogFull) (min self.new.floor.opening.limit 4000000) self.new }
        ensures none_kept { OnOk result (KeepsNone self.old.monitor.kept self.new.monitor.kept) }
        ensures full { IsErrOf result Halt.LogFull → length self.new.watch.seen < 4000000 → KeepsNone self.old.monitor.kept self.new.monitor.kept }
    {
        let Some(line) = joiner.end() else {
            return Ok(Answered::uncalled(false));
        };
        self.answer_joined(rt, alloc, out, spawner, clock, user, line, joiner)
    }

    // Takes the input by pieces, up to the line that puts the power down, and answers its lines.
    fn take_pieces<I: Source, O: Sink, P: Spawner, C: Clock, R: Wait>(
        &mut self,
        rt: &R,
        alloc: Global,
        input: &mut I,
        out: &mut O,
        spawner: &mut P,
        clock: &mut C,
        user: &Name,
        piece: &mut [u8],
    ) -> Result<Answered, Halt>
        requires piece { length piece.old ≡ 65536 }
        requires ready { IsRunning self.old }
        ensures ready { IsRunning self.new }
        ensures serves { RunServes P.asked P.told P.misses P.faults self.old spawner.old self.new spawner.new }
        ensures input { TakesInput (I.left input.old) (I.left input.new) (λ bytes. LinesCame user.now bytes result (session_of self.old)
            (seen_since self.old self.new) (O.written out.old) (O.written out.new)) }
        ensures down { IfOk result (λ r. r.down ≡ is_down (seen_since self.old self.new)) }
        ensures end { IfOk result (λ r. r.down ≡ false → IsAtEnd (I.left input.new)) }
        ensures causes { HasInputCauses result (I.faults input.old) (I.faults input.new) (O.faults out.old) (O.faults out.new) (P.faults spawner.old) (P.faults spawner.new) }
        ensures floor_causes { HasFloorCauses (IsErrOf result Halt.KeeperFault) (IsErrOf result Halt.LogFull) (min self.new.floor.opening.limit 4000000) self.new }
        ensures none_kept { OnOk result (KeepsNone self.old.monitor.kept self.new.monitor.kept) }
        ensures full { IsErrOf result Halt.LogFull → length self.new.watch.seen < 4000000 → KeepsNone self.old.monitor.kept self.new.monitor.kept }
    {
        let mut joiner = Joiner::new(alloc)?;
        let mut faulty = false;
        let mut total = 0u64;
        'reads: for _ in rt.forever() {
            let n = read(input, piece, total)?;
            if n == 0 {
                let last = self.take_rest(rt, alloc, out, spawner, clock, user, &mut joiner)?;
                return Ok(last.behind(faulty));
            }
            let some = self.take_piece(
                rt,
                alloc,
                out,
                spawner,
                clock,
                user,
                &mut joiner,
                &piece[..n],
            )?;
            let answered = some.behind(faulty);
            if answered.down {
                return Ok(answered);
            }
            faulty = answered.faulty;
            total += n as u64;
        }
        unreachable!()
    }

    /// Takes the input, up to the line that puts the power down, and answers its lines.
    pub fn take_all<I: Source, O: Sink, P: Spawner, C: Clock, R: Wait>(
        &mut self,
        rt: &R,
        alloc: Global,
        input: &mut I,
        out: &mut O,
        spawner: &mut P,
        clock: &mut C,
        user: &Name,
    ) -> Result<Answered, Halt>
        requires ready { IsRunning self.old }
        ensures ready { IsRunning self.new }
        ensures serves { RunServes P.asked P.told P.misses P.faults self.old spawner.old self.new spawner.new }
        ensures input { TakesInput (I.left input.old) (I.left input.new) (λ bytes. LinesCame user.now bytes result (session_of self.old)
            (seen_since self.old self.new) (O.written out.old) (O.written out.new)) }
        ensures down { IfOk result (λ r. r.down ≡ is_down (seen_since self.old self.new)) }
        ensures end { IfOk result (λ r. r.down ≡ false → IsAtEnd (I.left input.new)) }
        ensures causes { HasInputCauses result (I.faults input.old) (I.faults input.new) (O.faults out.old) (O.faults out.new) (P.faults spawner.old) (P.faults spawner.new) }
        ensures floor_causes { HasFloorCauses (IsErrOf result Halt.KeeperFault) (IsErrOf result Halt.LogFull) (min self.new.floor.opening.limit 4000000) self.new }
        ensures none_kept { OnOk result (KeepsNone self.old.monitor.kept self.new.monitor.kept) }
        ensures full { IsErrOf result Halt.LogFull → length self.new.watch.seen < 4000000 → KeepsNone self.old.monitor.kept self.new.monitor.kept }
    {
        let mut piece = piece_buffer(alloc)?;
        self.take_pieces(rt, alloc, input, out, spawner, clock, user, &mut piece)
    }
}
