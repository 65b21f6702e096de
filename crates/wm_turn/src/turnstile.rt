// The turnstile.
ghost use Rattle.std.specs.Prelude.{◌≡◌, ◌≢◌, ◌+◌, ◌<◌, ◌≤◌, ◌^◌, ◌↔◌, [], length, Some, None, IfOk, IfErr, IsOk, IfSome, IsSome};
ghost use Rattle.wm_turn.specs.Passed.{begun, child, ended, fresh, joining, own, parent, Grows, HasAll, HasOwn, StartsWith};

use crate::pass::Pass;
use crate::sleepers::Sleepers;
use crate::standing::Standing;
use crate::steps::recall;
use crate::turns::{begin, end};
use crate::view::{Back, Next, Rule, View};
use atomic_table::{Refused, Table};
use std::alloc::{AllocError, AllocFailed, Global};
use std::marker::Model;
use std::snapshot::Snapshot;
use std::sync::Wait;
use wm_base::NoMemory;

/// Threads take turns with a value, each by a pass of its own. A contract sees which turnstile it is.
pub struct Turnstile<X: Standing> {
    table: Table<Option<X>, View<X::Opening, X::Entry>, Snapshot<X>, Rule, Global>,
    sleepers: Sleepers,
}

impl<X: Standing> Model for Turnstile<X> {
    ghost use Rattle.atomic_table.specs.Seated.{TableId};
    ghost use Rattle.wm_turn.specs.Held.{IsTable};

    ghost Value = { TableId };

    ghost view = { λ t. t.table.shared.table_id };

    ghost invariant = { λ t. IsTable t.table.shared.table_id };
}

impl<X: Standing> Turnstile<X> {
    /// A turnstile for a value that stands for no entries, and its pass 0. An `Err` hands the value back.
    pub fn new(alloc: Global, value: X) -> Result<(Turnstile<X>, Pass<X>), (X, NoMemory)>
        requires { X.stands value ≡ [] }
        ensures ok { IfOk result (λ made. made.1 ≡ fresh made.0 0 (Some (X.opening value)) []) }
        ensures err { IfErr result (λ back. back.0 ≡ value) }
    {
        let made_of = Snapshot::of(&value);
        let mut slots = Vec::new(alloc);
        if let Err(AllocFailed { value }) = slots.push(Some(value)) {
            slots.destroy_empty();
            let Some(value) = value else { unreachable!() };
            return Err((value, AllocError));
        }
        match Table::new(alloc, &[0, 0, 0, 0], slots, &made_of) {
            Ok((table, place)) => {
                let pass = Pass {
                    place,
                    number: 0,
                    made: 0,
                    out: 0,
                    count: 0,
                };
                let sleepers = Sleepers::new();
                Ok((Turnstile { table, sleepers }, pass))
            }
            Err(Refused { mut slots }) => {
                let Some(Some(value)) = slots.pop() else {
                    unreachable!()
                };
                slots.destroy_empty();
                Err((value, AllocError))
            }
        }
    }

    /// Waits for the pass's turn and takes the value. What it stands for begins with what the pass had seen, which then has seen
    /// all of it. Every other thread that enters waits until `leave`: one that never calls it stops them all.
    pub fn enter<R: Wait>(&self, rt: &R, pass: &mut Pass<X>) -> X
        requires own { pass.old.turnstile ≡ self.now }
        requires free { pass.old.turn ≡ None }
        ensures pass { pass.new ≡ begun (X.stands result) (X.mark result) pass.old }
        ensures front { StartsWith (X.stands result) pass.old.seen }
        ensures opening { pass.old.opening ≡ Some (X.opening result) }
    {
        let (value, count) = begin(rt, &self.table.shared, &self.sleepers, &mut pass.place);
        pass.count = count;
        value
    }

    /// Gives the value back and ends the turn. It stands for what it stood for at `enter`, or for one entry of this pass more.
    pub fn leave(&self, pass: &mut Pass<X>, value: X)
        requires own { pass.old.turnstile ≡ self.now }
        requires turn { IsSome pass.old.turn }
        requires opening { pass.old.opening ≡ Some (X.opening value) }
        requires entries { Grows X.by pass.old.number pass.old.seen (X.stands value) }
        requires room { length (X.stands value) < 2 ^ 64 }
        requires mark { IfSome pass.old.turn (λ before. before ≤ X.mark value) }
        ensures { pass.new ≡ ended (X.stands value) (X.mark value) pass.old }
    {
        end(
            &self.table.shared,
            &self.sleepers,
            &mut pass.place,
            value,
            pass.count,
        );
    }

    /// Makes the pass of the next number, which has seen what pass 0 has and has no entry.
    pub fn split(&self, pass: &mut Pass<X>) -> Result<Pass<X>, NoMemory>
        requires own { pass.old.turnstile ≡ self.now }
        requires zero { pass.old.number ≡ 0 }
        requires room { pass.old.made < 4294967295 }
        ensures made { IfOk result (λ made. made ≡ child pass.old) }
        ensures pass { IfOk result (λ _. pass.new ≡ parent pass.old) }
        ensures ok { IsOk result }
    {
        let place = self.table.shared.split_seat::<Next>(&mut pass.place);
        pass.made += 1;
        pass.out += 1;
        Ok(Pass {
            place,
            number: pass.made,
            made: 0,
            out: 0,
            count: 0,
        })
    }

    /// Takes a pass back: pass 0 has then seen the longer list and has the greater mark, and keeps the other's number and entries.
    pub fn join(&self, pass: &mut Pass<X>, other: Pass<X>)
        requires own { pass.old.turnstile ≡ self.now }
        requires others { other.turnstile ≡ self.now }
        requires zero { pass.old.number ≡ 0 }
        requires free { pass.old.turn ≡ None }
        requires other_free { other.turn ≡ None }
        ensures pass { pass.new ≡ joining other pass.old }
        ensures seen { StartsWith pass.new.seen pass.old.seen }
        ensures told { StartsWith pass.new.seen other.seen }
    {
        let Pass {
            place,
            number: _,
            made: _,
            out: _,
            count: _,
        } = other;
        self.table.shared.join_seat::<Back>(&mut pass.place, place);
        recall(&self.table.shared, &mut pass.place);
        pass.out -= 1;
    }

    /// What a pass has seen meets the fact, and all of its own entries are in it.
    pub fn recall(&self, pass: &mut Pass<X>)
        requires own { pass.old.turnstile ≡ self.now }
        ensures same { pass.new ≡ pass.old }
        ensures fact { IfSome pass.old.opening (λ first. X.fact first pass.old.seen) }
        ensures mine { pass.old.mine ≡ own X.by pass.old.number pass.old.seen }
    {
        recall(&self.table.shared, &mut pass.place);
    }

    /// The value, once all passes were joined to pass 0, which has then seen all that it stands for. Else all comes back as it was.
    pub fn close(self, pass: Pass<X>) -> Result<X, (Turnstile<X>, Pass<X>)>
        requires own { pass.turnstile ≡ self }
        requires zero { pass.number ≡ 0 }
        requires free { pass.turn ≡ None }
        ensures back { IsOk result ↔ (length pass.joined ≡ pass.made) }
        ensures err { IfErr result (λ back. (back.0 ≡ self) × (back.1 ≡ pass)) }
        ensures whole { IfOk result (λ value. X.stands value ≡ pass.seen) }
        ensures opening { IfOk result (λ value. pass.opening ≡ Some (X.opening value)) }
        ensures mark { IfOk result (λ value. pass.mark ≢ 0 → X.mark value ≢ 0) }
        ensures mine { IfOk result (λ value. pass.mine ≡ own X.by 0 (X.stands value)) }
        ensures joined { IfOk result (λ value. HasOwn X.by (X.stands value) pass.joined) }
        ensures all { IfOk result (λ value. HasAll X.by (X.stands value) pass.made pass.joined) }
    {
        if pass.out > 0 {
            return Err((self, pass));
        }
        let Turnstile { table, sleepers } = self;
        drop(sleepers);
        let Pass {
            place,
            number: _,
            made: _,
            out: _,
            count: _,
        } = pass;
        let mut closed = table.close_with(place);
        let slot = closed.take(0);
        closed.free();
        let Some(value) = slot else { unreachable!() };
        Ok(value)
    }
}
