// A request, read once.
ghost use Rattle.std.specs.Prelude.{◌≡◌, IfOk};
ghost use Rattle.wm_clwords.specs.Called.{called_pgm, called_parms};

use crate::called::{CallFault, read_call};
use std::alloc::{AllocError, Global};
use std::marker::Model;
use wm_base::{Args, NoMemory, QName, Text};

/// What a job's program is to read: a text, with the program that it calls where it is a CALL. A contract sees the
/// text.
#[derive(Drop)]
pub struct Request {
    text: Text,
    pgm: Option<QName>,
}

impl Model for Request {
    ghost use Rattle.std.specs.Prelude.{List, ℕ};

    ghost Value = { List ℕ };

    ghost use Rattle.wm_clwords.specs.RequestInside.{IsRequest};

    ghost view = { λ r. r.text };

    ghost invariant = { IsRequest };
}

// The program that a text calls.
#[tactic(auto, unfolding(crate::specs::Called::called_pgm))]
fn program_of(alloc: Global, text: &Text) -> Result<Option<QName>, NoMemory>
    ensures { IfOk result (λ pgm. pgm ≡ called_pgm text.now) }
{
    match read_call(alloc, text.as_bytes()) {
        Ok(call) => Ok(Some(call.pgm)),
        Err(CallFault::NotCall) => Ok(None),
        Err(CallFault::NoMemory) => Err(AllocError),
    }
}

// The values that it calls it with.
#[tactic(auto, unfolding(crate::specs::Called::called_parms))]
fn parms_of(alloc: Global, text: &Text) -> Result<Args, NoMemory>
    ensures { IfOk result (λ args. args ≡ called_parms text.now) }
{
    match read_call(alloc, text.as_bytes()) {
        Ok(call) => Ok(call.parms),
        Err(CallFault::NotCall) => Ok(Args::new(alloc)),
        Err(CallFault::NoMemory) => Err(AllocError),
    }
}

impl Request {
    ghost use Rattle.std.specs.Prelude.{◌≡◌, IfOk};
    ghost use Rattle.wm_clwords.specs.Called.{called_pgm, called_parms};

    /// Reads a text. An `Err` is want of memory: a text that is no CALL is a request too.
    pub fn read(alloc: Global, text: Text) -> Result<Request, NoMemory>
        ensures { IfOk result (λ request. request ≡ text) }
    {
        let pgm = program_of(alloc, &text)?;
        Ok(Request { text, pgm })
    }

    pub fn text(&self) -> &Text
        ensures { result.now ≡ self.now }
    {
        &self.text
    }

    /// The program that it calls, where it is a CALL. It takes no memory.
    pub fn program(&self) -> Option<QName>
        ensures { result ≡ called_pgm self.now }
    {
        self.pgm
    }

    /// The values of the CALL, none where it is no CALL.
    pub fn parms(&self, alloc: Global) -> Result<Args, NoMemory>
        ensures { IfOk result (λ args. args ≡ called_parms self.now) }
    {
        parms_of(alloc, &self.text)
    }
}
