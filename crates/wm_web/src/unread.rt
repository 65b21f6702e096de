// The bytes of a connection that were read and not used yet.
ghost use Rattle.std.specs.Prelude.{◌≡◌, ◌≤◌, ◌<◌, [], Ok, IfOk, OnErr, length, take};
ghost use Rattle.std.specs.Io.KnownBytes.{IsAtEnd};
ghost use Rattle.wm_traits.specs.Cause.{HasCause};
ghost use Rattle.wm_traits.specs.Told.{Takes};

use std::alloc::Global;
use std::marker::Model;
use wm_base::NoMemory;
use wm_http::{MAX_BODY, MAX_HEAD};
use wm_traits::{Failed, Source};

/// How many bytes are unread at the most: a head with its body.
pub(crate) const ROOM: usize = MAX_HEAD + MAX_BODY;

/// The bytes that were read and not used yet. A contract sees their list.
#[derive(Drop)]
pub struct Unread {
    bytes: Vec<u8>,
}

impl Model for Unread {
    ghost use Rattle.std.specs.Prelude.{◌≤◌, List, ℕ, length, vec_capacity};

    ghost Value = { List ℕ };

    ghost view = { λ u. u.bytes.items };

    ghost invariant = { λ u. (16384 ≤ vec_capacity u.bytes) × (length u.bytes.items ≤ 16384) };
}

// Reads at most so many bytes to the front of a piece of room.
fn read_piece<I: Source>(source: &mut I, piece: &mut [u8], most: usize) -> Result<usize, Failed>
    requires some { 0 < most }
    requires piece { most ≤ length piece.old }
    ensures within { IfOk result (λ n. n ≤ most) }
    ensures taken { IfOk result (λ n. Takes (I.left source.old) (take n piece.new) (I.left source.new)) }
    ensures end { result ≡ Ok 0 → IsAtEnd (I.left source.new) }
    ensures err { OnErr result (Takes (I.left source.old) [] (I.left source.new)) }
    ensures cause { HasCause (I.faults source.old) (I.faults source.new) result }
{
    let n = source.read(&mut piece[..most])?;
    Ok(n)
}

/// A piece of room for reads. An `Err` is want of memory.
pub(crate) fn new_piece(alloc: Global) -> Result<Vec<u8>, NoMemory>
    ensures { IfOk result (λ piece. length piece.items ≡ 16384) }
{
    Ok(vec![in alloc; 0u8; ROOM]?)
}

impl Unread {
    ghost use Rattle.std.specs.Prelude.{◌≡◌, ◌≤◌, ◌<◌, ◌+◌, [], Ok, IfOk, OnErr, drop, length};
    ghost use Rattle.std.specs.Io.KnownBytes.{IsAtEnd};
    ghost use Rattle.wm_traits.specs.Cause.{HasCause};
    ghost use Rattle.wm_web.specs.Reading.{ReadsOn};

    /// No bytes. An `Err` is want of memory.
    pub fn new(alloc: Global) -> Result<Unread, NoMemory>
        ensures { IfOk result (λ unread. unread ≡ []) }
    {
        Ok(Unread {
            bytes: Vec::with_capacity(alloc, ROOM)?,
        })
    }

    pub fn as_slice(&self) -> &[u8]
        ensures value { result.now ≡ self.now }
        ensures most { length self.now ≤ 16384 }
    {
        &self.bytes
    }

    /// Reads at most so many bytes behind those that are there, by a piece of room, and answers how many; 0 where the input has
    /// ended.
    pub fn read_on<I: Source>(
        &mut self,
        source: &mut I,
        piece: &mut [u8],
        most: usize,
    ) -> Result<usize, Failed>
        requires some { 0 < most }
        requires room { length self.old + most ≤ 16384 }
        requires piece { most ≤ length piece.old }
        ensures reads { ReadsOn (I.left source.old) (I.left source.new) self.old self.new }
        ensures count { IfOk result (λ n. length self.new ≡ length self.old + n) }
        ensures end { result ≡ Ok 0 → IsAtEnd (I.left source.new) }
        ensures err { OnErr result (self.new ≡ self.old) }
        ensures cause { HasCause (I.faults source.old) (I.faults source.new) result }
    {
        let n = read_piece(source, piece, most)?;
        let Ok(()) = self.bytes.extend_from_slice(&piece[..n]) else {
            unreachable!()
        };
        Ok(n)
    }

    /// Takes so many bytes off the front.
    pub fn drop_front(&mut self, len: usize)
        requires { len ≤ length self.old }
        ensures { self.new ≡ drop len self.old }
    {
        let rest = self.bytes.len() - len;
        self.bytes.copy_within(len.., 0);
        self.bytes.truncate(rest);
    }
}
