// Pieces of input, joined into logical lines.
ghost use Rattle.std.specs.Prelude.{◌≡◌, ◌≤◌, List, ℕ, IsTrue, length};
ghost use Rattle.std.specs.List.{list_all};
ghost use Rattle.wm_clwords.specs.Lines.{is_blank, is_no_line_feed, sign_byte};
ghost use Rattle.wm_clwords.specs.Part.{Part, lines_from};

use crate::line::{LogicalLine, Sign};
use std::alloc::Global;
use std::marker::Model;
use wm_base::NoMemory;

/// How many bytes a logical line has at the most.
pub const LINE_LEN: usize = 8192;

/// How many bytes are held: those of a line, and a sign that is dropped at its end.
const ROOM: usize = 8193;

/// Turns pieces of input into logical lines. A contract sees it as what it holds of the line that is read.
#[derive(Drop)]
pub struct Joiner {
    room: Vec<u8>,
    len: usize,
    solid: usize,
    sign: Sign,
    cr: bool,
    skips: bool,
    long: bool,
    joined: bool,
    ended: bool,
}

impl Model for Joiner {
    ghost use Rattle.std.specs.Prelude.{◌≡◌, ◌≤◌, length, take};
    ghost use Rattle.wm_clwords.specs.Part.{Part};

    ghost Value = { Part };

    ghost view = { λ j. record { line = take j.len j.room.items; solid = j.solid; sign = j.sign; cr = j.cr; skips = j.skips; long = j.long; joined = j.joined; ended = j.ended } };

    ghost invariant = { λ j. (length j.room.items ≡ 8193) × (j.len ≤ 8193) × (j.solid ≤ j.len) };
}

impl Joiner {
    ghost use Rattle.std.specs.Prelude.{◌≡◌, ◌<◌, ◌≤◌, ◌↔◌, ◌++◌, [], ◌∷◌, List, ℕ, IsTrue, IfOk, IfSome, IfNone, OnSome, Option, length, drop};
    ghost use Rattle.wm_clwords.specs.Lines.{is_blank, sign_byte, logical_lines};
    ghost use Rattle.wm_clwords.specs.Part.{fresh, begun, with_blank, with_solid, with_kept, with_cr, with_byte, joined_on, finished, unsigned, answer, has_rest, at_end, at_line_feed, ended_lines, lines_from};

    /// Takes room for one logical line and a sign.
    pub fn new(alloc: Global) -> Result<Joiner, NoMemory>
        ensures { IfOk result (λ joiner. (bytes : List ℕ) → lines_from joiner bytes ≡ logical_lines bytes) }
    {
        Ok(Joiner {
            room: vec![in alloc; 0; ROOM]?,
            len: 0,
            solid: 0,
            sign: Sign::No,
            cr: false,
            skips: false,
            long: false,
            joined: false,
            ended: false,
        })
    }

    /// Takes bytes up to the end of a logical line, or all of them, and answers how many it took and the line that
    /// ended. What was joined before and a CR that came last wait for the next piece.
    pub fn feed(&mut self, piece: &[u8]) -> (usize, Option<LogicalLine>)
        // However the input goes on, its lines are the answered one and those that the rest gives.
        ensures lines { (more : List ℕ) → lines_from self.old (piece.now ++ more)
            ≡ ended_lines result.1 self.new ++ lines_from self.new (drop result.0 piece.now ++ more) }
        ensures all { IfNone result.1 (result.0 ≡ length piece.now) }
        ensures taken { result.0 ≤ length piece.now }
        ensures progress { OnSome result.1 (0 < result.0) }
        ensures next { OnSome result.1 ((more : List ℕ) → lines_from self.new more ≡ logical_lines more) }
    {
        for (index, byte) in piece.iter().enumerate() {
            if let Some(line) = self.step(*byte) {
                return (index + 1, Some(line));
            }
        }
        (piece.len(), None)
    }

    /// Gives the rest where the input ends, and None where there is none.
    pub fn end(&mut self) -> Option<LogicalLine>
        ensures line { lines_from self.old [] ≡ ended_lines result self.new }
        ensures next { (more : List ℕ) → lines_from self.new more ≡ logical_lines more }
    {
        self.begin();
        if !self.has_rest() {
            self.ended = true;
            return None;
        }
        self.keep_cr();
        self.drop_sign();
        self.finish()
    }

    /// The bytes of the line that was answered as `Command`.
    pub fn line(&self) -> &[u8]
        ensures { result.now ≡ self.now.line }
    {
        &self.room[..self.len]
    }

    /// Takes the next byte, and gives the line that it ends.
    fn step(&mut self, byte: u8) -> Option<LogicalLine>
        ensures lines { (bytes : List ℕ) → lines_from self.old (byte ∷ bytes) ≡ ended_lines result self.new ++ lines_from self.new bytes }
        ensures next { OnSome result ((more : List ℕ) → lines_from self.new more ≡ logical_lines more) }
    {
        self.begin();
        if byte == b'\n' {
            self.cr = false;
            self.finish()
        } else {
            self.take(byte);
            None
        }
    }

    fn has_rest(&self) -> bool
        ensures { result ≡ has_rest self.now }
    {
        self.joined || self.cr || self.len > 0
    }

    /// A sign at the end of the input is dropped, and nothing is joined.
    fn drop_sign(&mut self)
        ensures { self.new ≡ unsigned self.old }
    {
        match self.sign {
            Sign::No => {}
            Sign::Plus => self.join_on(true),
            Sign::Minus => self.join_on(false),
        }
    }

    /// Makes way for the next line, where one was answered.
    fn begin(&mut self)
        ensures { self.new ≡ begun self.old }
    {
        if self.ended {
            self.len = 0;
            self.solid = 0;
            self.sign = Sign::No;
            self.cr = false;
            self.skips = false;
            self.long = false;
            self.joined = false;
            self.ended = false;
        }
    }

    fn keep_blank(&mut self, byte: u8)
        ensures { self.new ≡ with_blank self.old byte }
    {
        if !self.skips && self.len < ROOM {
            self.room[self.len] = byte;
            self.len += 1;
        }
    }

    fn keep_solid(&mut self, byte: u8)
        ensures { self.new ≡ with_solid self.old byte }
    {
        self.sign = sign_byte(byte);
        self.skips = false;
        if self.len < ROOM {
            self.room[self.len] = byte;
            self.len += 1;
            self.solid = self.len;
        } else {
            self.long = true;
        }
    }

    fn keep(&mut self, byte: u8)
        ensures { self.new ≡ with_kept self.old byte }
    {
        if is_blank(byte) {
            self.keep_blank(byte);
        } else {
            self.keep_solid(byte);
        }
    }

    fn keep_cr(&mut self)
        ensures { self.new ≡ with_cr self.old }
    {
        if self.cr {
            self.cr = false;
            self.keep_solid(b'\r');
        }
    }

    fn take(&mut self, byte: u8)
        ensures { self.new ≡ with_byte self.old byte }
    {
        self.keep_cr();
        if byte == b'\r' {
            self.cr = true;
        } else {
            self.keep(byte);
        }
    }

    fn join_on(&mut self, skips: bool)
        ensures { self.new ≡ joined_on self.old skips }
    {
        self.solid = self.solid.saturating_sub(1);
        self.len = self.solid;
        self.sign = Sign::No;
        self.skips = skips;
        self.joined = true;
    }

    fn finish(&mut self) -> Option<LogicalLine>
        ensures answer { result ≡ answer self.old }
        ensures part { self.new ≡ finished self.old }
        ensures ended { OnSome result (IsTrue self.new.ended) }
    {
        match self.sign {
            Sign::No => {
                self.len = self.solid;
                self.ended = true;
                if self.long || self.solid > LINE_LEN {
                    Some(LogicalLine::Long)
                } else {
                    Some(LogicalLine::Command)
                }
            }
            Sign::Plus => {
                self.join_on(true);
                None
            }
            Sign::Minus => {
                self.join_on(false);
                None
            }
        }
    }
}

/// Bytes without an LF give one line at most, the one that ends with the input. So no line that ended is held back:
/// `feed` answers it before it takes another byte.
pub fn no_line_waits()
    ensures { (part : Part) (more : List ℕ) → IsTrue (list_all is_no_line_feed more) → length (lines_from part more) ≤ 1 }
{}

fn is_blank(byte: u8) -> bool
    ensures { result ≡ is_blank byte }
{
    byte == b' ' || byte == b'\t'
}

fn sign_byte(byte: u8) -> Sign
    ensures { result ≡ sign_byte byte }
{
    match byte {
        b'+' => Sign::Plus,
        b'-' => Sign::Minus,
        _ => Sign::No,
    }
}
