// The reader of commands, byte by byte.
//
// It keeps a mode (`mode.rt`), where the word, text or comment began, its bytes so far, and the open lists with their items.
// There is one function a mode, which says where a byte leads. Free: between items, at a `(` or a `)`, or where an item may
// begin; Slash: a `/` there, which a `*` makes a comment, and else a word; InWord, which a `(` makes a key; InQuoted: a text,
// up to an apostrophe; AtApostrophe: its end, or, where another one follows, one of its bytes; AfterSlash: a `/` just behind a
// text, which only a comment may follow; InComment, and AtStar behind a `*` in it. A byte that has no place in its mode is the
// fault, and nothing is read after it.
// What always holds: the reader has what `run` of `specs/Reading.antt` has after the same bytes. That those steps are the
// grammar, which knows no modes, is proved there in both ways.
ghost use Rattle.std.specs.Prelude.{◌≡◌};
ghost use Rattle.wm_base.specs.Text.{is_printable};
ghost use Rattle.wm_clwords.specs.Lines.{is_blank};
ghost use Rattle.wm_clwords.specs.Grammar.{is_word_byte, is_comment_byte, upper_byte};

use crate::fault::ClFault;
use crate::levels::Levels;
use crate::mode::Mode;
use crate::tree::Item;
use std::alloc::Global;
use std::mem;
use wm_base::Text;

/// How many lists may be open at once.
pub const MAX_DEPTH: usize = 16;

#[derive(Drop)]
pub struct Reader {
    pub mode: Mode,
    pub start: u32,
    pub held: Text,
    pub levels: Levels,
}

fn is_blank(byte: u8) -> bool
    ensures { result ≡ is_blank byte }
{
    byte == b' ' || byte == b'\t'
}

fn is_printable(byte: u8) -> bool
    ensures { result ≡ is_printable byte }
{
    (0x20..=0x7e).contains(&byte)
}

fn is_word_byte(byte: u8) -> bool
    ensures { result ≡ is_word_byte byte }
{
    (0x21..=0x7e).contains(&byte) && !(byte == b'\'' || byte == b'(' || byte == b')')
}

fn is_comment_byte(byte: u8) -> bool
    ensures { result ≡ is_comment_byte byte }
{
    byte == b'\t' || is_printable(byte)
}

fn upper_byte(byte: u8) -> u8
    ensures { result ≡ upper_byte byte }
{
    if byte.is_ascii_lowercase() {
        byte - 32
    } else {
        byte
    }
}

impl Reader {
    ghost use Rattle.std.specs.Prelude.{◌≡◌, ◌≢◌, ◌<◌, ◌≤◌, ◌+◌, ◌∷◌, [], ◌++◌, length, IsTrue, OnOk, IfOk, IfErr, Ok, Err};
    ghost use Rattle.wm_base.specs.Text.{IsText, is_printable};
    ghost use Rattle.wm_clwords.specs.Grammar.{Word, Quoted, Key, Open, upper_byte, is_word_byte};
    ghost use Rattle.wm_clwords.specs.Reading.{mark, opened, closed, at_free, at_word, at_slash, in_quoted, at_apostrophe, after_slash, in_comment, at_star, step, all_closed, finish, begun, with_front};
    ghost use Rattle.wm_clwords.specs.Items.{key_mark, list_marks};
    ghost use Rattle.wm_clwords.specs.Levels.{level_marks, level_opens};
    ghost use Rattle.wm_clwords.specs.Reader.{state_of, marks_of, Goes, is_behind};

    pub fn new(alloc: Global) -> Reader
        ensures state { state_of result ≡ begun }
        ensures marks { marks_of result ≡ [] }
    {
        Reader {
            mode: Mode::Free,
            start: 0,
            held: Text::new(alloc),
            levels: Levels::new(alloc),
        }
    }

    /// Goes on with nothing held.
    fn enter(&mut self, alloc: Global, mode: Mode, start: u32)
        ensures state { state_of self.new ≡ record { mode = mode; start = start; held = []; opens = level_opens self.old.levels } }
        ensures marks { marks_of self.new ≡ marks_of self.old }
    {
        self.mode = mode;
        self.start = start;
        self.held = Text::new(alloc);
    }

    /// Goes on with a byte more held.
    fn hold(&mut self, mode: Mode, byte: u8) -> Result<(), ClFault>
        requires { IsTrue (is_printable byte) }
        ensures state { OnOk result (state_of self.new ≡ record { mode = mode; start = self.old.start; held = self.old.held ++ byte ∷ []; opens = level_opens self.old.levels }) }
        ensures marks { OnOk result (marks_of self.new ≡ marks_of self.old) }
        ensures err { IfErr result (λ e. e ≡ ClFault.NoMemory) }
    {
        self.held.push_bytes(&[byte])?;
        self.mode = mode;
        Ok(())
    }

    /// A list begins at `place`, with its key at `start`.
    fn open_list(
        &mut self,
        alloc: Global,
        place: u32,
        start: u32,
        key: Option<Text>,
    ) -> Result<(), ClFault>
        requires { start ≤ place }
        ensures { Goes self.old result self.new (opened place (level_opens self.old.levels) (key_mark start key)) }
    {
        if self.levels.depth() >= MAX_DEPTH {
            return Err(ClFault::TooDeep(place));
        }
        self.levels.open_list(alloc, start, place, key)?;
        self.enter(alloc, Mode::Free, 0);
        Ok(())
    }

    /// A list ends at `place`.
    fn close_list(&mut self, alloc: Global, place: u32) -> Result<(), ClFault>
        requires fits { place ≤ 8192 }
        requires behind { IsTrue (is_behind place (level_opens self.old.levels)) }
        ensures { Goes self.old result self.new (closed place (level_opens self.old.levels) []) }
    {
        self.levels.close_list(place)?;
        self.enter(alloc, Mode::Free, 0);
        Ok(())
    }

    /// The word that is held ends before `place`.
    fn end_word(&mut self, alloc: Global, place: u32) -> Result<(), ClFault>
        requires { self.old.start ≤ place }
        ensures marks { OnOk result (marks_of self.new ≡ marks_of self.old ++ mark self.old.start place (Word self.old.held) ∷ []) }
        ensures opens { OnOk result (level_opens self.new.levels ≡ level_opens self.old.levels) }
        ensures err { IfErr result (λ e. e ≡ ClFault.NoMemory) }
    {
        let text = mem::replace(&mut self.held, Text::new(alloc));
        self.levels.add_word(self.start, place, text)?;
        Ok(())
    }

    /// The quoted text that is held ends before `place`.
    fn end_quoted(&mut self, alloc: Global, place: u32) -> Result<(), ClFault>
        requires { self.old.start ≤ place }
        ensures marks { OnOk result (marks_of self.new ≡ marks_of self.old ++ mark self.old.start place (Quoted self.old.held) ∷ []) }
        ensures opens { OnOk result (level_opens self.new.levels ≡ level_opens self.old.levels) }
        ensures err { IfErr result (λ e. e ≡ ClFault.NoMemory) }
    {
        let text = mem::replace(&mut self.held, Text::new(alloc));
        self.levels.add_quoted(self.start, place, text)?;
        Ok(())
    }

    /// A byte where an item or a gap may begin.
    fn at_free(&mut self, alloc: Global, place: u32, byte: u8) -> Result<(), ClFault>
        requires fits { place ≤ 8192 }
        requires behind { IsTrue (is_behind place (level_opens self.old.levels)) }
        ensures { Goes self.old result self.new (at_free (level_opens self.old.levels) place byte) }
    {
        if is_blank(byte) {
            self.enter(alloc, Mode::Free, 0);
        } else if byte == b'\'' {
            self.enter(alloc, Mode::InQuoted, place);
        } else if byte == b'(' {
            self.open_list(alloc, place, place, None)?;
        } else if byte == b')' {
            self.close_list(alloc, place)?;
        } else if byte == b'/' {
            self.enter(alloc, Mode::Slash, place);
            self.hold(Mode::Slash, byte)?;
        } else if is_word_byte(byte) {
            self.enter(alloc, Mode::InWord, place);
            self.hold(Mode::InWord, upper_byte(byte))?;
        } else {
            return Err(ClFault::BadByte(place));
        }
        Ok(())
    }

    /// A byte behind those of a word.
    fn at_word(&mut self, alloc: Global, place: u32, byte: u8) -> Result<(), ClFault>
        requires fits { place ≤ 8192 }
        requires start { self.old.start ≤ place }
        requires behind { IsTrue (is_behind place (level_opens self.old.levels)) }
        ensures { Goes self.old result self.new (at_word self.old.start self.old.held (level_opens self.old.levels) place byte) }
    {
        if is_blank(byte) {
            self.end_word(alloc, place)?;
            self.enter(alloc, Mode::Free, 0);
        } else if byte == b'(' {
            let start = self.start;
            let key = mem::replace(&mut self.held, Text::new(alloc));
            self.open_list(alloc, place, start, Some(key))?;
        } else if byte == b')' {
            self.end_word(alloc, place)?;
            self.close_list(alloc, place)?;
        } else if is_word_byte(byte) {
            let upper = upper_byte(byte);
            self.hold(Mode::InWord, upper)?;
        } else {
            return Err(ClFault::BadByte(place));
        }
        Ok(())
    }

    /// A byte behind a `/` where an item may begin.
    fn at_slash(&mut self, alloc: Global, place: u32, byte: u8) -> Result<(), ClFault>
        requires fits { place ≤ 8192 }
        requires start { self.old.start ≤ place }
        requires behind { IsTrue (is_behind place (level_opens self.old.levels)) }
        ensures { Goes self.old result self.new (at_slash self.old.start self.old.held (level_opens self.old.levels) place byte) }
    {
        if byte == b'*' {
            let start = self.start;
            self.enter(alloc, Mode::InComment, start);
        } else {
            self.at_word(alloc, place, byte)?;
        }
        Ok(())
    }

    /// A byte in a quoted text.
    fn in_quoted(&mut self, place: u32, byte: u8) -> Result<(), ClFault>
        ensures { Goes self.old result self.new (in_quoted self.old.start self.old.held (level_opens self.old.levels) place byte) }
    {
        if byte == b'\'' {
            self.mode = Mode::AtApostrophe;
        } else if is_printable(byte) {
            self.hold(Mode::InQuoted, byte)?;
        } else {
            return Err(ClFault::BadByte(place));
        }
        Ok(())
    }

    /// A byte behind an apostrophe in a quoted text.
    fn at_apostrophe(&mut self, alloc: Global, place: u32, byte: u8) -> Result<(), ClFault>
        requires fits { place ≤ 8192 }
        requires start { self.old.start ≤ place }
        requires behind { IsTrue (is_behind place (level_opens self.old.levels)) }
        ensures { Goes self.old result self.new (at_apostrophe self.old.start self.old.held (level_opens self.old.levels) place byte) }
    {
        if byte == b'\'' {
            self.hold(Mode::InQuoted, b'\'')?;
        } else if is_blank(byte) {
            self.end_quoted(alloc, place)?;
            self.enter(alloc, Mode::Free, 0);
        } else if byte == b')' {
            self.end_quoted(alloc, place)?;
            self.close_list(alloc, place)?;
        } else if byte == b'/' {
            self.end_quoted(alloc, place)?;
            self.enter(alloc, Mode::AfterSlash, place);
        } else {
            return Err(ClFault::BadByte(place));
        }
        Ok(())
    }

    /// A byte behind a `/` just behind a quoted text.
    fn after_slash(&mut self, alloc: Global, byte: u8) -> Result<(), ClFault>
        ensures { Goes self.old result self.new (after_slash self.old.start (level_opens self.old.levels) byte) }
    {
        if byte != b'*' {
            return Err(ClFault::BadByte(self.start));
        }
        let start = self.start;
        self.enter(alloc, Mode::InComment, start);
        Ok(())
    }

    /// A byte in a comment.
    fn in_comment(&mut self, alloc: Global, place: u32, byte: u8) -> Result<(), ClFault>
        ensures { Goes self.old result self.new (in_comment self.old.start (level_opens self.old.levels) place byte) }
    {
        let start = self.start;
        if byte == b'*' {
            self.enter(alloc, Mode::AtStar, start);
        } else if is_comment_byte(byte) {
            self.enter(alloc, Mode::InComment, start);
        } else {
            return Err(ClFault::BadByte(place));
        }
        Ok(())
    }

    /// A byte behind a `*` in a comment.
    fn at_star(&mut self, alloc: Global, place: u32, byte: u8) -> Result<(), ClFault>
        ensures { Goes self.old result self.new (at_star self.old.start (level_opens self.old.levels) place byte) }
    {
        if byte == b'/' {
            self.enter(alloc, Mode::Free, 0);
        } else {
            self.in_comment(alloc, place, byte)?;
        }
        Ok(())
    }

    /// Takes the next byte, which stands at `place`.
    pub fn step(&mut self, alloc: Global, place: u32, byte: u8) -> Result<(), ClFault>
        requires fits { place ≤ 8192 }
        requires start { self.old.start ≤ place }
        requires behind { IsTrue (is_behind place (level_opens self.old.levels)) }
        ensures { Goes self.old result self.new (step (state_of self.old) place byte) }
    {
        match self.mode {
            Mode::Free => self.at_free(alloc, place, byte)?,
            Mode::Slash => self.at_slash(alloc, place, byte)?,
            Mode::InWord => self.at_word(alloc, place, byte)?,
            Mode::InQuoted => self.in_quoted(place, byte)?,
            Mode::AtApostrophe => self.at_apostrophe(alloc, place, byte)?,
            Mode::AfterSlash => self.after_slash(alloc, byte)?,
            Mode::InComment => self.in_comment(alloc, place, byte)?,
            Mode::AtStar => self.at_star(alloc, place, byte)?,
        }
        Ok(())
    }

    /// The items, where every list is closed.
    fn into_items(self) -> Result<Vec<Item>, ClFault>
        ensures ok { IfOk result (λ items. (level_opens self.levels ≡ []) × (list_marks items.items ≡ marks_of self)) }
        ensures err { IfErr result (λ e. all_closed (level_opens self.levels) [] ≡ Err e) }
    {
        let Reader {
            mode: _,
            start: _,
            held: _,
            levels,
        } = self;
        levels.into_items()
    }

    /// The bytes end before `place`.
    pub fn finish(mut self, alloc: Global, place: u32) -> Result<Vec<Item>, ClFault>
        requires { self.start ≤ place }
        ensures ok { IfOk result (λ items. with_front (marks_of self) (finish (state_of self) place) ≡ Ok (list_marks items.items)) }
        ensures err { IfErr result (λ e. e ≢ ClFault.NoMemory → finish (state_of self) place ≡ Err e) }
    {
        match self.mode {
            Mode::Free => {}
            Mode::Slash | Mode::InWord => self.end_word(alloc, place)?,
            Mode::AtApostrophe => self.end_quoted(alloc, place)?,
            Mode::InQuoted => return Err(ClFault::OpenQuote(self.start)),
            Mode::AfterSlash => return Err(ClFault::BadByte(self.start)),
            Mode::InComment | Mode::AtStar => return Err(ClFault::OpenComment(self.start)),
        }
        self.into_items()
    }
}
