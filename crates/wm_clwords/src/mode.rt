// Where the reader of a command stands.

/// What the bytes so far end with.
#[derive(Clone, Copy)]
pub enum Mode {
    /// An item or a gap may begin.
    Free,
    /// A `/` where an item may begin: a word, or a comment if `*` comes next.
    Slash,
    /// A word.
    InWord,
    /// A text whose last apostrophe hasn't come.
    InQuoted,
    /// An apostrophe in a text: its end, unless another comes next.
    AtApostrophe,
    /// A `/` just behind a quoted text: only a comment may begin with it.
    AfterSlash,
    /// A comment.
    InComment,
    /// A comment, and a `*` that may be its last.
    AtStar,
}
