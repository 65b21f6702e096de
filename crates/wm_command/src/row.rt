// The rows of the command table: what a command's keys take.
use wm_base::Key;

/// What a value is, where it is no special word.
#[derive(Clone, Copy)]
pub enum Kind {
    /// A qualified name.
    Object,
    /// A qualified name, where QCMD without a library is QSYS/QCMD.
    Program,
    Name,
    /// A text of so many characters at least and at most.
    Text(u32, u32),
    /// A text of 1 to 255 characters that begins with a slash.
    Path,
    /// A number from the first to the second.
    Number(u32, u32),
    /// *YES or *NO.
    Flag,
    /// *CNTRLD or *IMMED.
    Ending,
    /// A job's name in one of its three forms.
    Job,
    /// *ANY, or a text and where it begins.
    Compare,
    Date,
    Time,
    Call,
    /// Any values, which are dropped.
    Anything,
}

/// The word with an asterisk that may stand in place of a value.
#[derive(Clone, Copy)]
pub enum Special {
    Never,
    Nomax,
    None,
    Jobd,
    Same,
    Nolimit,
    Sbsd,
}

/// What a key has where it isn't given.
#[derive(Clone, Copy)]
pub enum Default {
    /// It has to be given.
    Required,
    /// It has no value.
    Nothing,
    /// The special word of its row.
    Special,
    Number(u32),
    Yes,
    No,
    Cntrld,
    /// QGPL/QBATCH.
    Qbatch,
    /// QGPL/QDFTJOBD.
    Qdftjobd,
    Qcmdi,
    Qcmdb,
    /// *CURRENT as a date.
    Today,
    /// *CURRENT as a time.
    Now,
}

/// A key of a command, what it takes, and what it has where it isn't given.
#[derive(Clone, Copy)]
pub struct Row {
    pub key: Key,
    pub kind: Kind,
    pub special: Special,
    pub otherwise: Default,
}
