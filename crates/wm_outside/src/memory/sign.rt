// The bytes of a log of changes. A byte of a text stands for itself; every other byte is a sign, so that a text and what
// joins it to others stand in one vector.
ghost use Rattle.std.specs.Prelude.{◌≡◌};
ghost use Rattle.wm_outside.specs.Signs.{IsSign, IsTextSign, sign_of};
ghost use Rattle.wm_outside.specs.declared.memory.sign.Sign.TheVariants.{Text};

/// What comes next of a text.
#[derive(Clone, Copy)]
pub enum TextSign {
    /// This byte.
    Own(u8),
    /// So many bytes, which are as in the base.
    Kept(u8),
    /// Nothing: so many bytes of the base are left out.
    Passed(u8),
}

/// What a byte of the log says.
#[derive(Clone, Copy)]
pub enum Sign {
    /// The text goes on.
    Text(TextSign),
    /// A digit of the table's number, which has two to the base 16.
    Digit(u8),
    /// The text was the key, and the body follows.
    KeyEnds,
    /// The row of this table, key and body is put.
    Put,
    /// The row of this table and key is deleted.
    Deleted,
    /// The changes since the call before are those of one call.
    CallEnds,
}

/// How many bytes of the base one sign keeps or passes at the most.
pub const MOST: usize = 64;

/// What a byte says.
pub fn sign_of(byte: u8) -> Sign
    ensures { result ≡ sign_of byte }
{
    match byte {
        0..=15 => Sign::Digit(byte),
        16 => Sign::KeyEnds,
        17 => Sign::Put,
        18 => Sign::Deleted,
        19..=31 => Sign::CallEnds,
        32..=126 => Sign::Text(TextSign::Own(byte)),
        127..=191 => Sign::Text(TextSign::Kept(byte - 127)),
        192..=255 => Sign::Text(TextSign::Passed(byte - 191)),
    }
}

fn text_byte(sign: TextSign) -> u8
    requires { IsTextSign sign }
    ensures { sign_of result ≡ Text sign }
{
    match sign {
        TextSign::Own(byte) => byte,
        TextSign::Kept(count) => 127 + count,
        TextSign::Passed(count) => 191 + count,
    }
}

/// The byte that says this.
pub fn byte_of(sign: Sign) -> u8
    requires { IsSign sign }
    ensures { sign_of result ≡ sign }
{
    match sign {
        Sign::Text(sign) => text_byte(sign),
        Sign::Digit(digit) => digit,
        Sign::KeyEnds => 16,
        Sign::Put => 17,
        Sign::Deleted => 18,
        Sign::CallEnds => 19,
    }
}
