// Where the values stand in a text.
ghost use Rattle.std.specs.Prelude.{◌≡◌, ◌≤◌, length, drop, take_while};
ghost use Rattle.wm_rows.specs.Reading.{is_other, before, behind, value, rest, behind_four};

// How many bytes stand before the first of these.
fn place_of(byte: u8, text: &[u8]) -> usize
    ensures value { result ≡ length (take_while (is_other byte) text.now) }
    ensures within { result ≤ length text.now }
{
    text.iter().take_while(|other| **other != byte).count()
}

/// What stands before the first such byte, or the whole text.
pub fn before(byte: u8, text: &[u8]) -> &[u8]
    ensures { result.now ≡ before byte text.now }
{
    &text[..place_of(byte, text)]
}

/// What stands behind the first such byte, or nothing.
pub fn behind(byte: u8, text: &[u8]) -> &[u8]
    ensures { result.now ≡ behind byte text.now }
{
    let place = place_of(byte, text);
    if place < text.len() {
        &text[place + 1..]
    } else {
        &[]
    }
}

/// The value in the first parentheses.
pub fn value(text: &[u8]) -> &[u8]
    ensures { result.now ≡ value text.now }
{
    before(b')', behind(b'(', text))
}

/// What stands behind the first parentheses.
pub fn rest(text: &[u8]) -> &[u8]
    ensures { result.now ≡ rest text.now }
{
    behind(b')', behind(b'(', text))
}

/// What stands behind the first four.
pub fn behind_four(text: &[u8]) -> &[u8]
    ensures { result.now ≡ behind_four text.now }
{
    rest(rest(rest(rest(text))))
}

/// What stands behind so many bytes.
pub fn without(count: usize, text: &[u8]) -> &[u8]
    requires { count ≤ length text.now }
    ensures { result.now ≡ drop count text.now }
{
    &text[count..]
}
