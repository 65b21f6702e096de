// The lines of a head.
ghost use Rattle.std.specs.Prelude.{◌≡◌, ◌<◌, ◌≤◌, length, IfSome, MatchOption};
ghost use Rattle.wm_http.specs.Lines.{head_lines, lines_from};

// What stands behind the line ends that a text begins with.
fn behind_blank(text: &[u8]) -> &[u8]
    ensures lines { lines_from 34 result.now ≡ head_lines text.now }
    ensures within { length result.now ≤ length text.now }
{
    let mut rest = text;
    while let [b'\r' | b'\n', more @ ..] = rest {
        rest = more;
    }
    rest
}

// What stands behind 34 lines, where a text has so many.
fn behind_lines(text: &[u8]) -> Option<&[u8]>
    ensures within { IfSome result (λ rest. length rest.now ≤ length text.now) }
    ensures lines { MatchOption result (0 < (lines_from 34 text.now).lacks) (λ rest. lines_from 34 text.now ≡ record { lacks = 0; rest = rest.now }) }
{
    let mut lacks = 34u32;
    for (at, byte) in text.iter().enumerate() {
        if *byte == b'\n' {
            lacks -= 1;
            if lacks == 0 {
                return Some(&text[at + 1..]);
            }
        }
    }
    None
}

/// What stands behind the request line and 33 lines of fields, where a text has so many.
pub fn behind_fields(text: &[u8]) -> Option<&[u8]>
    ensures within { IfSome result (λ rest. length rest.now ≤ length text.now) }
    ensures lines { MatchOption result (0 < (head_lines text.now).lacks) (λ rest. head_lines text.now ≡ record { lacks = 0; rest = rest.now }) }
{
    behind_lines(behind_blank(text))
}
