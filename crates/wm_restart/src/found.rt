// Rows that were found, which stand in their order. A look-up halves them at each step.
ghost use Rattle.std.specs.Prelude.{◌≡◌, ◌↔◌, IsTrue, MatchResult};
ghost use Rattle.std.specs.Cmp.Lexicographic.{slice_cmp};
ghost use Rattle.std.specs.Ordering.{nat_cmp};
ghost use Rattle.wm_desc.specs.Place.{IsAt, IsGap};
ghost use Rattle.wm_traits.specs.Rows.{place_of, IsInOrder};
ghost use Rattle.wm_tables.specs.Opened.{is_found};

use std::cmp::Ordering;
use wm_traits::Row;

// How a row stands to another: by their tables, and in one table by their keys.
fn compare(a: &Row, b: &Row) -> Ordering
    ensures { result ≡ slice_cmp nat_cmp (place_of a.now) (place_of b.now) }
{
    a.tab
        .cmp(&b.tab)
        .then(a.key.as_bytes().cmp(b.key.as_bytes()))
}

// Where a row's place stands, or where it would go.
fn search(found: &[Row], row: &Row) -> Result<usize, usize>
    requires { IsInOrder found.now }
    ensures { MatchResult result (IsAt place_of (slice_cmp nat_cmp) (place_of row.now) found.now) (IsGap place_of (slice_cmp nat_cmp) (place_of row.now) found.now) }
{
    found.binary_search_by(
        |other: &Row| -> Ordering
            ensures { result ≡ slice_cmp nat_cmp (place_of other.now) (place_of row.entry.now) }
        { compare(other, row) },
    )
}

fn is_same(a: &Row, b: &Row) -> bool
    ensures { IsTrue result ↔ (a.now ≡ b.now) }
{
    a == b
}

/// Whether a row is one of those found.
pub(crate) fn is_found(found: &[Row], row: &Row) -> bool
    requires { IsInOrder found.now }
    ensures { result ≡ is_found found.now row.now }
{
    match search(found, row) {
        Ok(at) => is_same(&found[at], row),
        Err(_) => false,
    }
}
