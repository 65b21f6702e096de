// The order of rows.
ghost use Rattle.std.specs.Prelude.{◌≡◌, ◌↔◌, IsTrue};
ghost use Rattle.wm_traits.specs.Rows.{is_before, IsInOrder};

use crate::Row;

impl Row {
    ghost use Rattle.wm_traits.specs.Rows.{is_before};

    /// Whether it stands before another: that of the lesser table, or in one table that of the lesser key by its bytes.
    pub fn is_before(&self, other: &Row) -> bool
        ensures { result ≡ is_before self.now other.now }
    {
        self.tab
            .cmp(&other.tab)
            .then(self.key.as_bytes().cmp(other.key.as_bytes()))
            .is_lt()
    }
}

/// Whether rows stand in their order, and a table has each key once.
pub fn are_in_order(rows: &[Row]) -> bool
    ensures { IsTrue result ↔ IsInOrder rows.now }
{
    rows.is_sorted_by(
        |a: &Row, b: &Row| -> bool
            ensures { result ≡ is_before a.now b.now }
        { a.is_before(b) },
    )
}
