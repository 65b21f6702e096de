// Qualified names.
ghost use Rattle.std.specs.Prelude.{◌≡◌, ◌++◌, ◌∷◌, Some};

use crate::Name;
use std::fmt;

/// A name in a library, printed `LIB/NAME`. Ordered by library and then by name.
#[derive(Clone, Copy, Debug, PartialEq, Eq, PartialOrd, Ord)]
pub struct QName {
    pub lib: Name,
    pub name: Name,
}

impl fmt::Display for QName {
    ghost use Rattle.wm_base.specs.QName.{qname_text};

    ghost output = { λ q. Some (qname_text q) };

    fn fmt<W: fmt::Write>(&self, f: &mut fmt::Formatter<W>) -> fmt::Result {
        write!(f, "{}/{}", self.lib, self.name)
    }
}
