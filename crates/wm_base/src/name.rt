// Names.
ghost use Rattle.std.specs.Prelude.{◌≡◌, ◌↔◌, IsTrue, IsOk, IfOk, nat_eq, refl, Some};
ghost use Rattle.std.specs.Ordering.{nat_cmp};
ghost use Rattle.std.specs.Cmp.Lexicographic.{pointwise, slice_cmp, nat_list_eq_equiv, nat_list_cmp_total, texts_ties, texts_po};
ghost use Rattle.std.specs.Cmp.{partial_equiv_from_equiv};
ghost use Rattle.std.specs.List.{list_all};
ghost use Rattle.wm_base.specs.Name.{begins_name, continues_name, is_name, IsName, name_of};

use std::cmp::Ordering;
use std::marker::Model;
use std::{fmt, str};
use thiserror::Error;

/// How many bytes a name has at the most.
pub const NAME_LEN: usize = 10;

/// A simple name: 1 to 10 bytes, the first of A-Z, $, # and @, the others also of 0-9 and _.
/// A contract sees it as its bytes. This is the project's own profile of CL's simple names.
#[derive(Clone, Copy)]
pub struct Name {
    // Zeros stand behind the name.
    bytes: [u8; NAME_LEN],
    len: u8,
}

impl Model for Name {
    ghost use Rattle.std.specs.Prelude.{List, ℕ};

    ghost Value = { List ℕ };

    ghost use Rattle.wm_base.specs.NameInside.{name_bytes, IsNameInside, inside_of, inside_of-name_bytes};

    ghost view = { name_bytes };

    ghost invariant = { IsNameInside };

    ghost inverse = { inside_of };

    ghost inverse_ok = { inside_of-name_bytes };
}

/// Bytes that are no name.
#[derive(Clone, Copy, Debug, Error)]
#[error("not a name")]
pub struct BadName;

fn begins_name(byte: u8) -> bool
    ensures { result ≡ begins_name byte }
{
    byte.is_ascii_uppercase() || byte == b'$' || byte == b'#' || byte == b'@'
}

fn continues_name(byte: u8) -> bool
    ensures { result ≡ continues_name byte }
{
    begins_name(byte) || byte.is_ascii_digit() || byte == b'_'
}

fn all_continue(bytes: &[u8]) -> bool
    ensures { result ≡ list_all continues_name bytes.now }
{
    bytes.iter().all(|&byte| continues_name(byte))
}

fn is_name(bytes: &[u8]) -> bool
    ensures { result ≡ is_name bytes.now }
{
    !bytes.is_empty() && bytes.len() <= NAME_LEN && all_continue(bytes) && begins_name(bytes[0])
}

/// The name that bytes are, where they are one.
pub fn name_of(bytes: &[u8]) -> Option<Name>
    ensures { result ≡ name_of bytes.now }
{
    match Name::read(bytes) {
        Ok(name) => Some(name),
        Err(_) => None,
    }
}

impl Name {
    /// Reads bytes as a name. Any other bytes are `BadName`.
    pub fn read(bytes: &[u8]) -> Result<Name, BadName>
        ensures ok { IfOk result (λ name. name ≡ bytes.now) }
        ensures exactly { IsOk result ↔ IsName bytes.now }
    {
        if is_name(bytes) {
            Ok(Name::of(bytes))
        } else {
            Err(BadName)
        }
    }

    /// The name of bytes that are one.
    pub fn of(bytes: &[u8]) -> Name
        requires { IsName bytes.now }
        ensures { result ≡ bytes.now }
    {
        let mut kept = [0; NAME_LEN];
        kept[..bytes.len()].copy_from_slice(bytes);
        Name {
            bytes: kept,
            len: bytes.len() as u8,
        }
    }

    pub fn as_bytes(&self) -> &[u8]
        ensures value { result.now ≡ self.now }
        ensures name { IsName self.now }
    {
        &self.bytes[..self.len as usize]
    }

    pub fn as_str(&self) -> &str
        ensures { result.now ≡ self.now }
    {
        str::from_utf8(self.as_bytes()).unwrap()
    }
}

impl PartialEq for Name {
    ghost eq = { pointwise nat_eq };

    ghost laws = { partial_equiv_from_equiv nat_list_eq_equiv };

    fn eq(&self, other: &Name) -> bool {
        self.as_bytes() == other.as_bytes()
    }
}

impl Eq for Name {
    ghost laws = { nat_list_eq_equiv };
}

impl PartialOrd for Name {
    ghost partial_cmp = { λ x y. Some (slice_cmp nat_cmp x y) };

    ghost laws = { texts_po };

    fn partial_cmp(&self, other: &Name) -> Option<Ordering> {
        Some(self.cmp(other))
    }
}

impl Ord for Name {
    ghost cmp = { slice_cmp nat_cmp };

    ghost total = { nat_list_cmp_total };

    ghost matches_partial_cmp = { λ x y. refl };

    ghost matches_eq = { texts_ties };

    fn cmp(&self, other: &Name) -> Ordering {
        self.as_bytes().cmp(other.as_bytes())
    }
}

impl fmt::Debug for Name {
    fn fmt<W: fmt::Write>(&self, f: &mut fmt::Formatter<W>) -> fmt::Result {
        f.write_str(self.as_str())
    }
}

impl fmt::Display for Name {
    ghost output = { λ name. Some name };

    fn fmt<W: fmt::Write>(&self, f: &mut fmt::Formatter<W>) -> fmt::Result {
        f.write_str(self.as_str())
    }
}
