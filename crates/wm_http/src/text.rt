// The texts of answers, each seen by contracts as the list of its bytes.
use std::marker::Model;

/// The text of a line, without its end.
#[derive(Drop)]
pub struct Said {
    text: String,
}

impl Model for Said {
    ghost use Rattle.std.specs.Prelude.{ℕ, List, string_bytes};

    ghost Value = { List ℕ };

    ghost view = { λ said. string_bytes said.text };
}

impl Said {
    ghost use Rattle.std.specs.Prelude.{◌≡◌, string_bytes};

    pub fn new(text: String) -> Said
        ensures { result ≡ string_bytes text }
    {
        Said { text }
    }

    pub fn as_str(&self) -> &str
        ensures { result.now ≡ self.now }
    {
        self.text.as_str()
    }
}

/// The bytes of a listing.
#[derive(Drop)]
pub struct Listed {
    bytes: Vec<u8>,
}

impl Model for Listed {
    ghost use Rattle.std.specs.Prelude.{ℕ, List};

    ghost Value = { List ℕ };

    ghost view = { λ listed. listed.bytes.items };
}

impl Listed {
    ghost use Rattle.std.specs.Prelude.{◌≡◌};

    pub fn new(bytes: Vec<u8>) -> Listed
        ensures { result ≡ bytes.items }
    {
        Listed { bytes }
    }

    pub fn as_bytes(&self) -> &[u8]
        ensures { result.now ≡ self.now }
    {
        &self.bytes
    }
}
