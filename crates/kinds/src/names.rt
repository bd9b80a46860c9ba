// The kinds by name.
ghost use Rattle.std.specs.Prelude.{◌≡◌, Some, codes};
ghost use Rattle.kinds.specs.Names.{kind_word, Named};

use std::error::Error;
use std::fmt;
use std::str::FromStr;

#[derive(Clone, Copy, Debug, PartialEq, Eq)]
pub enum KindName {
    Wh,
    Toggles,
    Dials,
}

impl KindName {
    pub fn word(self) -> &'static str
        ensures { result.now ≡ kind_word self }
    {
        match self {
            KindName::Wh => "wh",
            KindName::Toggles => "toggles",
            KindName::Dials => "dials",
        }
    }
}

impl fmt::Display for KindName {
    ghost output = { λ kind. Some (kind_word kind) };

    fn fmt<W: fmt::Write>(&self, f: &mut fmt::Formatter<W>) -> fmt::Result {
        f.write_str(self.word())
    }
}

// A word that names no kind.
#[derive(Clone, Copy, Debug, PartialEq, Eq)]
pub struct UnknownKind;

impl fmt::Display for UnknownKind {
    ghost output = { λ _. Some (codes "no kind of reading has that name") };

    fn fmt<W: fmt::Write>(&self, f: &mut fmt::Formatter<W>) -> fmt::Result {
        f.write_str("no kind of reading has that name")
    }
}

impl Error for UnknownKind {}

impl FromStr for KindName {
    type Err = UnknownKind;

    ghost from_str_gives = { Named };

    fn from_str(word: &str) -> Result<KindName, UnknownKind> {
        match word {
            "wh" => Ok(KindName::Wh),
            "toggles" => Ok(KindName::Toggles),
            "dials" => Ok(KindName::Dials),
            _ => Err(UnknownKind),
        }
    }
}
