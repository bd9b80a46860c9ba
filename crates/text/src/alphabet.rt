// The alphabet of a script: each byte is a bracket, a blank, a digit or a small letter, or lies outside.
ghost use Rattle.std.specs.Prelude.{◌≡◌};
ghost use Rattle.text.specs.Alphabet.{class, joins, same};

#[derive(Clone, Copy, Debug, PartialEq, Eq)]
pub enum Class {
    Open,
    Close,
    Blank,
    Digit,
    Letter,
    Outside,
}

pub fn classify(c: char) -> Class
    ensures { result ≡ class c }
{
    match c {
        '(' => Class::Open,
        ')' => Class::Close,
        ' ' => Class::Blank,
        '0'..='9' => Class::Digit,
        'a'..='z' => Class::Letter,
        _ => Class::Outside,
    }
}

impl Class {
    // Whether bytes of this class that stand together are one run.
    pub fn joins(self) -> bool
        ensures { result ≡ joins self }
    {
        match self {
            Class::Blank | Class::Digit | Class::Letter => true,
            Class::Open | Class::Close | Class::Outside => false,
        }
    }

    // Whether a byte is of this class.
    pub(crate) fn holds(self, byte: u8) -> bool
        ensures { result ≡ same (class byte) self }
    {
        classify(char::from(byte)) == self
    }
}
