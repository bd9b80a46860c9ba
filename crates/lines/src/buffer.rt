// The buffer that a line is made in.
ghost use Rattle.std.specs.Prelude.{◌≡◌, length, if◌then◌else◌, Ok, Err, Some, codes, nat_lt};

use std::error::Error;
use std::fmt;

// A buffer of so many bytes holds every line.
pub const ROOM: usize = 16_384;

// The buffer has fewer bytes than `ROOM`.
#[derive(Clone, Copy, Debug, PartialEq, Eq)]
pub struct Short;

impl Short {
    pub fn number(self) -> u8
        ensures { result ≡ 31 }
    {
        31
    }
}

impl fmt::Display for Short {
    ghost output = { λ _. Some (codes "the line buffer is too short") };

    fn fmt<W: fmt::Write>(&self, f: &mut fmt::Formatter<W>) -> fmt::Result {
        f.write_str("the line buffer is too short")
    }
}

impl Error for Short {}

// Whether a buffer holds every line; it is left as it is.
pub fn has_room(buf: &[u8]) -> Result<(), Short>
    ensures { result ≡ (if nat_lt (length buf.now) 16384 then Err (record {}) else Ok tt) }
{
    if buf.len() < ROOM { Err(Short) } else { Ok(()) }
}
