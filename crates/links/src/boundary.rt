// A boundary: the place before a slot, or after the last one.
ghost use Rattle.std.specs.Prelude.{◌≡◌, ◌<◌, ◌≤◌, MatchResult};

// How many boundaries the links have.
pub const BOUNDARIES: usize = 1024;

// The boundaries of the links are the numbers below 1,024.
#[derive(Clone, Copy, Debug, PartialEq, Eq)]
pub struct Boundary {
    index: u16,
    ghost below: { index < 1024 },
}

// No boundary has the number.
#[derive(Clone, Copy, Debug, PartialEq, Eq)]
pub struct NoBoundary;

impl TryFrom<u32> for Boundary {
    type Error = NoBoundary;

    ghost try_from_gives = { λ number r. MatchResult r (λ b. b.index ≡ number) (λ _. 1024 ≤ number) };

    fn try_from(number: u32) -> Result<Boundary, NoBoundary> {
        if number < 1024 {
            // Stays: the check proves that the number fits; `try_from` would add a case that can't be.
            Ok(Boundary::at(number as u16))
        } else {
            Err(NoBoundary)
        }
    }
}

impl Boundary {
    // The boundary of a number that is known to be one.
    pub(crate) fn at(index: u16) -> Boundary
        requires { index < 1024 }
        ensures { result.index ≡ index }
    {
        Boundary { index }
    }

    // The number of the boundary.
    pub fn index(self) -> u16
        ensures value { result ≡ self.index }
        ensures below { result < 1024 }
    {
        self.index
    }
}
