// Places in a script, and the faults of its text.
ghost use Rattle.std.specs.Prelude.{◌≡◌, ◌+◌, ◌^◌, ◌<◌};
ghost use Rattle.text.specs.Faults.{fault_number, fault_place, along};

// Line and column, both from 1; columns count bytes.
#[derive(Clone, Copy, Debug, PartialEq, Eq)]
pub struct Place {
    pub line: u32,
    pub column: u32,
}

impl Place {
    // The place so many columns further on in its line.
    pub(crate) fn after(self, columns: usize) -> Place
        requires { self.column + columns < 2 ^ 32 }
        ensures { result ≡ along self columns }
    {
        Place {
            line: self.line,
            // Stays: the check proves that it fits.
            column: self.column + columns as u32,
        }
    }
}

#[derive(Clone, Copy, Debug, PartialEq, Eq)]
pub enum Fault {
    // The script is longer than 65,536 bytes.
    TooLong,
    // The byte at this place is outside the alphabet.
    Outside(Place),
    // The number that begins here has a zero in front, or is above 4,294,967,295.
    Number(Place),
    // The closing bracket here closes nothing, or the line ends here with a bracket open.
    Bracket(Place),
}

impl Fault {
    pub fn number(&self) -> u8
        ensures { result ≡ fault_number self.now }
    {
        match self {
            Fault::TooLong => 11,
            Fault::Outside(_) => 12,
            Fault::Number(_) => 13,
            Fault::Bracket(_) => 14,
        }
    }

    // Line 0 and column 0 where the fault is the whole script's.
    pub fn place(&self) -> Place
        ensures { result ≡ fault_place self.now }
    {
        match self {
            Fault::TooLong => Place { line: 0, column: 0 },
            Fault::Outside(place) | Fault::Number(place) | Fault::Bracket(place) => *place,
        }
    }
}
