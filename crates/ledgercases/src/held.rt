// Readings as a case writes them: numbers as they are held, beyond a dial's ends too.
use kinds::{Dials, Kind, Toggles, Wh};
use std::fmt;

// The numbers of a slot, as a line has them.
#[derive(Clone, Copy)]
pub struct Numbers {
    pub first: u32,
    pub second: Option<u32>,
}

impl Numbers {
    // The only number, where there is no second.
    fn only(self) -> Option<u32> {
        self.second.is_none().then_some(self.first)
    }
}

impl fmt::Display for Numbers {
    fn fmt<W: fmt::Write>(&self, f: &mut fmt::Formatter<W>) -> fmt::Result {
        match self.second {
            None => write!(f, "{}", self.first),
            Some(second) => write!(f, "{} {second}", self.first),
        }
    }
}

pub trait Held: Kind + fmt::Display {
    // The reading that holds these numbers, where it has as many and they fit.
    fn held(numbers: Numbers) -> Option<Self>;
}

impl Held for Wh {
    fn held(numbers: Numbers) -> Option<Wh> {
        let amount = numbers.only()?;
        Some(Wh { amount })
    }
}

impl Held for Toggles {
    fn held(numbers: Numbers) -> Option<Toggles> {
        let mask = u16::try_from(numbers.only()?).ok()?;
        Some(Toggles { mask })
    }
}

impl Held for Dials {
    fn held(numbers: Numbers) -> Option<Dials> {
        let litres = u16::try_from(numbers.first).ok()?;
        let starts = u16::try_from(numbers.second?).ok()?;
        Some(Dials { litres, starts })
    }
}
