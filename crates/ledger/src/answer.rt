// What a ledger answers: to a query, to a try of a rehearsal, and in counts.
ghost use Rattle.std.specs.Prelude.{◌≡◌, ◌<◌, slice_index, ◌≢◌};
ghost use Rattle.ledger.specs.Answers.{number, told, told_trial, counted, count};

use ranges::Range;

// Why a query is turned back, in the order in which it is tried.
#[derive(Clone, Copy, Debug, PartialEq, Eq)]
pub enum Fault {
    // The four counts sum to their limit.
    Full,
    // The log has more slots than there are boundaries for.
    LongLog,
    // The table of distances has too few entries.
    FewDistances,
    // The table for the chain has too few steps.
    FewSteps,
    // The range ends beyond the log.
    Beyond,
    // The range does not begin before its end.
    Backward,
}

impl Fault {
    // Stays: refusals are told by number, here and in the crates above and below.
    pub fn number(self) -> u8
        ensures { result ≡ number self }
    {
        match self {
            Fault::Full => 1,
            Fault::LongLog => 2,
            Fault::FewDistances => 3,
            Fault::FewSteps => 4,
            Fault::Beyond => 5,
            Fault::Backward => 6,
        }
    }
}

// A query's answer: the sum, the pair that it would give away with the length of its chain, the lowest lost slot, or a fault.
#[derive(Clone, Copy, Debug, PartialEq, Eq)]
pub enum Answer<V> {
    Released(V),
    Withheld(Range<u16>, usize),
    LostSlot(usize),
    Refused(Fault),
}

impl<V> Answer<V> {
    // The number that stands first in what is told of the answer, and 0 for a release.
    pub fn number(&self) -> u8
        ensures { result ≡ slice_index (told self.now) 0 }
    {
        match self {
            Answer::Released(_) => 0,
            Answer::Withheld(_, _) => 7,
            Answer::LostSlot(_) => 8,
            Answer::Refused(fault) => fault.number(),
        }
    }
}

// A try's answer.
#[derive(Clone, Copy, Debug, PartialEq, Eq)]
pub enum Trial {
    Free,
    Withheld(Range<u16>),
    Refused(Fault),
}

impl Trial {
    // The number that stands first in what is told of the try, and 0 where it is free.
    pub fn number(&self) -> u8
        ensures { result ≡ slice_index (told_trial self.now) 0 }
    {
        match self {
            Trial::Free => 0,
            Trial::Withheld(_) => 7,
            Trial::Refused(fault) => fault.number(),
        }
    }
}

// How many queries were released, withheld, lost and malformed.
#[derive(Clone, Copy, Debug, Default, PartialEq, Eq)]
pub struct Counts {
    pub released: u16,
    pub withheld: u16,
    pub lost: u16,
    pub malformed: u16,
}

impl Counts {
    // One more of what the answer is.
    pub(crate) fn add<K>(self, answer: &Answer<K>) -> Counts
        requires { counted self < 65535 }
        ensures { (answer.now ≢ Answer.Refused Fault.Full) → result ≡ count answer.now self }
    {
        let mut counts = self;
        match answer {
            Answer::Released(_) => counts.released += 1,
            Answer::Withheld(_, _) => counts.withheld += 1,
            Answer::LostSlot(_) => counts.lost += 1,
            Answer::Refused(_) => counts.malformed += 1,
        }
        counts
    }

    // How many queries were counted.
    pub fn total(self) -> u32
        ensures { result ≡ counted self }
    {
        u32::from(self.released)
            + u32::from(self.withheld)
            + u32::from(self.lost)
            + u32::from(self.malformed)
    }
}
