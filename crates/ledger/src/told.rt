// What is told of an answer besides a released sum: a row of numbers.
ghost use Rattle.std.specs.Prelude.{◌≡◌, take};
ghost use Rattle.ledger.specs.Answers.{told};

use crate::answer::Answer;

// Stays: a row of fixed room that is copied as it is, which no list of the libraries is.
// The first `count` of the numbers are told.
#[derive(Clone, Copy, Debug, PartialEq, Eq)]
pub struct Told {
    pub numbers: [usize; 4],
    pub count: usize,
}

impl<V> Answer<V> {
    // The number of the answer and the values that go with it: pair and chain length, or slot. None are told of a release.
    pub fn told(&self) -> Told
        ensures { take result.count result.numbers ≡ told self.now }
    {
        let (numbers, count) = match self {
            Answer::Released(_) => ([0; 4], 0),
            Answer::Withheld(pair, steps) => (
                [7, usize::from(pair.low), usize::from(pair.high), *steps],
                4,
            ),
            Answer::LostSlot(slot) => ([8, *slot, 0, 0], 2),
            Answer::Refused(fault) => ([usize::from(fault.number()), 0, 0, 0], 1),
        };
        Told { numbers, count }
    }
}
