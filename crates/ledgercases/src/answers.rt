// The lines that the cases are answered by.
use ledger::{Answer, Counts};
use links::{Origin, Sign, Step};
use std::fmt;

// The four counts in their order.
#[derive(Clone, Copy)]
struct CountsText(Counts);

impl fmt::Display for CountsText {
    fn fmt<W: fmt::Write>(&self, f: &mut fmt::Formatter<W>) -> fmt::Result {
        let counts = self.0;
        write!(
            f,
            "{} {} {} {}",
            counts.released, counts.withheld, counts.lost, counts.malformed
        )
    }
}

#[derive(Clone, Copy)]
struct StepText(Step);

impl fmt::Display for StepText {
    fn fmt<W: fmt::Write>(&self, f: &mut fmt::Formatter<W>) -> fmt::Result {
        let step = self.0;
        let sign = match step.sign {
            Sign::Plus => "+",
            Sign::Minus => "-",
        };
        let origin = match step.origin {
            Origin::Released => "old",
            Origin::New => "new",
        };
        write!(f, "{sign} {} {} {origin}", step.low, step.high)
    }
}

// What a query is answered: what came out, a refusal's chain from the table, and the counts after it.
#[derive(Drop)]
pub struct Answered<'a, K> {
    pub answer: Answer<K>,
    pub steps: &'a [Step],
    pub counts: Counts,
}

impl<K: fmt::Display> fmt::Display for Answered<'_, K> {
    fn fmt<W: fmt::Write>(&self, f: &mut fmt::Formatter<W>) -> fmt::Result {
        match &self.answer {
            Answer::Released(value) => write!(f, "sum {value}")?,
            Answer::Withheld(pair, length) => {
                write!(f, "withheld {} {} chain", pair.low, pair.high)?;
                for step in self.steps.iter().take(*length) {
                    write!(f, " {}", StepText(*step))?;
                }
            }
            Answer::LostSlot(slot) => write!(f, "lost {slot}")?,
            Answer::Refused(fault) => write!(f, "refused {}", fault.number())?,
        }
        write!(f, " counts {}", CountsText(self.counts))
    }
}

// What can't be read.
#[derive(Drop)]
pub struct Unread<'a, D>(pub &'a D);

impl<D: fmt::Display> fmt::Display for Unread<'_, D> {
    fn fmt<W: fmt::Write>(&self, f: &mut fmt::Formatter<W>) -> fmt::Result {
        write!(f, "unread: {}", self.0)
    }
}

// The counts when a ledger is closed.
#[derive(Clone, Copy)]
pub struct Closed(pub Counts);

impl fmt::Display for Closed {
    fn fmt<W: fmt::Write>(&self, f: &mut fmt::Formatter<W>) -> fmt::Result {
        write!(f, "closed {}", CountsText(self.0))
    }
}
