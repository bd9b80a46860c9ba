// The sum of a range of slots, read upwards from any store.
ghost use Rattle.std.specs.Prelude.{◌≡◌, Some};
ghost use Rattle.stores.specs.Log.{meant};
ghost use Rattle.stores.specs.Sums.{Answers, valued_sum, fault_number};
ghost use Rattle.stores.specs.Texts.{range_fault_text, sum_fault_text};

use crate::store::Store;
use kinds::Kind;
use ranges::Range;
use std::error::Error;
use std::fmt;

// Why a range is turned back: its end lies beyond the log's, or it has no slot.
#[derive(Clone, Copy, Debug, PartialEq, Eq)]
pub enum RangeFault {
    BeyondEnd,
    Empty,
}

impl RangeFault {
    pub fn number(self) -> u8
        ensures { result ≡ fault_number self }
    {
        match self {
            RangeFault::BeyondEnd => 5,
            RangeFault::Empty => 6,
        }
    }
}

impl fmt::Display for RangeFault {
    ghost output = { λ fault. Some (range_fault_text fault) };

    fn fmt<W: fmt::Write>(&self, f: &mut fmt::Formatter<W>) -> fmt::Result {
        f.write_str(match self {
            RangeFault::BeyondEnd => "ends beyond the last slot",
            RangeFault::Empty => "has no slot",
        })
    }
}

impl Error for RangeFault {}

// Why a range has no sum: its first lost slot, or that it is turned back.
#[derive(Clone, Copy, Debug, PartialEq, Eq)]
pub enum SumFault {
    Lost(usize),
    Refused(RangeFault),
}

impl fmt::Display for SumFault {
    ghost output = { λ fault. Some (sum_fault_text fault) };

    fn fmt<W: fmt::Write>(&self, f: &mut fmt::Formatter<W>) -> fmt::Result {
        match self {
            SumFault::Lost(slot) => write!(f, "lost slot {slot}"),
            SumFault::Refused(fault) => write!(f, "refused {}: {fault}", fault.number()),
        }
    }
}

impl Error for SumFault {}

// The sum of the slots of a range, read upwards.
pub fn sum<K: Kind, S: Store<K>>(store: &S, range: Range<usize>) -> Result<K, SumFault>
    ensures { Answers K.Kind.group (meant K.Kind.meaning (S.Store.log store.now)) range.low range.high (valued_sum K.Kind.meaning result) }
{
    if range.high > store.slots() {
        return Err(SumFault::Refused(RangeFault::BeyondEnd));
    }
    if range.low >= range.high {
        return Err(SumFault::Refused(RangeFault::Empty));
    }
    let mut sum = K::zero();
    // Stays: a slot's number is what a store is read by, so the loop goes over the numbers.
    for slot in range.low..range.high {
        sum = sum.plus(store.read(slot).kept(slot)?);
    }
    Ok(sum)
}
