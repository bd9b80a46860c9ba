// The interface of a store. Its meaning is a log: a number of slots, and for each a reading and a mark.
ghost use Rattle.std.specs.Prelude.{◌≡◌};
ghost use Rattle.stores.specs.Log.{Log, mark_of, told, answer, valued, meant};
ghost use Rattle.stores.specs.Packing.{slot_of};
ghost use Rattle.stores.specs.Sums.{kept_at};
ghost use Rattle.stores.specs.Texts.{reading_text};

use crate::sums::{RangeFault, SumFault};
use kinds::Kind;
use std::fmt;

#[derive(Clone, Copy, Debug, PartialEq, Eq)]
pub enum Mark {
    Kept,
    Lost,
}

// Mark byte 1 means kept, every other lost.
impl From<u8> for Mark {
    ghost from_gives = { λ byte mark. mark ≡ mark_of byte };

    fn from(byte: u8) -> Mark {
        if byte == 1 { Mark::Kept } else { Mark::Lost }
    }
}

// What reading a slot answers: a kept slot's reading, that it is lost, or that the store has no such slot.
#[derive(Clone, Copy, Debug, PartialEq, Eq)]
pub enum Reading<K> {
    Value(K),
    Missing,
    Outside,
}

impl<K: Copy> Reading<K> {
    // What a slot with this mark and value answers.
    pub(crate) fn told(mark: Mark, value: K) -> Reading<K>
        ensures { result ≡ told mark value }
    {
        match mark {
            Mark::Kept => Reading::Value(value),
            Mark::Lost => Reading::Missing,
        }
    }

    // What a slot is packed as when it is packed as it was read.
    pub(crate) fn as_read(self) -> Option<K>
        ensures { result ≡ slot_of self }
    {
        match self {
            Reading::Value(value) => Some(value),
            Reading::Missing | Reading::Outside => None,
        }
    }

    // The reading of a slot that is kept, else why a sum over it is none.
    pub(crate) fn kept(self, slot: usize) -> Result<K, SumFault>
        ensures { result ≡ kept_at slot self }
    {
        match self {
            Reading::Value(value) => Ok(value),
            Reading::Missing => Err(SumFault::Lost(slot)),
            Reading::Outside => Err(SumFault::Refused(RangeFault::BeyondEnd)),
        }
    }
}

impl<K: fmt::Display> fmt::Display for Reading<K> {
    ghost output = { reading_text K.output };

    fn fmt<W: fmt::Write>(&self, f: &mut fmt::Formatter<W>) -> fmt::Result {
        match self {
            Reading::Value(value) => write!(f, "{value}"),
            Reading::Missing => f.write_str("lost"),
            Reading::Outside => f.write_str("outside"),
        }
    }
}

pub trait Store<K: Kind> {
    ghost log: { Self → Log K };

    fn slots(&self) -> usize
        ensures { result ≡ (log self.now).slots };

    fn read(&self, slot: usize) -> Reading<K>
        ensures { valued K.Kind.meaning result ≡ answer (meant K.Kind.meaning (log self.now)) slot };
}
