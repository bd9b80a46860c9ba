// The lines of the cases: one order on a line, its parts separated by blanks, every number in base ten.
use crate::held::Numbers;
use crate::numbers::{count, exactly};
use kinds::{KindName, UnknownKind};
use ranges::Range;
use std::alloc::{AllocError, AllocFailed, Global};
use std::fmt;
use std::num::{ParseIntError, TryFromIntError};

// One slot to be added: its mark byte, and the numbers of its reading.
#[derive(Clone, Copy)]
pub struct Slot {
    pub mark: u8,
    pub numbers: Numbers,
}

impl fmt::Display for Slot {
    fn fmt<W: fmt::Write>(&self, f: &mut fmt::Formatter<W>) -> fmt::Result {
        write!(f, "slot {} {}", self.mark, self.numbers)
    }
}

// A range to be asked for, as often as the count says, at least once; the last answer is told.
#[derive(Clone, Copy)]
pub struct Query {
    pub count: u32,
    pub range: Range<u32>,
}

// What a line asks for within its case.
#[derive(Drop)]
pub enum Order {
    // `kind WORD`: the kind of reading.
    Kind(KindName),
    // `distances COUNT`: how many distances the ledger is opened on.
    Distances(u16),
    // `steps COUNT`: how many chain steps each query is lent from here on.
    Steps(u16),
    // `short K`: the agreed length of the rule from here on.
    Short(u32),
    // `span LOW HIGH`: one more listed span of the rule.
    Listed(Range<u32>),
    // `slot MARK NUMBER..`: one more slot, with one number or two.
    Slot(Slot),
    // `packed BYTE..`: one more slot for each whole packed record.
    Packed(Vec<u8>),
    // `window START LENGTH`: the store becomes this window of itself.
    Window { start: u32, length: u32 },
    // `query LOW HIGH`, or `repeat COUNT LOW HIGH`.
    Query(Query),
    // What can't be read.
    Unread(String),
}

#[derive(Drop)]
pub enum Line {
    Blank,
    // `case`: begins afresh.
    Case,
    // `close`: the ledger is closed.
    Close,
    Asked(Order),
}

// Why no order is made of a line.
#[derive(Drop)]
enum Unmade {
    Unread,
    OutOfMemory(AllocError),
}

impl From<AllocError> for Unmade {
    fn from(fault: AllocError) -> Unmade {
        Unmade::OutOfMemory(fault)
    }
}

impl<T: Drop> From<AllocFailed<T>> for Unmade {
    fn from(fault: AllocFailed<T>) -> Unmade {
        Unmade::OutOfMemory(AllocError::from(fault))
    }
}

impl From<ParseIntError> for Unmade {
    fn from(_fault: ParseIntError) -> Unmade {
        Unmade::Unread
    }
}

impl From<TryFromIntError> for Unmade {
    fn from(_fault: TryFromIntError) -> Unmade {
        Unmade::Unread
    }
}

impl From<UnknownKind> for Unmade {
    fn from(_fault: UnknownKind) -> Unmade {
        Unmade::Unread
    }
}

fn slot_order(numbers: &[u32]) -> Option<Order> {
    let (mark, first, second) = match numbers {
        [mark, first] => (*mark, *first, None),
        [mark, first, second] => (*mark, *first, Some(*second)),
        _ => return None,
    };
    let mark = u8::try_from(mark).ok()?;
    let numbers = Numbers { first, second };
    Some(Order::Slot(Slot { mark, numbers }))
}

fn repeated(numbers: &[u32]) -> Option<Order> {
    match numbers {
        [0, _, _] => None,
        [count, low, high] => Some(Order::Query(Query {
            count: *count,
            range: Range {
                low: *low,
                high: *high,
            },
        })),
        _ => None,
    }
}

// An order whose parts are a fixed count of numbers.
fn counted(word: &str, numbers: &[u32]) -> Option<Order> {
    match word {
        "distances" => Some(Order::Distances(count(numbers)?)),
        "steps" => Some(Order::Steps(count(numbers)?)),
        "short" => {
            let [agreed] = exactly::<1>(numbers)?;
            Some(Order::Short(agreed))
        }
        "span" => {
            let [low, high] = exactly::<2>(numbers)?;
            Some(Order::Listed(Range { low, high }))
        }
        "slot" => slot_order(numbers),
        "window" => {
            let [start, length] = exactly::<2>(numbers)?;
            Some(Order::Window { start, length })
        }
        "query" => {
            let [low, high] = exactly::<2>(numbers)?;
            Some(Order::Query(Query {
                count: 1,
                range: Range { low, high },
            }))
        }
        "repeat" => repeated(numbers),
        _ => None,
    }
}

// The numbers of a line after its first word.
fn numbers_of(heap: Global, line: &str) -> Result<Vec<u32>, Unmade> {
    let mut numbers = Vec::new(heap);
    for part in line.split_whitespace().skip(1) {
        numbers.push(part.parse()?)?;
    }
    Ok(numbers)
}

// The packed bytes of a line.
fn packed(heap: Global, numbers: &[u32]) -> Result<Order, Unmade> {
    let mut bytes = Vec::new(heap);
    for number in numbers {
        bytes.push(u8::try_from(*number)?)?;
    }
    Ok(Order::Packed(bytes))
}

// The second word of a line, where it has just two.
fn second(line: &str) -> Option<&str> {
    let mut words = line.split_whitespace().skip(1);
    let word = words.next()?;
    words.next().is_none().then_some(word)
}

// The order of a line that begins with this word.
fn begun(heap: Global, word: &str, line: &str) -> Result<Order, Unmade> {
    if word == "kind" {
        let name = second(line).ok_or(Unmade::Unread)?;
        return Ok(Order::Kind(name.parse()?));
    }
    let numbers = numbers_of(heap, line)?;
    if word == "packed" {
        return packed(heap, &numbers);
    }
    counted(word, &numbers).ok_or(Unmade::Unread)
}

pub fn read(heap: Global, line: &str) -> Result<Line, AllocError> {
    let Some(word) = line.split_whitespace().next() else {
        return Ok(Line::Blank);
    };
    match line.trim() {
        "case" => return Ok(Line::Case),
        "close" => return Ok(Line::Close),
        _ => {}
    }
    match begun(heap, word, line) {
        Ok(order) => Ok(Line::Asked(order)),
        Err(Unmade::Unread) => Ok(Line::Asked(Order::Unread(String::from_str(heap, line)?))),
        Err(Unmade::OutOfMemory(fault)) => Err(fault),
    }
}
