// The lines that say what the flash bytes of a trace hold.
use crate::compare::difference;
use crate::request::Stretch;
use kinds::{Kind, NamedKind};
use ranges::Range;
use std::alloc::{AllocError, Global};
use std::fmt;
use stores::{Packed, Plain, Reading, Store, SumFault, Window, list, repack, sum, width};

fn sum_text<K: Kind + fmt::Display>(
    heap: Global,
    sum: Result<K, SumFault>,
) -> Result<String, AllocError> {
    match sum {
        Ok(value) => format!(in heap; "sum {value}"),
        Err(fault) => format!(in heap; "{fault}"),
    }
}

fn difference_text(
    heap: Global,
    slots: usize,
    difference: Option<usize>,
) -> Result<String, AllocError> {
    match difference {
        None => format!(in heap; "{slots} slots, each as packed"),
        Some(slot) => format!(in heap; "{slots} slots, slot {slot} not as packed"),
    }
}

// One line for each slot.
fn slot_lines<K: Kind + fmt::Display>(
    heap: Global,
    packed: Packed<'_, K>,
    out: &mut Vec<String>,
) -> Result<(), AllocError> {
    for slot in 0..packed.slots() {
        let reading = packed.read(slot);
        out.push(format!(in heap; "slot {slot}: {reading}")?)?;
    }
    Ok(())
}

// Stays: the packed bytes and the list are two stores to be compared, and `text` is one of many.
// What a stretch adds up to in the packed bytes, in the list, and through a window over just its slots.
fn stretch_lines<K: Kind + fmt::Display>(
    heap: Global,
    packed: Packed<'_, K>,
    plain: Plain<'_, K>,
    text: &str,
    out: &mut Vec<String>,
) -> Result<(), AllocError> {
    let Stretch(slots) = match text.parse::<Stretch>() {
        Ok(stretch) => stretch,
        Err(fault) => {
            out.push(format!(in heap; "stretch {text}: refused: {fault}")?)?;
            return Ok(());
        }
    };
    let total = sum_text(heap, sum(&packed, slots))?;
    out.push(format!(in heap; "stretch {}..{}: {total}", slots.low, slots.high)?)?;
    let total = sum_text(heap, sum(&plain, slots))?;
    out.push(format!(in heap; "  as a list: {total}")?)?;
    let length = slots.high.saturating_sub(slots.low);
    let window = Window::new(packed, slots.low, length);
    let total = sum_text(
        heap,
        sum(
            &window,
            Range {
                low: 0,
                high: length,
            },
        ),
    )?;
    out.push(format!(in heap; "  through a window: {total}")?)?;
    Ok(())
}

// Records of one sort: how many there are, and how many of them are as they should be.
#[derive(Clone, Copy, Debug, Default)]
struct Tally {
    all: usize,
    right: usize,
}

impl Tally {
    fn count(&mut self, right: bool) {
        self.all = self.all.saturating_add(1);
        self.right = self.right.saturating_add(usize::from(right));
    }
}

impl fmt::Display for Tally {
    fn fmt<W: fmt::Write>(&self, f: &mut fmt::Formatter<W>) -> fmt::Result {
        write!(f, "{} of {}", self.right, self.all)
    }
}

// What packing each slot again as it was read gives: kept records with the same bytes, lost ones as zeros.
fn repacked_line<K: Kind>(
    heap: Global,
    packed: Packed<'_, K>,
    bytes: &[u8],
) -> Result<String, AllocError> {
    // every byte begins other than it should end
    let mut again = vec![in heap; 0xffu8; bytes.len()]?;
    let _ = repack::<K>(bytes, &mut again);
    let mut kept = Tally::default();
    let mut lost = Tally::default();
    let records = bytes
        .chunks_exact(width::<K>())
        .zip(again.chunks_exact(width::<K>()));
    for (slot, (before, after)) in records.enumerate() {
        match packed.read(slot) {
            Reading::Value(_) => kept.count(before == after),
            Reading::Missing | Reading::Outside => lost.count(after.iter().all(|byte| *byte == 0)),
        }
    }
    format!(in heap; "packed again: {kept} kept records the same, {lost} lost records zeros")
}

// All lines of a trace: its size, its slots, the same slots as a list and through a window, the stretches, and packing again.
pub fn lines<K: NamedKind + fmt::Display>(
    heap: Global,
    bytes: &[u8],
    stretches: &[String],
) -> Result<Vec<String>, AllocError> {
    let mut out = Vec::new(heap);
    let packed: Packed<K> = Packed::new(bytes);
    let slots = packed.slots();
    let len = bytes.len();
    let left = len % width::<K>();
    let kind = K::NAME;
    out.push(format!(in heap;
        "trace {kind}: {len} bytes, {slots} slots, {left} bytes left over"
    )?)?;
    slot_lines(heap, packed, &mut out)?;
    let lists = list(heap, &packed)?;
    let plain = lists.plain();
    let text = difference_text(heap, plain.slots(), difference(&packed, 0, &plain))?;
    out.push(format!(in heap; "as a list: {text}")?)?;
    let start = slots / 4;
    let window = Window::new(packed, start, slots / 2);
    let text = difference_text(heap, window.slots(), difference(&packed, start, &window))?;
    out.push(format!(in heap; "through a window from slot {start}: {text}")?)?;
    for stretch in stretches {
        stretch_lines(heap, packed, plain, stretch.as_str(), &mut out)?;
    }
    out.push(repacked_line(heap, packed, bytes)?)?;
    Ok(out)
}
