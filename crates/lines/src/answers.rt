// The line of a query's answer.
ghost use Rattle.std.specs.Prelude.{◌≡◌, [], ◌∷◌, take, codes};
ghost use Rattle.ledger.specs.State.{valued_answer};
ghost use Rattle.lines.specs.Text.{Wrote, form_text};
ghost use Rattle.lines.specs.Lines.{withheld_line, answer_line};
ghost use Rattle.lines.specs.Fits.{Whole, ModestAnswer};

use crate::pairs::Pair;
use crate::piece::{Each, Piece, Text};
use crate::sums::sum_line;
use kinds::{Kind, KindName, NamedKind};
use ledger::Answer;
use links::Step;
use ranges::Range;

fn withheld_line(
    out: &mut [u8],
    range: Range<u32>,
    pair: Range<u16>,
    chain: &[Step],
) -> Option<usize>
    ensures { Wrote (withheld_line range.low range.high pair chain.now) out.old out.new result }
{
    let opening = Pair {
        opening: b"(withheld",
        range,
        pair,
        closing: b") (chain",
    };
    opening.then(Each(chain)).then(Text(b"))\n")).put(out)
}

// The first steps of a table: all of it, where it has fewer.
fn first(table: &[Step], count: usize) -> &[Step]
    ensures { result.now ≡ take count table.now }
{
    table.get(..count).unwrap_or(table)
}

// A word, the range asked for and a number.
fn numbered_line(out: &mut [u8], opening: &[u8], range: Range<u32>, number: u64) -> Option<usize>
    ensures { Wrote (form_text opening.now (range.low ∷ range.high ∷ number ∷ []) (codes ")\n")) out.old out.new result }
{
    let numbers = [u64::from(range.low), u64::from(range.high), number];
    Text(opening)
        .then(Each(&numbers))
        .then(Text(b")\n"))
        .put(out)
}

// Writes, under any kind's word, the line of what a ledger answered to a query of the range; `table` has the chain of a withheld one in its first steps.
pub fn named_answer_line<K: Kind>(
    out: &mut [u8],
    kind: KindName,
    range: Range<u32>,
    answer: &Answer<K>,
    table: &[Step],
) -> Option<usize>
    ensures text { Wrote (answer_line kind K.Kind.numbers range.low range.high (valued_answer K.Kind.meaning answer.now) table.now) out.old out.new result }
    ensures whole { ModestAnswer answer.now table.now → Whole (answer_line kind K.Kind.numbers range.low range.high (valued_answer K.Kind.meaning answer.now) table.now) out.old result }
{
    match answer {
        Answer::Released(value) => sum_line(out, kind, range, *value),
        Answer::Withheld(pair, count) => withheld_line(out, range, *pair, first(table, *count)),
        // Stays: `u64` has no `From<usize>`.
        Answer::LostSlot(slot) => numbered_line(out, b"(lost", range, *slot as u64),
        Answer::Refused(fault) => numbered_line(out, b"(refused", range, u64::from(fault.number())),
    }
}

// The same line under the kind's own word.
pub fn answer_line<K: NamedKind>(
    out: &mut [u8],
    range: Range<u32>,
    answer: &Answer<K>,
    table: &[Step],
) -> Option<usize>
    ensures text { Wrote (answer_line K.NamedKind.NAME K.Kind.numbers range.low range.high (valued_answer K.Kind.meaning answer.now) table.now) out.old out.new result }
    ensures whole { ModestAnswer answer.now table.now → Whole (answer_line K.NamedKind.NAME K.Kind.numbers range.low range.high (valued_answer K.Kind.meaning answer.now) table.now) out.old result }
{
    named_answer_line(out, K::NAME, range, answer, table)
}
