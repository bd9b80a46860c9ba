// One printed line: made in the line buffer, and put into the sink.
ghost use Rattle.std.specs.Prelude.{◌≡◌, ℕ, ◌≤◌, ◌↔◌, List, length, ⊤, IfOk, IsOk};
ghost use Rattle.ledger.specs.State.{valued_answer};
ghost use Rattle.lines.specs.Text.{Wrote};
ghost use Rattle.lines.specs.Fits.{Whole, ModestAnswer};
ghost use Rattle.lines.specs.Lines.{answer_line, tally_line, closed_line, fault_line};

use crate::sink::Sink;
use kinds::NamedKind;
use ledger::{Answer, Counts};
use lines::{ScriptFault, Short, answer_line, closed_line, fault_line, has_room, tally_line};
use links::Step;
use ranges::Range;

// What is printed as one line; the line buffer holds it where it is modest.
pub(crate) trait Line {
    ghost text: { Self → List ℕ };

    ghost modest: { Self → Type 0 };

    fn write(&self, out: &mut [u8]) -> Option<usize>
        ensures text { Wrote (text self.now) out.old out.new result }
        ensures whole { modest self.now → Whole (text self.now) out.old result };
}

// The buffer that lines are made in, and where they go.
#[derive(Drop)]
pub(crate) struct Printer<'a, S> {
    line: &'a mut [u8],
    sink: &'a mut S,
    ghost room: { 16384 ≤ length line.now },
}

impl<'a, S: Sink> Printer<'a, S> {
    // The buffer must have room for every line.
    pub(crate) fn new(line: &'a mut [u8], sink: &'a mut S) -> Result<Printer<'a, S>, Short>
        ensures room { IsOk result ↔ (16384 ≤ length line.old) }
        ensures sink { IfOk result (λ p. p.sink.now ≡ sink.old) }
        ensures named { IfOk result (λ p. p.sink.ghost_name ≡ sink.entry.ghost_name) }
    {
        has_room(line)?;
        Ok(Printer { line, sink })
    }

    pub(crate) fn print<L: Line>(&mut self, told: &L)
        requires { L.Line.modest told.now }
        ensures put { S.Sink.puts self.old.sink.now (L.Line.text told.now) self.new.sink.now }
        ensures stays { self.new.sink.ghost_name ≡ self.old.sink.ghost_name }
    {
        if let Some(n) = told.write(self.line) {
            self.sink.put(&self.line[..n]);
        }
    }
}

// What a ledger answered to a query, with the table that has the chain of a withheld one in its first steps.
#[derive(Clone, Copy)]
pub(crate) struct AnswerLine<'a, K> {
    pub(crate) range: Range<u32>,
    pub(crate) answer: &'a Answer<K>,
    pub(crate) table: &'a [Step],
}

impl<K: NamedKind> Line for AnswerLine<'_, K> {
    ghost text = { λ it. answer_line K.NamedKind.NAME K.Kind.numbers it.range.low it.range.high (valued_answer K.Kind.meaning it.answer.now) it.table.now };

    ghost modest = { λ it. ModestAnswer it.answer.now it.table.now };

    fn write(&self, out: &mut [u8]) -> Option<usize> {
        answer_line(out, self.range, self.answer, self.table)
    }
}

// Stays: the counts so far and those at the close are two lines.
// The counts so far.
#[derive(Clone, Copy)]
pub(crate) struct Tally(pub(crate) Counts);

impl Line for Tally {
    ghost text = { λ it. tally_line it.0 };

    ghost modest = { λ it. ⊤ };

    fn write(&self, out: &mut [u8]) -> Option<usize> {
        tally_line(out, self.0)
    }
}

// The counts at the close.
#[derive(Clone, Copy)]
pub(crate) struct Closed(pub(crate) Counts);

impl Line for Closed {
    ghost text = { λ it. closed_line it.0 };

    ghost modest = { λ it. ⊤ };

    fn write(&self, out: &mut [u8]) -> Option<usize> {
        closed_line(out, self.0)
    }
}

impl Line for ScriptFault {
    ghost text = { λ it. fault_line it.line it.column it.layer it.number };

    ghost modest = { λ it. ⊤ };

    fn write(&self, out: &mut [u8]) -> Option<usize> {
        fault_line(out, *self)
    }
}
