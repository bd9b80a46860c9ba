// The line of a script's fault.
ghost use Rattle.lines.specs.Text.{Wrote};
ghost use Rattle.lines.specs.Lines.{fault_line};
ghost use Rattle.lines.specs.Fits.{Whole};

use crate::piece::{Each, Piece, Text};
use crate::words::Layer;

// Where a fault of a script was found, by which layer of its reader, and its number.
#[derive(Clone, Copy, Debug, PartialEq, Eq)]
pub struct ScriptFault {
    pub line: usize,
    pub column: usize,
    pub layer: Layer,
    // Stays: as wide as the number that was told before the layers had enums of their faults.
    pub number: u8,
}

// Writes the line of a fault by its place, the layer that found it, and its number.
pub fn fault_line(out: &mut [u8], fault: ScriptFault) -> Option<usize>
    ensures text { Wrote (fault_line fault.line fault.column fault.layer fault.number) out.old out.new result }
    ensures whole { Whole (fault_line fault.line fault.column fault.layer fault.number) out.old result }
{
    // Stays: `u64` has no `From<usize>`.
    let place = [fault.line as u64, fault.column as u64];
    Text(b"(fault")
        .then(Each(&place))
        .then(Text(b" "))
        .then(fault.layer)
        .then(Each(&[u64::from(fault.number)]))
        .then(Text(b")\n"))
        .put(out)
}
