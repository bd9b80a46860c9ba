// A script as a text of lines.
ghost use Rattle.std.specs.Prelude.{◌≡◌};
ghost use Rattle.text.specs.Lines.{FirstLine};
ghost use Rattle.text.specs.Script.{size_judged};

use crate::fault::Fault;

// The longest script that is read.
pub const LONGEST: usize = 65_536;

// Whether a script is short enough to be read: it is asked before a reader is made.
pub fn sized(script: &[u8]) -> Result<(), Fault>
    ensures { result ≡ size_judged script.now }
{
    if script.len() > LONGEST {
        Err(Fault::TooLong)
    } else {
        Ok(())
    }
}

// The first line of a text, and the text that follows it.
pub fn first_line(text: &[u8]) -> (&[u8], &[u8])
    ensures { FirstLine text.now result.0.now result.1.now }
{
    match text.iter().position(|byte| *byte == b'\n') {
        Some(n) => (&text[..n], &text[n + 1..]),
        None => (text, &text[..0]),
    }
}
