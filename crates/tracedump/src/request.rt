// What the program is asked: a kind of reading, and stretches of slots.
ghost use Rattle.std.specs.Prelude.{◌≡◌, if◌then◌else◌, Ok, Err, string_bytes, nat_eq, nat_le};
ghost use Rattle.std.specs.Option.{option_map};
ghost use Rattle.tracedump.specs.Names.{Asked};
ghost use Rattle.tracedump.specs.declared.request.Refusal.TheVariants.{NoInput, TooLong};

use kinds::KindName;
use ranges::Range;
use std::str::FromStr;
use thiserror::Error;

// A trace has at most 1 MiB: just under six years of quarter hours at five bytes a slot.
pub const MOST: usize = 1_048_576;

// The slots that a word LOW..HIGH names.
#[derive(Clone, Copy, Debug, PartialEq, Eq)]
pub struct Stretch(pub Range<usize>);

// A word that is no stretch.
#[derive(Clone, Copy, Debug, PartialEq, Eq, Error)]
#[error("not of the form LOW..HIGH")]
pub struct NoStretch;

impl FromStr for Stretch {
    type Err = NoStretch;

    fn from_str(text: &str) -> Result<Stretch, NoStretch> {
        let (low, high) = text.split_once("..").ok_or(NoStretch)?;
        Ok(Stretch(Range {
            low: low.parse().map_err(|_| NoStretch)?,
            high: high.parse().map_err(|_| NoStretch)?,
        }))
    }
}

// Why the program does not look at its input.
#[derive(Clone, Copy, Debug, PartialEq, Eq, Error)]
pub enum Refusal {
    #[error("no kind: write tracedump KIND [LOW..HIGH ..], KIND being wh, toggles or dials")]
    NoKind,
    #[error("unknown kind: write wh, toggles or dials")]
    UnknownKind,
    #[error("no input: the flash bytes of a trace come on standard input")]
    NoInput,
    #[error("too long: a trace has at most {MOST} bytes")]
    TooLong,
}

// The kind that is asked for.
pub fn kind_asked(word: Option<&String>) -> Result<KindName, Refusal>
    ensures { Asked (option_map (λ w. string_bytes w.now) word.entry) result }
{
    let word = word.ok_or(Refusal::NoKind)?;
    word.as_str().parse().map_err(|_| Refusal::UnknownKind)
}

// Whether the input's length is one that a trace may have.
pub fn length_asked(len: usize) -> Result<(), Refusal>
    ensures { result ≡ (if nat_eq len 0 then Err NoInput else (if nat_le len 1048576 then Ok tt else Err TooLong)) }
{
    if len == 0 {
        return Err(Refusal::NoInput);
    }
    if len > MOST {
        return Err(Refusal::TooLong);
    }
    Ok(())
}
