// Prints what the flash bytes of a saved trace hold: `tracedump KIND [LOW..HIGH ..] < BYTES`.
#![tactic(auto)]

mod compare;
mod lines;
mod request;

ghost use Rattle.std.specs.Prelude.{◌≡◌, drop};

use kinds::{Dials, KindName, Toggles, Wh};
use lines::lines;
use request::{MOST, kind_asked, length_asked};
use std::io::Read;
use std::{env, io};

// Standard input, cut one byte past the most that a trace may have.
fn input(rt: &HostRuntime) -> io::Result<Vec<u8>> {
    let mut bytes = Vec::new(rt.alloc());
    // Stays: `u64` has no `From<usize>`.
    let _ = rt.stdin().take(MOST as u64 + 1).read_to_end(&mut bytes)?;
    Ok(bytes)
}

// The words after the first.
fn rest(words: &[String]) -> &[String]
    ensures { result.now ≡ drop 1 words.now }
{
    words.get(1..).unwrap_or(words)
}

fn run(rt: &HostRuntime) -> anyhow::Result<()> {
    let heap = rt.alloc();
    let words: Vec<String> = env::args(rt)?.skip(1).collect(heap)?;
    let kind = kind_asked(words.first())?;
    let bytes = input(rt)?;
    length_asked(bytes.len())?;
    let stretches = rest(words.as_slice());
    // Stays: three types, of which one is chosen by what was read.
    let all = match kind {
        KindName::Wh => lines::<Wh>(heap, &bytes, stretches)?,
        KindName::Toggles => lines::<Toggles>(heap, &bytes, stretches)?,
        KindName::Dials => lines::<Dials>(heap, &bytes, stretches)?,
    };
    for line in all.iter() {
        println!(rt; "{line}")?;
    }
    Ok(())
}

fn main(rt: HostRuntime) -> anyhow::Result<()> {
    run(&rt)
}
