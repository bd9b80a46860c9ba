// The runs of a line: longest stretches of blanks, digits or letters, and every other byte by itself.
ghost use Rattle.std.specs.Prelude.{◌≡◌, ◌+◌, ◌≤◌, length};
ghost use Rattle.text.specs.Runs.{run_length};

use crate::alphabet::{Class, classify};
use crate::fault::Place;

// A run, and the place of its first byte.
#[derive(Clone, Copy)]
pub struct Run<'a> {
    pub class: Class,
    pub bytes: &'a [u8],
    pub place: Place,
}

// What is left of a line, from a place on. It gives the runs one after another.
#[derive(Clone, Copy)]
pub struct Line<'a> {
    pub rest: &'a [u8],
    pub place: Place,
    ghost within: { length rest.now + place.column ≤ 65537 },
}

// How many bytes at the front are of one class.
fn run_length(bytes: &[u8], class: Class) -> usize
    ensures { result ≡ run_length class bytes.now }
{
    bytes
        .iter()
        .position(|byte| !class.holds(*byte))
        .unwrap_or(bytes.len())
}

impl<'a> Line<'a> {
    ghost use Rattle.text.specs.Taken.{PastBlanks};

    // The line from its first byte that is no blank.
    pub(crate) fn after_blanks(self) -> Line<'a>
        ensures { PastBlanks self.entry result }
    {
        let length = run_length(self.rest, Class::Blank);
        let (_, rest) = self.rest.split_at(length);
        let place = self.place.after(length);
        Line { rest, place }
    }
}

impl<'a> Iterator for Line<'a> {
    ghost use Rattle.std.specs.Iterator.{at_most};
    ghost use Rattle.text.specs.Taken.{TakesRun};

    type Item = Run<'a>;

    ghost next_gives = { λ s r t. TakesRun s r t };

    ghost remaining = { λ s. at_most (length s.rest.now) };

    fn next(&mut self) -> Option<Run<'a>> {
        let class = classify(char::from(*self.rest.first()?));
        let length = if class.joins() {
            run_length(self.rest, class)
        } else {
            1
        };
        let (bytes, rest) = self.rest.split_at(length);
        let place = self.place;
        self.rest = rest;
        self.place = place.after(length);
        Some(Run {
            class,
            bytes,
            place,
        })
    }
}
