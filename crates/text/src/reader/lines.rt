// A reader's way from line to line.
ghost use Rattle.std.specs.Prelude.{◌≡◌, ◌<◌, [], length};
ghost use Rattle.text.specs.Reading.{state};
ghost use Rattle.text.specs.Script.{readable, lines, Begun, advanced, Splits};
ghost use Rattle.text.specs.Spelling.{Grammar};

use super::Reader;
use crate::fault::{Fault, Place};
use crate::judge::judge;
use crate::reader::tokens::first_token;
use crate::run::Line;
use crate::script::{first_line, sized};

impl<'a> Reader<'a> {
    // A reader before the first line of a script. Of a script that is too long it has nothing to read.
    pub fn new(script: &'a [u8]) -> Reader<'a>
        ensures value { state result ≡ record { number = 0; left = []; following = lines (readable script.now) } }
        ensures splits { Splits }
    {
        Reader {
            text: if sized(script).is_ok() {
                script
            } else {
                &script[..0]
            },
            line: Line {
                rest: &script[..0],
                place: Place { line: 0, column: 1 },
            },
        }
    }

    // Takes up the line that follows. Of a line with a fault no token is left.
    fn begin(&mut self) -> Result<(), Fault>
        requires { 0 < length self.old.text.now }
        ensures begun { Begun (state self.old) result (state self.new) }
        ensures shorter { length self.new.text.now < length self.old.text.now }
    {
        let (rest, text) = first_line(self.text);
        let place = Place {
            line: self.line.place.line + 1,
            column: 1,
        };
        let judged = judge(Line { rest, place });
        let rest = if judged.is_ok() { rest } else { &rest[..0] };
        self.text = text;
        self.line = Line { rest, place };
        judged
    }

    // Goes on to the next line that has tokens or a fault of its text. A line with a fault is passed over, and its fault told. False at the
    // script's end.
    pub fn next_line(&mut self) -> Result<bool, Fault>
        ensures value { result ≡ (advanced (state self.old).number (state self.old).following).0 }
        ensures after { state self.new ≡ (advanced (state self.old).number (state self.old).following).1 }
        ensures grammar { Grammar }
    {
        self.line.rest = &self.line.rest[..0];
        while !self.text.is_empty() {
            self.begin()?;
            if first_token(self.line).is_some() {
                return Ok(true);
            }
        }
        Ok(false)
    }
}
