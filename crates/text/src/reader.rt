// The reader of a script: it keeps the text that is left, and its place in it.
ghost use Rattle.std.specs.Prelude.{◌+◌, ◌≤◌, length};

mod lines;
mod tokens;

use crate::run::Line;

#[derive(Drop)]
pub struct Reader<'a> {
    // the lines that follow
    text: &'a [u8],
    // what is left of the line it is in
    line: Line<'a>,
    ghost counted: { length text.now + line.place.line ≤ 65536 },
}
