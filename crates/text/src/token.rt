// The tokens of a line.
use crate::fault::Place;

// A bracket, a number, or a word: the word is a part of the script itself.
#[derive(Clone, Copy, Debug, PartialEq, Eq)]
pub enum Token<'a> {
    Open,
    Close,
    Number(u32),
    Word(&'a [u8]),
}

// A token, with the place of its first byte.
#[derive(Clone, Copy, Debug, PartialEq, Eq)]
pub struct Placed<'a> {
    pub token: Token<'a>,
    pub place: Place,
}
