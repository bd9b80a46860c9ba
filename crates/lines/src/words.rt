// The words that stand in a line for a kind of reading, and for the layer that found a fault.
ghost use Rattle.std.specs.Prelude.{◌≡◌, Some};
ghost use Rattle.kinds.specs.Names.{kind_word};
ghost use Rattle.lines.specs.Words.{layer_word};

use crate::piece::{Piece, Text};
use kinds::KindName;
use std::fmt;

// Stays: a kind's and a layer's word are two formats' words.
impl Piece for KindName {
    ghost text = { kind_word };

    fn put(&self, out: &mut [u8]) -> Option<usize> {
        Text(self.word().as_bytes()).put(out)
    }
}

// The layer of a script's reader that found a fault: its text, or its forms.
#[derive(Clone, Copy, Debug, PartialEq, Eq)]
pub enum Layer {
    Text,
    Form,
}

impl Layer {
    pub fn word(self) -> &'static str
        ensures { result.now ≡ layer_word self }
    {
        match self {
            Layer::Text => "text",
            Layer::Form => "form",
        }
    }
}

impl fmt::Display for Layer {
    ghost output = { λ layer. Some (layer_word layer) };

    fn fmt<W: fmt::Write>(&self, f: &mut fmt::Formatter<W>) -> fmt::Result {
        f.write_str(self.word())
    }
}

impl Piece for Layer {
    ghost text = { layer_word };

    fn put(&self, out: &mut [u8]) -> Option<usize> {
        Text(self.word().as_bytes()).put(out)
    }
}
