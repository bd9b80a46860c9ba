// The pieces that a line is made of: each writes its text into a lent buffer, from its start on, as much as fits.
ghost use Rattle.std.specs.Prelude.{◌≡◌, ℕ, List, [], ◌∷◌, ◌++◌, decimal};
ghost use Rattle.std.specs.List.{flat_map};
ghost use Rattle.lines.specs.Text.{Wrote, number_text};

use itoa::Buffer;
use ranges::Range;

pub trait Piece {
    // What is written of it.
    ghost text: { Self → List ℕ };

    // Answers the text's length, where it fits.
    fn put(&self, out: &mut [u8]) -> Option<usize>
        ensures { Wrote (text self.now) out.old out.new result };

    // This piece, and the next one after it.
    final fn then<P: Piece>(self, next: P) -> Then<Self, P>
    where
        Self: Sized,
        ensures { result ≡ record { first = self; next = next } }
    {
        Then { first: self, next }
    }
}

impl<P: Piece> Piece for &P {
    ghost text = { λ it. P.Piece.text it.now };

    fn put(&self, out: &mut [u8]) -> Option<usize> {
        (**self).put(out)
    }
}

#[derive(Clone, Copy)]
pub struct Text<'a>(pub &'a [u8]);

impl Piece for Text<'_> {
    ghost text = { λ it. it.0.now };

    fn put(&self, out: &mut [u8]) -> Option<usize> {
        let room = out.len();
        if self.0.len() > room {
            out.copy_from_slice(&self.0[..room]);
            return None;
        }
        out[..self.0.len()].copy_from_slice(self.0);
        Some(self.0.len())
    }
}

// The rest of the buffer, from the filled length on, is lent to the next piece.
#[derive(Clone, Copy)]
pub struct Then<A, B> {
    pub first: A,
    pub next: B,
}

impl<A: Piece, B: Piece> Piece for Then<A, B> {
    ghost text = { λ it. A.Piece.text it.first ++ B.Piece.text it.next };

    fn put(&self, out: &mut [u8]) -> Option<usize> {
        let len = self.first.put(out)?;
        Some(len + self.next.put(&mut out[len..])?)
    }
}

// The pieces of a list one after the other, each in the rest of the buffer.
#[derive(Clone, Copy)]
pub struct Each<'a, P>(pub &'a [P]);

impl<P: Piece> Piece for Each<'_, P> {
    ghost text = { λ it. flat_map P.Piece.text it.0.now };

    fn put(&self, out: &mut [u8]) -> Option<usize> {
        // Stays: the rest of the buffer, from the filled length on, is lent to each piece, by a rule of the project.
        let mut len = 0;
        for piece in self.0 {
            len += piece.put(&mut out[len..])?;
        }
        Some(len)
    }
}

// A number in base ten, with no leading zero.
#[derive(Clone, Copy)]
pub(crate) struct Digits(pub(crate) u64);

impl Piece for Digits {
    ghost text = { λ it. decimal it.0 };

    fn put(&self, out: &mut [u8]) -> Option<usize> {
        Text(Buffer::new().format(self.0).as_bytes()).put(out)
    }
}

// In a line a number stands after a blank.
impl Piece for u64 {
    ghost text = { number_text };

    fn put(&self, out: &mut [u8]) -> Option<usize> {
        Text(b" ").then(Digits(*self)).put(out)
    }
}

// Stays: one impl for every `itoa::Integer` is refused ("conflicting impls of the trait `Piece` for `Step`").
impl Piece for u32 {
    ghost text = { number_text };

    fn put(&self, out: &mut [u8]) -> Option<usize> {
        u64::from(*self).put(out)
    }
}

// Of a range the two ends.
impl<N: Piece> Piece for Range<N> {
    ghost text = { λ it. flat_map N.Piece.text (it.low ∷ it.high ∷ []) };

    fn put(&self, out: &mut [u8]) -> Option<usize> {
        (&self.low).then(&self.high).put(out)
    }
}
