// The tokens of the line that a reader is in.
ghost use Rattle.std.specs.Prelude.{◌≡◌};
ghost use Rattle.std.specs.Option.{option_map};
ghost use Rattle.text.specs.Found.{FindsToken};
ghost use Rattle.text.specs.Tokens.{symbol, symbol_of, spot};

use super::Reader;
use crate::alphabet::Class;
use crate::number::number;
use crate::run::{Line, Run};
use crate::token::{Placed, Token};

// The token that a run is, if it is one.
fn token_of(run: Run<'_>) -> Option<Token<'_>>
    ensures { option_map symbol result ≡ symbol_of run.entry.class run.entry.bytes.now }
{
    match run.class {
        Class::Open => Some(Token::Open),
        Class::Close => Some(Token::Close),
        Class::Digit => Some(Token::Number(number(run.bytes)?)),
        Class::Letter => Some(Token::Word(run.bytes)),
        Class::Blank | Class::Outside => None,
    }
}

// The first token of what is left of a line, and what follows it.
pub(super) fn first_token<'a>(line: Line<'a>) -> Option<(Placed<'a>, Line<'a>)>
    ensures { FindsToken line.entry result }
{
    let mut left = line.after_blanks();
    let run = left.next()?;
    let token = token_of(run)?;
    let place = run.place;
    Some((Placed { token, place }, left))
}

impl<'a> Iterator for Reader<'a> {
    ghost use Rattle.std.specs.Prelude.{length};
    ghost use Rattle.std.specs.Iterator.{at_most};
    ghost use Rattle.text.specs.Found.{TakesToken};
    ghost use Rattle.text.specs.Reading.{state};

    type Item = Placed<'a>;

    ghost next_gives = { λ s r t. TakesToken (state s) (option_map spot r) (state t) };

    ghost remaining = { λ s. at_most (length (state s).left) };

    // The next token of the line, or none where the line has no more.
    fn next(&mut self) -> Option<Placed<'a>> {
        let (token, line) = first_token(self.line)?;
        self.line = line;
        Some(token)
    }
}
