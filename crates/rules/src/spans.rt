// The rule of listed ranges: those that a list names, one by one.
ghost use Rattle.std.specs.Prelude.{◌≡◌};
ghost use Rattle.rules.specs.Ordered.{spans_ordered};
ghost use Rattle.rules.specs.Pairs.{Same, listed, spans};

use crate::Rule;
use ranges::Range;

const MOST: usize = 32;

// Any pair may be listed; one whose low end is not below its high end is never protected.
#[derive(Clone, Copy)]
pub struct Spans<'a> {
    pub(crate) list: &'a [Range<u32>],
}

impl<'a> Spans<'a> {
    // Protects the listed ranges, at most 32; made with a longer list it protects every range.
    pub fn new(list: &'a [Range<u32>]) -> Spans<'a>
        ensures { Same (⟦<Spans<'a> as Rule>⟧.protects result) (spans list.now) }
    {
        Spans { list }
    }

    // Stays: a rule of the project wants a loop over the elements of the slice here.
    fn lists(&self, range: Range<u32>) -> bool
        ensures { result ≡ listed self.now.list.now range.low range.high }
    {
        for span in self.list {
            if *span == range {
                return true;
            }
        }
        false
    }
}

impl<'a> Rule for Spans<'a> {
    ghost protects = { λ rule. spans rule.list.now };

    ghost ordered = { λ rule. spans_ordered rule.list.now };

    fn protects(&self, range: Range<u32>) -> bool {
        range.low < range.high && (self.list.len() > MOST || self.lists(range))
    }
}
