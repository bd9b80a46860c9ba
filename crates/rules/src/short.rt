// The rule of short ranges: no stretch below an agreed length is told.
ghost use Rattle.rules.specs.Ordered.{up_to_ordered};
ghost use Rattle.rules.specs.Pairs.{Same, short, up_to};

use crate::Rule;
use ranges::Range;

const LEAST: u32 = 1;

const MOST: u32 = 1024;

// `longest` is the length of the longest protected range; the largest number stands for every length.
#[derive(Clone, Copy)]
pub struct Short {
    pub(crate) longest: u32,
}

impl Short {
    // Protects what is shorter than `k`, from 1 to 1,024; made with another `k` it protects every range.
    pub fn new(k: u32) -> Short
        ensures { Same (⟦<Short as Rule>⟧.protects result) (short k) }
    {
        if (LEAST..=MOST).contains(&k) {
            Short { longest: k - 1 }
        } else {
            Short { longest: u32::MAX }
        }
    }
}

impl Rule for Short {
    ghost protects = { λ rule. up_to rule.longest };

    ghost ordered = { λ rule. up_to_ordered rule.longest };

    fn protects(&self, range: Range<u32>) -> bool {
        range.low < range.high && range.high - range.low <= self.longest
    }
}
