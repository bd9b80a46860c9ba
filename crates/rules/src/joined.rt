// The joined rule of two rules: what either of them protects.
ghost use Rattle.rules.specs.Ordered.{either_ordered};
ghost use Rattle.rules.specs.Pairs.{Same, either};

use crate::Rule;
use ranges::Range;

#[derive(Clone, Copy)]
pub struct Joined<A, B> {
    pub(crate) first: A,
    pub(crate) second: B,
}

impl<A: Rule, B: Rule> Joined<A, B> {
    // Protects what one of the two rules protects, or both.
    pub fn new(first: A, second: B) -> Joined<A, B>
        ensures { Same (⟦<Joined<A, B> as Rule>⟧.protects result) (either (A.Rule.protects first) (B.Rule.protects second)) }
    {
        Joined { first, second }
    }
}

impl<A: Rule, B: Rule> Rule for Joined<A, B> {
    ghost protects = { λ rule. either (A.Rule.protects rule.first) (B.Rule.protects rule.second) };

    ghost ordered = { λ rule. either_ordered _ _ (A.Rule.ordered rule.first) (B.Rule.ordered rule.second) };

    fn protects(&self, range: Range<u32>) -> bool {
        self.first.protects(range) || self.second.protects(range)
    }
}
