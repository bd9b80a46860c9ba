// A query: the sum of a range of slots, or why it is not told.
ghost use Rattle.std.specs.Prelude.{◌≡◌, map};
ghost use Rattle.stores.specs.Log.{meant};
ghost use Rattle.links.specs.Joined.{joined};
ghost use Rattle.links.specs.Rings.{Acyclic};
ghost use Rattle.ledger.specs.Truth.{StaysTrue, OneOutcome};
ghost use Rattle.ledger.specs.State.{rule_of, valued_answer, state_of, Queried, SameOrJoined};

use super::Ledger;
use crate::amounts::Amounts;
use crate::answer::{Answer, Fault};
use kinds::Kind;
use links::Step;
use ranges::Range;
use rules::Rule;
use stores::Store;

// So many queries are counted at most.
const MOST: u32 = 65_535;

impl Ledger {
    // Stays: amounts, store, rule and table are each the caller's own, lent for this call alone.
    // Asks for the sum of the range's slots: tells it, or says why not. A refusal's chain is written into the first steps of `chain`.
    pub fn query<K: Kind, S: Store<K>, R: Rule>(
        &mut self,
        amounts: &mut Amounts<'_, K>,
        store: &S,
        rule: &R,
        range: Range<u32>,
        chain: &mut [Step],
    ) -> Answer<K>
        ensures asked { Queried K.Kind.group (meant K.Kind.meaning (S.Store.log store.now)) (rule_of (R.Rule.protects rule.now) (R.Rule.ordered rule.now)) self.old.links self.new.links (map K.Kind.meaning amounts.old.distances.table.now) (map K.Kind.meaning amounts.new.distances.table.now) self.old.counts self.new.counts chain.old chain.new range.low range.high (valued_answer K.Kind.meaning result) }
        ensures faithful { StaysTrue K.Kind.group (meant K.Kind.meaning (S.Store.log store.now)) (rule_of (R.Rule.protects rule.now) (R.Rule.ordered rule.now)) (state_of K.Kind.group self.old.links (map K.Kind.meaning amounts.old.distances.table.now) self.old.counts) (state_of K.Kind.group self.new.links (map K.Kind.meaning amounts.new.distances.table.now) self.new.counts) (record { low = range.low; high = range.high; table = chain.old }) chain.new (valued_answer K.Kind.meaning result) }
        ensures exact { OneOutcome K.Kind.group }
        ensures acyclic { Acyclic (joined self.old.links) }
        ensures others { SameOrJoined K.Kind.group K.Kind.meaning self.old.links self.new.links amounts.old.distances.table.now amounts.new.distances.table.now range.low range.high }
        ensures stays { amounts.new.distances.table.ghost_name ≡ amounts.old.distances.table.ghost_name }
    {
        if self.counts.total() >= MOST {
            return Answer::Refused(Fault::Full);
        }
        let answer = amounts.answer(&mut self.links, store, rule, range, chain);
        self.counts = self.counts.add(&answer);
        answer
    }
}
