// What a query answers that finds its ledger not full: the sum between linked ends, a refusal, or what its slots hold.
ghost use Rattle.std.specs.Prelude.{◌≡◌, ◌<◌, ◌≤◌, map, length, ◌≢◌};
ghost use Rattle.judgement.specs.Refusal.{OnlyWith, Shown};
ghost use Rattle.stores.specs.Log.{meant};
ghost use Rattle.links.specs.Joined.{joined};
ghost use Rattle.links.specs.Linked.{Linked};
ghost use Rattle.ledger.specs.State.{rule_of, valued_answer, Freed, IsBetween, Settles, Responds, SameOrJoined};

use crate::amounts::Amounts;
use crate::answer::{Answer, Fault};
use crate::ends::ends_asked;
use judgement::{Finding, judge, refusal};
use kinds::Kind;
use links::{Boundary, Links, Step};
use ranges::Range;
use rules::Rule;
use stores::{Store, SumFault, sum};

// The refusal of a query that would give `pair` away, with its chain in the table: how many steps it has.
fn withhold(links: &Links, ends: Range<Boundary>, pair: Range<u16>, chain: &mut [Step]) -> usize
    requires only { OnlyWith (joined links.now) (record { low = ends.low.index; high = ends.high.index }) pair.low pair.high }
    requires room { 1023 ≤ length chain.old }
    ensures { Shown (joined links.now) (record { low = ends.low.index; high = ends.high.index }) pair.low pair.high result chain.old chain.new }
{
    refusal(links, ends, pair, chain).unwrap()
}

impl<K: Kind> Amounts<'_, K> {
    // The sum between two ends that are linked already. The store is not looked at.
    fn known(&self, links: &Links, ends: Range<Boundary>) -> Answer<K>
        requires { Linked (joined links.now) ends.low.index ends.high.index }
        ensures { IsBetween K.Kind.group links.now (map K.Kind.meaning self.now.distances.table.now) ends.low.index ends.high.index (valued_answer K.Kind.meaning result) }
    {
        Answer::Released(self.distances.between(links, ends.low, ends.high).unwrap())
    }

    // What a free query answers: the sum of its slots, which joins the ledger, or the lowest lost slot.
    fn release<S: Store<K>>(
        &mut self,
        links: &mut Links,
        store: &S,
        ends: Range<Boundary>,
    ) -> Answer<K>
        requires apart { Linked (joined links.old) ends.low.index ends.high.index → ⊥ }
        requires range { ends.low.index < ends.high.index }
        requires within { ends.high.index ≤ (S.Store.log store.now).slots }
        requires room { 1024 ≤ length self.old.distances.table.now }
        ensures freed { Freed K.Kind.group (meant K.Kind.meaning (S.Store.log store.now)) links.old links.new (map K.Kind.meaning self.old.distances.table.now) (map K.Kind.meaning self.new.distances.table.now) ends.low.index ends.high.index (valued_answer K.Kind.meaning result) }
        ensures others { SameOrJoined K.Kind.group K.Kind.meaning links.old links.new self.old.distances.table.now self.new.distances.table.now ends.low.index ends.high.index }
        ensures stays { self.new.distances.table.ghost_name ≡ self.old.distances.table.ghost_name }
    {
        let slots = Range {
            low: usize::from(ends.low.index()),
            high: usize::from(ends.high.index()),
        };
        match sum(store, slots) {
            Ok(value) => {
                let _ = self.distances.join(links, ends, value);
                Answer::Released(value)
            }
            Err(SumFault::Lost(slot)) => Answer::LostSlot(slot),
            Err(SumFault::Refused(_)) => unreachable(),
        }
    }

    // Stays: here and in `answer`, what the query was lent is lent on.
    // What a query answers that meets no fault.
    fn settle<S: Store<K>, R: Rule>(
        &mut self,
        links: &mut Links,
        store: &S,
        rule: &R,
        ends: Range<Boundary>,
        chain: &mut [Step],
    ) -> Answer<K>
        requires range { ends.low.index < ends.high.index }
        requires within { ends.high.index ≤ (S.Store.log store.now).slots }
        requires room { 1024 ≤ length self.old.distances.table.now }
        requires steps { 1023 ≤ length chain.old }
        ensures settles { Settles K.Kind.group (meant K.Kind.meaning (S.Store.log store.now)) (rule_of (R.Rule.protects rule.now) (R.Rule.ordered rule.now)) links.old links.new (map K.Kind.meaning self.old.distances.table.now) (map K.Kind.meaning self.new.distances.table.now) chain.old chain.new ends.low.index ends.high.index (valued_answer K.Kind.meaning result) }
        ensures others { SameOrJoined K.Kind.group K.Kind.meaning links.old links.new self.old.distances.table.now self.new.distances.table.now ends.low.index ends.high.index }
        ensures unfull { result ≢ Answer.Refused Fault.Full }
        ensures stays { self.new.distances.table.ghost_name ≡ self.old.distances.table.ghost_name }
    {
        match judge(links, rule, ends) {
            Finding::Linked => self.known(links, ends),
            Finding::Withheld(pair) => Answer::Withheld(pair, withhold(links, ends, pair, chain)),
            Finding::Free => self.release(links, store, ends),
        }
    }

    // What a query answers on a ledger that is not full.
    pub(crate) fn answer<S: Store<K>, R: Rule>(
        &mut self,
        links: &mut Links,
        store: &S,
        rule: &R,
        range: Range<u32>,
        chain: &mut [Step],
    ) -> Answer<K>
        ensures responds { Responds K.Kind.group (meant K.Kind.meaning (S.Store.log store.now)) (rule_of (R.Rule.protects rule.now) (R.Rule.ordered rule.now)) links.old links.new (map K.Kind.meaning self.old.distances.table.now) (map K.Kind.meaning self.new.distances.table.now) chain.old chain.new range.low range.high (valued_answer K.Kind.meaning result) }
        ensures others { SameOrJoined K.Kind.group K.Kind.meaning links.old links.new self.old.distances.table.now self.new.distances.table.now range.low range.high }
        ensures unfull { result ≢ Answer.Refused Fault.Full }
        ensures stays { self.new.distances.table.ghost_name ≡ self.old.distances.table.ghost_name }
    {
        match ends_asked(store.slots(), self.distances.len(), chain.len(), range) {
            Ok(ends) => self.settle(links, store, rule, ends, chain),
            Err(fault) => Answer::Refused(fault),
        }
    }
}
