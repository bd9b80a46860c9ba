// A query of a script: asked of the ledger, and its answer printed.
ghost use Rattle.std.specs.Prelude.{◌≡◌, ◌≤◌, map, length};
ghost use Rattle.stores.specs.Log.{meant};
ghost use Rattle.ledger.specs.State.{rule_of, releases_of};
ghost use Rattle.ledger.specs.Truth.{TrueTo};
ghost use Rattle.script.specs.Printed.{AskedAndPrinted};

use crate::print::{AnswerLine, Printer};
use crate::sink::Sink;
use kinds::NamedKind;
use ledger::{Amounts, Ledger};
use links::Step;
use ranges::Range;
use rules::Rule;
use stores::Store;

// Stays: the ledger's own query takes ledger, amounts, store, rule and range one by one, and no second function here takes them.
pub(crate) fn ask<K: NamedKind, T: Store<K>, R: Rule, S: Sink>(
    ledger: &mut Ledger,
    amounts: &mut Amounts<'_, K>,
    store: &T,
    rule: &R,
    steps: &mut [Step],
    range: Range<u32>,
    printer: &mut Printer<'_, S>,
)
    requires steps { length steps.old ≡ 1023 }
    requires faithful { TrueTo K.Kind.group (meant K.Kind.meaning (T.Store.log store.now)) (rule_of (R.Rule.protects rule.now) (R.Rule.ordered rule.now)) (releases_of K.Kind.group ledger.old.links (map K.Kind.meaning amounts.old.distances.table.now)) }
    ensures faithful { TrueTo K.Kind.group (meant K.Kind.meaning (T.Store.log store.now)) (rule_of (R.Rule.protects rule.now) (R.Rule.ordered rule.now)) (releases_of K.Kind.group ledger.new.links (map K.Kind.meaning amounts.new.distances.table.now)) }
    ensures asked { AskedAndPrinted K.Kind.group K.Kind.numbers K.NamedKind.NAME (meant K.Kind.meaning (T.Store.log store.now)) (rule_of (R.Rule.protects rule.now) (R.Rule.ordered rule.now)) S.Sink.puts ledger.old.links ledger.new.links (map K.Kind.meaning amounts.old.distances.table.now) (map K.Kind.meaning amounts.new.distances.table.now) ledger.old.counts ledger.new.counts steps.old steps.new range.low range.high printer.old.sink.now printer.new.sink.now }
    ensures stays { amounts.new.distances.table.ghost_name ≡ amounts.old.distances.table.ghost_name }
    ensures told { printer.new.sink.ghost_name ≡ printer.old.sink.ghost_name }
{
    let answer = ledger.query(amounts, store, rule, range, steps);
    let told = AnswerLine {
        range,
        answer: &answer,
        table: steps,
    };
    printer.print(&told);
}
