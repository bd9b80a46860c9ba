// A list of calls on one ledger, from its opening to its close.
ghost use Rattle.std.specs.Prelude.{◌≡◌, map, length};
ghost use Rattle.stores.specs.Log.{meant};
ghost use Rattle.ledger.specs.State.{rule_of, state_of};
ghost use Rattle.audit.specs.Course.{call_made, calls_made, Performed, Ran};
ghost use Rattle.audit.specs.Laws.{WithheldExactly, AnyValue, ReadingsUnseen};
ghost use Rattle.audit.specs.Facts.{SumsTrue, ChainsTrue, NoRing, CountsWithin, OneRun, EveryPlace, RehearsalsIdle};

use crate::call::Call;
use crate::listener::Listener;
use kinds::Kind;
use ledger::{Amounts, Counts, Ledger, NewLog, Trial, open};
use links::Step;
use rules::Rule;
use stores::Store;

// Stays: the tables and the listener are lent one by one by who calls `run`; a struct of loans would only be taken apart here again.
// Makes one call, and tells its reply.
fn perform<K: Kind, S: Store<K>, R: Rule, T: Rule, L: Listener<K>>(
    ledger: &mut Ledger,
    amounts: &mut Amounts<'_, K>,
    store: &S,
    rule: &R,
    call: &Call<'_, T>,
    steps: &mut [Step],
    trials: &mut [Trial],
    listener: &mut L,
)
    ensures performed { Performed K.Kind.group K.Kind.meaning (meant K.Kind.meaning (S.Store.log store.now)) (rule_of (R.Rule.protects rule.now) (R.Rule.ordered rule.now)) L.Listener.hears (λ table. call_made T.Rule.protects T.Rule.ordered (length trials.old) table call.now) (state_of K.Kind.group ledger.old.links (map K.Kind.meaning amounts.old.distances.table.now) ledger.old.counts) (state_of K.Kind.group ledger.new.links (map K.Kind.meaning amounts.new.distances.table.now) ledger.new.counts) steps.old steps.new listener.old listener.new }
    ensures stays { amounts.new.distances.table.ghost_name ≡ amounts.old.distances.table.ghost_name }
{
    match call {
        Call::Query(range) => {
            let answer = ledger.query(amounts, store, rule, *range, steps);
            listener.answered(&answer, steps, ledger.counts());
        }
        Call::Rehearsal(tries) => {
            let made = ledger.rehearse(tries, trials);
            listener.rehearsed(&trials[0..made], ledger.counts());
        }
    }
}

// Opens a ledger on the table of values, makes the calls on it in their order, all queries over one store and under one rule, tells the
// listener each reply, closes the ledger, and gives its counts. `steps` is the table for the chains of refusals; `trials` is where the
// answers to tries stand until they are told, and bounds how many tries of a rehearsal are made.
pub fn run<K: Kind, S: Store<K>, R: Rule, T: Rule, L: Listener<K>>(
    log: NewLog,
    table: &mut [K],
    store: &S,
    rule: &R,
    calls: &[Call<'_, T>],
    steps: &mut [Step],
    trials: &mut [Trial],
    listener: &mut L,
) -> Counts
    ensures ran { Ran K.Kind.group K.Kind.meaning (meant K.Kind.meaning (S.Store.log store.now)) (rule_of (R.Rule.protects rule.now) (R.Rule.ordered rule.now)) L.Listener.hears (length table.old) (length calls.now) (λ chain replies. calls_made T.Rule.protects T.Rule.ordered (length trials.old) chain calls.now replies) steps.old steps.new listener.old listener.new result }
    ensures withheld { WithheldExactly K.Kind.group }
    ensures values { AnyValue K.Kind.group }
    ensures unseen { ReadingsUnseen K.Kind.group }
    ensures sums { SumsTrue K.Kind.group }
    ensures chains { ChainsTrue K.Kind.group }
    ensures rings { NoRing K.Kind.group }
    ensures counts { CountsWithin K.Kind.group }
    ensures one { OneRun K.Kind.group }
    ensures place { EveryPlace K.Kind.group }
    ensures idle { RehearsalsIdle K.Kind.group }
{
    let (mut ledger, mut amounts) = open(log, table);
    for call in calls {
        perform(
            &mut ledger,
            &mut amounts,
            store,
            rule,
            call,
            steps,
            trials,
            listener,
        );
    }
    let _ = amounts.close();
    ledger.close()
}
