// Rehearsals: each try is judged by those found free before it, and afterwards the ledger stands as before.
use crate::asking::READING;
use ledger::{NewLog, Trial, Try, open};
use links::Step;
use ranges::Range;
use rules::Short;
use stores::Plain;

// A try of (low, high) on nine slots, of which none may be told alone or in twos.
fn on_nine_slots(low: u32, high: u32) -> Try<Short> {
    Try {
        range: Range { low, high },
        rule: Short::new(3),
        slots: 9,
    }
}

#[test]
fn tries_are_judged_by_the_free_ones_before(rt: HostRuntime) {
    let mut table = [READING; 1024];
    let mut chain = [Step::default(); 1023];
    let values = [READING; 9];
    let marks = [1; 9];
    let store = Plain::new(&values, &marks);
    let rule = Short::new(3);
    let (mut ledger, mut amounts) = open(NewLog::begin(), &mut table);
    let _ = ledger.query(
        &mut amounts,
        &store,
        &rule,
        Range { low: 0, high: 4 },
        &mut chain,
    );
    let tries = [
        on_nine_slots(1, 5),
        on_nine_slots(0, 5),
        on_nine_slots(0, 4),
        on_nine_slots(2, 10),
        on_nine_slots(3, 3),
    ];
    let mut trials = [Trial::Free; 5];
    let made = ledger.rehearse(&tries, &mut trials);
    // without the first try, (0, 5) would be withheld for (4, 5)
    let after = ledger.query(
        &mut amounts,
        &store,
        &rule,
        Range { low: 0, high: 5 },
        &mut chain,
    );
    let _ = amounts.close();
    let counts = ledger.close();
    assert_eq!(rt; made, 5);
    assert_eq!(rt; trials[0].number(), 0);
    assert_eq!(rt; trials[1], Trial::Withheld(Range { low: 0, high: 1 }));
    assert_eq!(rt; trials[2].number(), 0);
    assert_eq!(rt; trials[3].number(), 5);
    assert_eq!(rt; trials[4].number(), 6);
    assert_eq!(rt; after.number(), 7);
    assert_eq!(rt; (chain[0].low, chain[0].high, chain[1].low), (0, 4, 0));
    assert_eq!(rt; (counts.released, counts.withheld), (1, 1));
    assert_eq!(rt; (counts.lost, counts.malformed), (0, 0));
}

#[test]
fn tries_end_with_the_table(rt: HostRuntime) {
    let mut table = [READING; 1024];
    let (mut ledger, amounts) = open(NewLog::begin(), &mut table);
    let tries = [on_nine_slots(0, 3), on_nine_slots(0, 1)];
    let mut trials = [Trial::Free; 1];
    let made = ledger.rehearse(&tries, &mut trials);
    let _ = amounts.close();
    assert_eq!(rt; made, 1);
    assert_eq!(rt; ledger.close().total(), 0);
}
