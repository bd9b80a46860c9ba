// Whole lists of calls, from opening to close.
use crate::heard::Heard;
use audit::{Call, run};
use kinds::{Dials, Toggles, Wh};
use ledger::{NewLog, Trial, Try};
use links::Step;
use ranges::Range;
use rules::{Joined, Short, Spans};
use stores::{Packed, Plain, windowed};

fn wh(amount: u32) -> Wh {
    Wh { amount }
}

fn dials(litres: u16, starts: u16) -> Dials {
    Dials { litres, starts }
}

fn query<'c>(low: u32, high: u32) -> Call<'c, Short> {
    Call::Query(Range { low, high })
}

// Stays: as in ledger_tests; the two crates share none of their own.
fn on_nine_slots(low: u32, high: u32) -> Try<Short> {
    Try {
        range: Range { low, high },
        rule: Short::new(3),
        slots: 9,
    }
}

#[test]
fn watt_hours_in_a_plain_store_under_a_short_rule(rt: HostRuntime) {
    let mut table = [wh(5); 1024];
    let values = [
        wh(5),
        wh(0),
        wh(7),
        wh(1),
        wh(4),
        wh(2),
        wh(9),
        wh(3),
        wh(0),
    ];
    let marks = [1, 1, 1, 1, 1, 1, 1, 1, 0];
    let store = Plain::new(&values, &marks);
    let tries = [on_nine_slots(4, 8), on_nine_slots(0, 5)];
    let calls = [
        query(0, 4),
        query(1, 5),
        Call::Rehearsal(&tries),
        query(0, 5),
        query(4, 8),
        query(5, 9),
        query(0, 8),
        query(2, 10),
    ];
    let mut heard = Heard::nothing();
    let counts = run(
        NewLog::begin(),
        &mut table,
        &store,
        &Short::new(3),
        &calls,
        &mut [Step::default(); 1023],
        &mut [Trial::Free; 32],
        &mut heard,
    );
    assert_eq!(rt; heard.numbers(), [0, 0, 7, 0, 8, 0, 5, 0]);
    assert_eq!(rt; (heard.trials()[0], heard.trials()[1]), (0, 7));
    assert_eq!(rt; heard.sum.map(|sum| sum.amount), Some(31));
    assert_eq!(rt; (counts.released, counts.withheld), (4, 1));
    assert_eq!(rt; (counts.lost, counts.malformed), (1, 1));
}

#[test]
fn toggles_in_a_packed_store_under_listed_spans(rt: HostRuntime) {
    let mut table = [Toggles { mask: 1 }; 1024];
    let bytes = [1, 1, 0, 1, 2, 0, 1, 3, 0, 1, 1, 0];
    let store = Packed::<Toggles>::new(&bytes);
    let spans = [Range { low: 2, high: 4 }];
    let calls = [query(0, 3), query(0, 4), query(3, 4), query(2, 4)];
    let mut heard = Heard::nothing();
    let counts = run(
        NewLog::begin(),
        &mut table,
        &store,
        &Spans::new(&spans),
        &calls,
        &mut [Step::default(); 1023],
        &mut [],
        &mut heard,
    );
    assert_eq!(rt; heard.numbers(), [0, 0, 0, 7, 0, 0, 0, 0]);
    assert_eq!(rt; heard.sum.map(|sum| sum.mask), Some(1));
    assert_eq!(rt; (counts.released, counts.withheld), (3, 1));
}

#[test]
fn dials_through_a_window_under_a_joined_rule(rt: HostRuntime) {
    let mut table = [dials(1, 1); 1024];
    let values = [
        dials(9_999, 999),
        dials(1, 1),
        dials(2, 3),
        dials(9_998, 998),
    ];
    let marks = [1; 4];
    let store = windowed::<Dials, Plain<Dials>>(Plain::new(&values, &marks), 1, 9);
    let spans = [Range { low: 0, high: 3 }];
    let rule = Joined::new(Short::new(2), Spans::new(&spans));
    let calls = [query(0, 2), query(0, 3), query(0, 1), query(1, 3)];
    let mut heard = Heard::nothing();
    let counts = run(
        NewLog::begin(),
        &mut table,
        &store,
        &rule,
        &calls,
        &mut [Step::default(); 1023],
        &mut [],
        &mut heard,
    );
    assert_eq!(rt; heard.numbers(), [0, 7, 7, 0, 0, 0, 0, 0]);
    assert_eq!(rt; heard.sum.map(|sum| (sum.litres, sum.starts)), Some((0, 1)));
    assert_eq!(rt; (counts.released, counts.withheld), (2, 2));
}
