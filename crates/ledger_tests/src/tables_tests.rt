// Logs and tables at their limits.
use crate::asking::asked_at;
use ranges::Range;

#[test]
fn the_longest_log_is_answered(rt: HostRuntime) {
    let (number, counts) = asked_at::<1023, 1024, 1023>(0, Range { low: 0, high: 1023 });
    assert_eq!(rt; number, 0);
    assert_eq!(rt; (counts.released, counts.malformed), (1, 0));
}

#[test]
fn a_longer_log_is_refused(rt: HostRuntime) {
    let (number, counts) = asked_at::<1024, 1024, 1023>(0, Range { low: 0, high: 1023 });
    assert_eq!(rt; number, 2);
    assert_eq!(rt; (counts.released, counts.malformed), (0, 1));
}

#[test]
fn few_distances_are_refused(rt: HostRuntime) {
    let (number, _) = asked_at::<9, 1023, 1023>(0, Range { low: 0, high: 9 });
    assert_eq!(rt; number, 3);
}

#[test]
fn few_steps_are_refused(rt: HostRuntime) {
    let (number, _) = asked_at::<9, 1024, 1022>(0, Range { low: 0, high: 9 });
    assert_eq!(rt; number, 4);
}

#[test]
fn a_long_log_comes_before_short_tables(rt: HostRuntime) {
    let (number, _) = asked_at::<1024, 0, 0>(0, Range { low: 5, high: 5 });
    assert_eq!(rt; number, 2);
}
