// Counts up to their limit: query 65,536 is refused, and counted no more.
use crate::asking::asked_at;
use ranges::Range;

#[test]
fn the_last_query_is_counted(rt: HostRuntime) {
    let (number, counts) = asked_at::<9, 1024, 1023>(65_534, Range { low: 4, high: 4 });
    assert_eq!(rt; number, 6);
    assert_eq!(rt; counts.malformed, 65_535);
}

#[test]
fn one_more_is_refused(rt: HostRuntime) {
    let (number, counts) = asked_at::<9, 1024, 1023>(65_535, Range { low: 4, high: 4 });
    assert_eq!(rt; number, 1);
    assert_eq!(rt; counts.malformed, 65_535);
    assert_eq!(rt; counts.total(), 65_535);
}
