// The rules on examples, at their limits.
use crate::{Joined, Rule, Short, Spans};
use ranges::Range;

const LAST: u32 = u32::MAX;

fn range(low: u32, high: u32) -> Range<u32> {
    Range { low, high }
}

#[test]
fn below_three(rt: HostRuntime) {
    let rule = Short::new(3);
    assert!(rt; rule.protects(range(0, 1)));
    assert!(rt; rule.protects(range(5, 7)));
    assert!(rt; !rule.protects(range(5, 8)));
    assert!(rt; !rule.protects(range(5, 5)));
    assert!(rt; !rule.protects(range(7, 5)));
}

#[test]
fn below_one_protects_nothing(rt: HostRuntime) {
    let rule = Short::new(1);
    assert!(rt; !rule.protects(range(0, 1)));
    assert!(rt; !rule.protects(range(0, 0)));
    assert!(rt; !rule.protects(range(0, LAST)));
}

#[test]
fn below_the_largest_length(rt: HostRuntime) {
    let rule = Short::new(1024);
    assert!(rt; rule.protects(range(0, 1023)));
    assert!(rt; !rule.protects(range(0, 1024)));
}

#[test]
fn no_length_to_agree_on(rt: HostRuntime) {
    assert!(rt; Short::new(0).protects(range(0, LAST)));
    assert!(rt; Short::new(1025).protects(range(0, LAST)));
    assert!(rt; Short::new(LAST).protects(range(0, 1)));
    assert!(rt; !Short::new(0).protects(range(4, 4)));
    assert!(rt; !Short::new(1025).protects(range(5, 4)));
}

#[test]
fn listed_backwards(rt: HostRuntime) {
    let list = [
        Range { low: 4, high: 2 },
        Range { low: 3, high: 3 },
        Range {
            low: 70000,
            high: 70001,
        },
    ];
    let rule = Spans::new(&list);
    assert!(rt; !rule.protects(range(4, 2)));
    assert!(rt; !rule.protects(range(2, 4)));
    assert!(rt; !rule.protects(range(3, 3)));
    assert!(rt; rule.protects(range(70000, 70001)));
    assert!(rt; !rule.protects(range(70000, 70002)));
    assert!(rt; !Spans::new(&[]).protects(range(4, 2)));
}

#[test]
fn longest_list_and_one_more(rt: HostRuntime) {
    let mut list = [Range { low: 1, high: 3 }; 33];
    list[31] = Range { low: 2, high: 4 };
    let full = Spans::new(&list[..32]);
    assert!(rt; full.protects(range(2, 4)));
    assert!(rt; full.protects(range(1, 3)));
    assert!(rt; !full.protects(range(0, 9)));
    let over = Spans::new(&list);
    assert!(rt; over.protects(range(0, 9)));
    assert!(rt; !over.protects(range(9, 0)));
}

#[test]
fn joined_twice(rt: HostRuntime) {
    let list = [Range { low: 2, high: 9 }];
    let inner = Joined::new(Short::new(2), Spans::new(&list));
    let rule = Joined::new(inner, Short::new(1));
    assert!(rt; rule.protects(range(4, 5)));
    assert!(rt; rule.protects(range(2, 9)));
    assert!(rt; !rule.protects(range(2, 8)));
    assert!(rt; !rule.protects(range(9, 2)));
}
