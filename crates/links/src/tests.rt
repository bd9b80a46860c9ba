// Joins, leaders and chains on examples.
ghost use Rattle.std.specs.Prelude.{◌<◌};

use crate::boundary::{Boundary, NoBoundary};
use crate::links::{Hung, Links};
use crate::step::{Origin, Sign, Step};
use ranges::Range;

const BLANK: Step = Step {
    low: 7,
    high: 7,
    sign: Sign::Minus,
    origin: Origin::New,
};

fn range(low: u16, high: u16) -> Range<Boundary>
    requires low { low < 1024 }
    requires high { high < 1024 }
{
    Range {
        low: Boundary::at(low),
        high: Boundary::at(high),
    }
}

// The numbers of the hung leader and of the one above it.
fn pair(hung: Option<Hung>) -> Option<(u16, u16)> {
    hung.map(|h| (h.leader.index(), h.under.index()))
}

#[test]
fn boundaries_are_below_1024(rt: HostRuntime) {
    assert_eq!(rt; Boundary::try_from(1023).map(Boundary::index), Ok(1023));
    assert_eq!(rt; Boundary::try_from(1024), Err(NoBoundary));
}

#[test]
fn smaller_set_goes_under_larger(rt: HostRuntime) {
    let mut links = Links::new();
    let tie = pair(links.join(range(0, 4)));
    let smaller = pair(links.join(range(3, 4)));
    let linked = pair(links.join(range(0, 3)));
    let backwards = pair(links.join(range(9, 8)));
    let same = links.linked(Boundary::at(3), Boundary::at(0));
    let other = links.linked(Boundary::at(8), Boundary::at(9));
    let leader = links.leader(Boundary::at(3)).index();
    links.close();
    assert_eq!(rt; tie, Some((4, 0)));
    assert_eq!(rt; smaller, Some((3, 0)));
    assert_eq!(rt; linked, None);
    assert_eq!(rt; backwards, None);
    assert!(rt; same);
    assert!(rt; !other);
    assert_eq!(rt; leader, 0);
}

#[test]
fn chain_goes_over_joined_ranges(rt: HostRuntime) {
    let mut links = Links::new();
    let _ = links.join(range(0, 5));
    let _ = links.join(range(1, 5));
    let mut table = [BLANK; 1023];
    let len = links.chain(Boundary::at(0), Boundary::at(1), &mut table);
    let apart = links.chain(Boundary::at(0), Boundary::at(2), &mut table);
    let narrow = links.chain(Boundary::at(0), Boundary::at(1), &mut table[0..1022]);
    links.close();
    assert_eq!(rt; len, Some(2));
    assert_eq!(rt; apart, None);
    assert_eq!(rt; narrow, None);
    let up = Step {
        low: 0,
        high: 5,
        sign: Sign::Plus,
        origin: Origin::Released,
    };
    let down = Step {
        low: 1,
        high: 5,
        sign: Sign::Minus,
        origin: Origin::Released,
    };
    assert_eq!(rt; table[0], up);
    assert_eq!(rt; table[1], down);
    assert_eq!(rt; table[2], BLANK);
}

#[test]
fn longest_chain_has_1023_steps(rt: HostRuntime) {
    let mut links = Links::new();
    for i in 0..1023u16 {
        let _ = links.join(range(i, i + 1));
    }
    let mut table = [BLANK; 1023];
    let len = links.chain(Boundary::at(1023), Boundary::at(0), &mut table);
    links.close();
    assert_eq!(rt; len, Some(1023));
    assert_eq!(rt; table[0].low, 1022);
    assert_eq!(rt; table[1022].low, 0);
}
