// Distances on examples, at each kind.
ghost use Rattle.std.specs.Prelude.{◌≡◌, ◌<◌};

use crate::distances::Distances;
use kinds::{Dials, Kind, Toggles, Wh};
use links::{Boundary, Links};
use ranges::Range;
use std::test::Fail;

fn boundary(number: u32) -> Boundary
    requires { number < 1024 }
    ensures { result.index ≡ number }
{
    Boundary::try_from(number).unwrap()
}

fn range(low: u32, high: u32) -> Range<Boundary>
    requires low { low < 1024 }
    requires high { high < 1024 }
{
    Range {
        low: boundary(low),
        high: boundary(high),
    }
}

// What lies between boundaries after (0, 4) and (1, 4) joined with the given sums: from 0 to 1, from 1 to 0, and from 0 to 9.
fn between<K: Kind>(table: &mut [K], first: K, second: K) -> (Option<K>, Option<K>, Option<K>) {
    let mut links = Links::new();
    let mut distances = Distances::open(table);
    let _ = distances.join(&mut links, range(0, 4), first);
    let _ = distances.join(&mut links, range(1, 4), second);
    let up = distances.between(&links, boundary(0), boundary(1));
    let down = distances.between(&links, boundary(1), boundary(0));
    let unlinked = distances.between(&links, boundary(0), boundary(9));
    let _ = distances.close();
    links.close();
    (up, down, unlinked)
}

#[test]
fn wh_sums_between(rt: HostRuntime) -> Result<(), Fail> {
    let mut table = [Wh { amount: 77 }; 1024];
    let (up, down, unlinked) = between(&mut table, Wh { amount: 13 }, Wh { amount: 12 });
    assert_eq!(rt; up.ok_or("linked")?.amount, 1);
    assert_eq!(rt; down.ok_or("linked")?.amount, 4294967295);
    assert!(rt; unlinked.is_none());
    Ok(())
}

#[test]
fn toggles_sums_between(rt: HostRuntime) -> Result<(), Fail> {
    let mut table = [Toggles { mask: 77 }; 1024];
    let (up, down, unlinked) = between(&mut table, Toggles { mask: 6 }, Toggles { mask: 3 });
    assert_eq!(rt; up.ok_or("linked")?.mask, 5);
    assert_eq!(rt; down.ok_or("linked")?.mask, 5);
    assert!(rt; unlinked.is_none());
    Ok(())
}

#[test]
fn dials_sums_between(rt: HostRuntime) -> Result<(), Fail> {
    let mut table = [Dials {
        litres: 77,
        starts: 77,
    }; 1024];
    let (up, down, unlinked) = between(
        &mut table,
        Dials {
            litres: 1,
            starts: 1,
        },
        Dials {
            litres: 3,
            starts: 3,
        },
    );
    let up = up.ok_or("linked")?;
    let down = down.ok_or("linked")?;
    assert_eq!(rt; (up.litres, up.starts), (9998, 998));
    assert_eq!(rt; (down.litres, down.starts), (2, 2));
    assert!(rt; unlinked.is_none());
    Ok(())
}

#[test]
fn short_tables_join_nothing(rt: HostRuntime) {
    let mut table = [Wh { amount: 77 }; 1023];
    let (up, down, unlinked) = between(&mut table, Wh { amount: 13 }, Wh { amount: 12 });
    assert!(rt; up.is_none());
    assert!(rt; down.is_none());
    assert!(rt; unlinked.is_none());
    assert_eq!(rt; table[1022].amount, 0);
}

#[test]
fn long_tables_open_as_zero(rt: HostRuntime) {
    let mut table = [Wh { amount: 77 }; 1030];
    let distances = Distances::open(&mut table);
    let len = distances.len();
    let _ = distances.close();
    assert_eq!(rt; len, 1030);
    assert_eq!(rt; table[1029].amount, 0);
}
