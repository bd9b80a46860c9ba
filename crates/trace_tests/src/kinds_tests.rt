// The kinds at their ends: addition, inverses, equality, and rows of a wrong length.
use kinds::{Dials, Kind, KindName, NamedKind, Toggles, UnknownKind, Wh};
use std::process::Abort;
use std::test::Fail;

#[test]
fn additions_come_round(rt: HostRuntime) {
    let wh = Wh {
        amount: 4_294_967_295,
    }
    .plus(Wh { amount: 1 });
    assert_eq!(rt; wh.amount, 0);
    let toggles = Toggles { mask: 1 }.plus(Toggles { mask: 3 });
    assert_eq!(rt; toggles.mask, 2);
    let dials = Dials {
        litres: 9_999,
        starts: 999,
    }
    .plus(Dials {
        litres: 1,
        starts: 1,
    });
    assert_eq!(rt; (dials.litres, dials.starts), (0, 0));
}

fn cancels<K: Kind>(x: K) -> bool {
    x.plus(x.inverse()) == K::zero()
}

#[test]
fn inverses_add_to_zero(rt: HostRuntime) {
    for amount in [0u32, 1, 4_294_967_295] {
        assert!(rt; cancels(Wh { amount }));
    }
    for mask in [0u16, 1, 65_535] {
        assert!(rt; cancels(Toggles { mask }));
    }
    for (litres, starts) in [(0u16, 0u16), (1, 999), (12_000, 5), (65_535, 65_535)] {
        assert!(rt; cancels(Dials { litres, starts }));
    }
}

#[test]
fn numbers_end_at_their_limits(rt: HostRuntime) {
    assert!(rt; Wh::read_numbers(&[4_294_967_295]).is_some());
    for (mask, read) in [(65_535u32, true), (65_536, false)] {
        assert_eq!(rt; Toggles::read_numbers(&[mask]).is_some(), read);
    }
    for (litres, starts, read) in [
        (9_999u32, 999u32, true),
        (10_000, 999, false),
        (9_999, 1_000, false),
    ] {
        assert_eq!(rt; Dials::read_numbers(&[litres, starts]).is_some(), read);
    }
}

// Every row of another length is turned back, and left as it was.
fn keeps_other_lengths<K: Kind>(rt: &impl Abort, value: K) {
    for len in 0..7usize {
        let mut bytes = [7u8; 6];
        if len != usize::from(K::BYTES) {
            assert!(rt; value.write_bytes(&mut bytes[..len]).is_err());
            assert!(rt; K::read_bytes(&[7u8; 6][..len]).is_none());
        }
        assert_eq!(rt; bytes, [7u8; 6]);
        let mut numbers = [7u32; 6];
        if len != usize::from(K::NUMBERS) {
            assert!(rt; value.write_numbers(&mut numbers[..len]).is_err());
            assert!(rt; K::read_numbers(&[7u32; 6][..len]).is_none());
        }
        assert_eq!(rt; numbers, [7u32; 6]);
    }
}

#[test]
fn rows_of_another_length_are_turned_back(rt: HostRuntime) {
    keeps_other_lengths(&rt, Wh { amount: 5 });
    keeps_other_lengths(&rt, Toggles { mask: 5 });
    keeps_other_lengths(
        &rt,
        Dials {
            litres: 5,
            starts: 5,
        },
    );
}

#[test]
fn values_are_printed_as_their_numbers(rt: HostRuntime) -> Result<(), Fail> {
    let wh = Wh {
        amount: 4_294_967_295,
    };
    assert_eq!(rt; format!(in rt.alloc(); "{wh}")?.as_str(), "4294967295");
    let toggles = Toggles { mask: 258 };
    assert_eq!(rt; format!(in rt.alloc(); "{toggles}")?.as_str(), "258");
    let dials = Dials {
        litres: 12_000,
        starts: 5,
    };
    assert_eq!(rt; format!(in rt.alloc(); "{dials}")?.as_str(), "2000 5");
    Ok(())
}

#[test]
fn kinds_are_named_by_their_words(rt: HostRuntime) -> Result<(), Fail> {
    for (kind, word) in [
        (Wh::NAME, "wh"),
        (Toggles::NAME, "toggles"),
        (Dials::NAME, "dials"),
    ] {
        assert_eq!(rt; format!(in rt.alloc(); "{kind}")?.as_str(), word);
        assert_eq!(rt; word.parse::<KindName>(), Ok(kind));
    }
    assert_eq!(rt; "Wh".parse::<KindName>(), Err(UnknownKind));
    Ok(())
}
