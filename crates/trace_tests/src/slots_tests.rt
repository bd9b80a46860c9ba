// What the slots of each store answer, and what packing one writes.
use kinds::{Dials, Wh};
use std::test::Fail;
use stores::{Packed, Plain, Reading, Store, Window, pack};

#[test]
fn mark_one_alone_is_kept(rt: HostRuntime) {
    for (mark, answer) in [
        (1u8, Reading::Value(Wh { amount: 5 })),
        (0, Reading::Missing),
        (2, Reading::Missing),
        (255, Reading::Missing),
    ] {
        let bytes = [mark, 5, 0, 0, 0];
        let packed: Packed<Wh> = Packed::new(&bytes);
        assert_eq!(rt; packed.read(0), answer);
        let values = [Wh { amount: 5 }];
        let marks = [mark];
        assert_eq!(rt; Plain::new(&values, &marks).read(0), answer);
    }
}

#[test]
fn bytes_left_over_are_no_slot(rt: HostRuntime) {
    let bytes = [1u8, 5, 0, 0, 0, 1, 6, 0, 0];
    for (len, slots) in [(0usize, 0usize), (3, 0), (4, 0), (5, 1), (9, 1)] {
        assert!(rt; len <= 9);
        let packed: Packed<Wh> = Packed::new(&bytes[..len]);
        assert_eq!(rt; packed.slots(), slots);
        assert_eq!(rt; packed.read(slots), Reading::Outside);
    }
}

#[test]
fn dials_beyond_an_end_are_lost(rt: HostRuntime) {
    for (litres, starts, kept) in [
        (9_999u16, 999u16, true),
        (10_000, 0, false),
        (0, 1_000, false),
        (65_535, 65_535, false),
    ] {
        let [l0, l1] = litres.to_le_bytes();
        let [s0, s1] = starts.to_le_bytes();
        let bytes = [1, l0, l1, s0, s1];
        let packed: Packed<Dials> = Packed::new(&bytes);
        let reading = if kept {
            Reading::Value(Dials { litres, starts })
        } else {
            Reading::Missing
        };
        assert_eq!(rt; packed.read(0), reading);
    }
}

#[test]
fn plain_has_the_slots_of_the_shorter_list(rt: HostRuntime) {
    let values = [Wh { amount: 5 }, Wh { amount: 6 }];
    let marks = [1u8, 1, 1];
    let short = Plain::new(&values, &marks[..1]);
    assert_eq!(rt; short.slots(), 1);
    assert_eq!(rt; short.read(1), Reading::Outside);
    let long = Plain::new(&values, &marks);
    assert_eq!(rt; long.slots(), 2);
    assert_eq!(rt; long.read(2), Reading::Outside);
}

// Four slots: 10, lost, 12, 13.
const FOUR: [u8; 20] = [
    1, 10, 0, 0, 0, 0, 0, 0, 0, 0, 1, 12, 0, 0, 0, 1, 13, 0, 0, 0,
];

#[test]
fn windows_reach_no_further_than_the_store(rt: HostRuntime) {
    let bytes = FOUR;
    let packed: Packed<Wh> = Packed::new(&bytes);
    for (start, length, slots) in [
        (0usize, 4usize, 4usize),
        (1, 2, 2),
        (2, 9, 2),
        (4, 1, 0),
        (5, 1, 0),
        (1, usize::MAX, 3),
        (usize::MAX, 0, 0),
        (usize::MAX, usize::MAX, 0),
    ] {
        let window = Window::new(packed, start, length);
        assert_eq!(rt; window.slots(), slots);
        assert_eq!(rt; window.read(slots), Reading::Outside);
        assert_eq!(rt; window.read(usize::MAX), Reading::Outside);
    }
}

#[test]
fn window_over_a_window(rt: HostRuntime) {
    let bytes = FOUR;
    let packed: Packed<Wh> = Packed::new(&bytes);
    let outer = Window::new(packed, 1, 2);
    assert_eq!(rt; outer.read(0), Reading::Missing);
    let inner = Window::new(outer, 1, 9);
    assert_eq!(rt; inner.slots(), 1);
    assert_eq!(rt; inner.read(0), Reading::Value(Wh { amount: 12 }));
    assert_eq!(rt; inner.read(1), Reading::Outside);
    let past = Window::new(inner, usize::MAX, usize::MAX);
    assert_eq!(rt; past.slots(), 0);
    assert_eq!(rt; past.read(0), Reading::Outside);
}

#[test]
fn the_largest_slot_is_outside(rt: HostRuntime) {
    let bytes = FOUR;
    let packed: Packed<Wh> = Packed::new(&bytes);
    assert_eq!(rt; packed.read(usize::MAX), Reading::Outside);
    let values = [Wh { amount: 5 }];
    let marks = [1];
    assert_eq!(rt;
        Plain::new(&values, &marks).read(usize::MAX),
        Reading::Outside
    );
}

#[test]
fn packing_writes_one_record(rt: HostRuntime) {
    let mut bytes = [7u8; 11];
    assert!(rt; pack(&mut bytes, 1, Some(Wh { amount: 258 })).is_ok());
    assert_eq!(rt; bytes, [7, 7, 7, 7, 7, 1, 2, 1, 0, 0, 7]);
    assert!(rt; pack::<Wh>(&mut bytes, 0, None).is_ok());
    assert_eq!(rt; bytes, [0, 0, 0, 0, 0, 1, 2, 1, 0, 0, 7]);
}

#[test]
fn held_dials_pack_as_what_they_mean(rt: HostRuntime) -> Result<(), Fail> {
    let held = Dials {
        litres: 12_000,
        starts: 5,
    };
    let mut bytes = [9u8; 5];
    assert!(rt; pack(&mut bytes, 0, Some(held)).is_ok());
    assert_eq!(rt; bytes, [1, 208, 7, 5, 0]);
    let packed: Packed<Dials> = Packed::new(&bytes);
    let Reading::Value(back) = packed.read(0) else {
        return Err(Fail::new("not kept"));
    };
    assert_eq!(rt; (back.litres, back.starts), (2_000, 5));
    assert_eq!(rt;
        held,
        Dials {
            litres: 2_000,
            starts: 5,
        }
    );
    Ok(())
}

#[test]
fn packing_beyond_the_bytes_is_refused(rt: HostRuntime) -> Result<(), Fail> {
    for (len, slot) in [(9usize, 1usize), (9, 2), (9, usize::MAX), (3, 0), (0, 0)] {
        assert!(rt; len <= 9);
        let mut bytes = [7u8; 9];
        let Err(beyond) = pack(&mut bytes[..len], slot, Some(Wh { amount: 5 })) else {
            return Err(Fail::new("packed"));
        };
        assert_eq!(rt; beyond.number(), 32);
        assert_eq!(rt; bytes, [7u8; 9]);
    }
    Ok(())
}
