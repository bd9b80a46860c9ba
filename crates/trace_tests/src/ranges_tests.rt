// Sums of ranges, and all slots of a store listed and packed again.
use kinds::Wh;
use ranges::Range;
use std::test::Fail;
use stores::{Lists, Packed, Plain, RangeFault, Reading, Store, SumFault, list, repack, sum};

#[test]
fn a_range_has_a_sum_or_a_first_lost_slot(rt: HostRuntime) {
    let values = [
        Wh {
            amount: 4_294_967_295,
        },
        Wh { amount: 2 },
        Wh { amount: 3 },
        Wh { amount: 4 },
        Wh { amount: 5 },
    ];
    let marks = [1u8, 1, 0, 2, 1];
    let plain = Plain::new(&values, &marks);
    for (low, high, answer) in [
        (0usize, 2usize, Ok(Wh { amount: 1 })),
        (4, 5, Ok(Wh { amount: 5 })),
        (0, 5, Err(SumFault::Lost(2))),
        (3, 5, Err(SumFault::Lost(3))),
        (2, 2, Err(SumFault::Refused(RangeFault::Empty))),
        (usize::MAX, 5, Err(SumFault::Refused(RangeFault::Empty))),
        (0, 6, Err(SumFault::Refused(RangeFault::BeyondEnd))),
        (6, 6, Err(SumFault::Refused(RangeFault::BeyondEnd))),
        (
            usize::MAX,
            usize::MAX,
            Err(SumFault::Refused(RangeFault::BeyondEnd)),
        ),
    ] {
        assert_eq!(rt; sum(&plain, Range { low, high }), answer);
    }
    assert_eq!(rt; RangeFault::BeyondEnd.number(), 5);
    assert_eq!(rt; RangeFault::Empty.number(), 6);
}

#[test]
fn faults_are_printed(rt: HostRuntime) -> Result<(), Fail> {
    for (fault, text) in [
        (SumFault::Lost(3), "lost slot 3"),
        (
            SumFault::Refused(RangeFault::BeyondEnd),
            "refused 5: ends beyond the last slot",
        ),
        (
            SumFault::Refused(RangeFault::Empty),
            "refused 6: has no slot",
        ),
    ] {
        assert_eq!(rt; format!(in rt.alloc(); "{fault}")?.as_str(), text);
    }
    Ok(())
}

#[test]
fn lists_take_slots_one_by_one(rt: HostRuntime) -> Result<(), Fail> {
    let mut lists = Lists::new(rt.alloc());
    lists.push(Wh { amount: 5 }, 1)?;
    lists.push(Wh { amount: 6 }, 2)?;
    let plain = lists.plain();
    assert_eq!(rt; plain.slots(), 2);
    assert_eq!(rt; plain.read(0), Reading::Value(Wh { amount: 5 }));
    assert_eq!(rt; plain.read(1), Reading::Missing);
    Ok(())
}

// Kept 5, lost, kept 7, and a byte left over.
const THREE: [u8; 16] = [1, 5, 0, 0, 0, 2, 6, 0, 0, 0, 1, 7, 0, 0, 0, 9];

#[test]
fn a_list_answers_as_the_store(rt: HostRuntime) -> Result<(), Fail> {
    let bytes = THREE;
    let packed: Packed<Wh> = Packed::new(&bytes);
    let lists = list(rt.alloc(), &packed)?;
    let plain = lists.plain();
    assert_eq!(rt; plain.slots(), 3);
    for slot in 0..4usize {
        assert_eq!(rt; plain.read(slot), packed.read(slot));
    }
    Ok(())
}

#[test]
fn packing_again_keeps_records_and_clears_lost_ones(rt: HostRuntime) {
    let bytes = THREE;
    let mut again = [8u8; 16];
    assert!(rt; repack::<Wh>(&bytes, &mut again[..15]).is_err());
    assert_eq!(rt; again, [8u8; 16]);
    assert!(rt; repack::<Wh>(&bytes, &mut again).is_ok());
    assert_eq!(rt; again, [1, 5, 0, 0, 0, 0, 0, 0, 0, 0, 1, 7, 0, 0, 0, 8]);
}
