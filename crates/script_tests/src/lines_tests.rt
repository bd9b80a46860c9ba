// The lines of the worked sample, byte for byte.
use kinds::{Dials, Wh};
use ledger::{Answer, Counts, Fault, Trial};
use lines::{
    Layer, ScriptFault, answer_line, begin_rehearsed, closed_line, end_rehearsed, fault_line,
    has_room, tally_line, write_number, write_trial,
};
use links::{Origin, Sign, Step};
use ranges::Range;

const COUNTS: Counts = Counts {
    released: 4,
    withheld: 1,
    lost: 1,
    malformed: 1,
};

// Whether so many bytes of a buffer are this text.
fn holds(buffer: &[u8], written: Option<usize>, text: &[u8]) -> bool {
    written.and_then(|n| buffer.get(..n)) == Some(text)
}

#[test]
fn answers_to_queries(rt: HostRuntime) {
    let mut out = [0; 80];
    let chain = [
        Step {
            low: 0,
            high: 5,
            sign: Sign::Plus,
            origin: Origin::New,
        },
        Step {
            low: 1,
            high: 5,
            sign: Sign::Minus,
            origin: Origin::Released,
        },
        Step {
            low: 7,
            high: 8,
            sign: Sign::Plus,
            origin: Origin::Released,
        },
    ];
    let sum = Answer::Released(Wh { amount: 13 });
    let n = answer_line(&mut out, Range { low: 0, high: 4 }, &sum, &chain);
    assert!(rt; holds(&out, n, b"(sum 0 4 (wh 13))\n"));
    let both = Answer::Released(Dials {
        litres: 10_012,
        starts: 3,
    });
    let n = answer_line(&mut out, Range { low: 4, high: 8 }, &both, &chain);
    assert!(rt; holds(&out, n, b"(sum 4 8 (dials 12 3))\n"));
    let withheld: Answer<Wh> = Answer::Withheld(Range { low: 0, high: 1 }, 2);
    let n = answer_line(&mut out, Range { low: 0, high: 5 }, &withheld, &chain);
    assert!(rt;
        holds(
            &out,
            n,
            b"(withheld 0 5 (range 0 1) (chain (+ 0 5 new) (- 1 5)))\n"
        )
    );
    let lost: Answer<Wh> = Answer::LostSlot(8);
    let n = answer_line(&mut out, Range { low: 5, high: 9 }, &lost, &chain);
    assert!(rt; holds(&out, n, b"(lost 5 9 8)\n"));
    let refused: Answer<Wh> = Answer::Refused(Fault::Beyond);
    let n = answer_line(&mut out, Range { low: 2, high: 10 }, &refused, &chain);
    assert!(rt; holds(&out, n, b"(refused 2 10 5)\n"));
}

#[test]
fn answers_to_tries(rt: HostRuntime) {
    let mut out = [0; 80];
    let mut len = begin_rehearsed(&mut out).unwrap_or(80);
    let tries = [
        (4, 8, Trial::Free),
        (0, 5, Trial::Withheld(Range { low: 0, high: 1 })),
        (3, 3, Trial::Refused(Fault::Backward)),
    ];
    for (low, high, trial) in tries {
        if len <= 80 {
            len += write_trial(&mut out[len..], Range { low, high }, trial).unwrap_or(80);
        }
    }
    if len <= 80 {
        len += end_rehearsed(&mut out[len..]).unwrap_or(80);
    }
    assert!(rt;
        holds(
            &out,
            Some(len),
            b"(rehearsed (free 4 8) (withheld 0 5 (range 0 1)) (refused 3 3 6))\n"
        )
    );
}

#[test]
fn counts_faults_and_numbers(rt: HostRuntime) {
    let mut out = [0; 40];
    let n = tally_line(&mut out, COUNTS);
    assert!(rt; holds(&out, n, b"(tally 4 1 1 1)\n"));
    let n = closed_line(&mut out, COUNTS);
    assert!(rt; holds(&out, n, b"(closed 4 1 1 1)\n"));
    let form = ScriptFault {
        line: 12,
        column: 2,
        layer: Layer::Form,
        number: 21,
    };
    let n = fault_line(&mut out, form);
    assert!(rt; holds(&out, n, b"(fault 12 2 form 21)\n"));
    let text = ScriptFault {
        line: 0,
        column: 0,
        layer: Layer::Text,
        number: 11,
    };
    let n = fault_line(&mut out, text);
    assert!(rt; holds(&out, n, b"(fault 0 0 text 11)\n"));
    let n = write_number(&mut out, 18_446_744_073_709_551_615);
    assert!(rt; holds(&out, n, b"18446744073709551615"));
}

#[test]
fn a_short_buffer_holds_no_line(rt: HostRuntime) {
    assert!(rt; tally_line(&mut [0; 15], COUNTS).is_none());
    assert!(rt; has_room(&[0; 16_384]).is_ok());
    match has_room(&[0; 16_383]) {
        Ok(()) => assert!(rt; false, "too short"),
        Err(short) => assert_eq!(rt; short.number(), 31),
    }
}
