// A ledger of watt-hours asked queries in a row, for programs that measure it. Ranges come as numbers, two to a range.
#![tactic(auto)]

use kinds::Wh;
use ledger::{Amounts, Answer, Ledger, NewLog, open};
use links::Step;
use ranges::Range;
use rules::{Joined, Rule, Short, Spans};
use std::array;
use stores::Plain;

const SLOTS: usize = 1023;

// Stays: numbers below 1,024, and numbers to be mixed, cut by `as` where the check proves that they fit.
// A number that depends on all that an answer tells.
fn digest(answer: &Answer<Wh>) -> u32 {
    match answer {
        Answer::Released(value) => value.amount,
        Answer::Withheld(pair, steps) => {
            (pair.low as u32 * 1024 + pair.high as u32)
                .wrapping_mul(1024)
                .wrapping_add((*steps % 1024) as u32)
        }
        Answer::LostSlot(slot) => (*slot % 1024) as u32,
        Answer::Refused(fault) => u32::from(fault.number()),
    }
}

// A ledger in use: what its queries are asked with, and the number that all answers are mixed into.
struct Asked<'a> {
    ledger: Ledger,
    amounts: Amounts<'a, Wh>,
    store: Plain<'a, Wh>,
    chain: [Step; 1023],
    sum: u32,
}

impl Asked<'_> {
    // Asks each range, and mixes the answers in.
    fn ask<R: Rule>(&mut self, rule: &R, ranges: &[u32]) {
        let Asked {
            ledger,
            amounts,
            store,
            chain,
            sum,
        } = self;
        for &[low, high] in ranges.as_chunks::<2>().0 {
            let answer = ledger.query(amounts, store, rule, Range { low, high }, chain);
            *sum = sum.wrapping_mul(31).wrapping_add(digest(&answer));
        }
    }
}

// The readings of the log: any values will do.
fn readings() -> [Wh; SLOTS] {
    array::from_fn(|i| Wh {
        amount: (i as u32).wrapping_mul(2_654_435_761),
    })
}

// The first 32 of the listed ranges, and (0, 0) where there are fewer.
fn listed(ranges: &[u32]) -> [Range<u32>; 32] {
    let mut list = [Range { low: 0, high: 0 }; 32];
    for (range, &[low, high]) in list.iter_mut().zip(ranges.as_chunks::<2>().0) {
        *range = Range { low, high };
    }
    list
}

// Opens a ledger over 1,023 kept slots, asks the `early` ranges under a rule that protects nothing, then the `late` ones under `short k`,
// joined with the listed spans where there are some, and mixes all answers into one number.
#[unsafe(no_mangle)]
pub extern "C" fn ledger_bench(early: &[u32], k: u32, spans: &[u32], late: &[u32]) -> u32 {
    let values = readings();
    let mut table = [Wh { amount: 0 }; 1024];
    let (ledger, amounts) = open(NewLog::begin(), &mut table);
    let mut asked = Asked {
        ledger,
        amounts,
        store: Plain::new(&values, &[1; SLOTS]),
        chain: [Step::default(); 1023],
        sum: 0,
    };
    asked.ask(&Short::new(1), early);
    let short = Short::new(k);
    if spans.is_empty() {
        asked.ask(&short, late);
    } else {
        let list = listed(spans);
        asked.ask(&Joined::new(short, Spans::new(&list)), late);
    }
    let Asked {
        ledger,
        amounts,
        sum,
        store: _,
        chain: _,
    } = asked;
    let _ = amounts.close();
    sum.wrapping_mul(31).wrapping_add(ledger.close().total())
}
