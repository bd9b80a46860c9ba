// The smallest use of a ledger: opens one on a log of nine slots, asks twice, and closes it.
#![tactic(auto)]

use kinds::Wh;
use ledger::{Counts, NewLog, open};
use links::Step;
use ranges::Range;
use rules::Short;
use std::io;
use stores::Plain;

const READING: Wh = Wh { amount: 7 };

// Asks for the sum of all nine slots and then for that of the first two, which is protected: the counts at closing.
fn counted(store: Plain<'_, Wh>, table: &mut [Wh], chain: &mut [Step]) -> Counts {
    let rule = Short::new(3);
    let log = NewLog::begin();
    let (mut ledger, mut amounts) = open(log, table);
    let _ = ledger.query(
        &mut amounts,
        &store,
        &rule,
        Range { low: 0, high: 9 },
        chain,
    );
    let _ = ledger.query(
        &mut amounts,
        &store,
        &rule,
        Range { low: 0, high: 2 },
        chain,
    );
    let counts = ledger.close();
    let _ = amounts.close();
    counts
}

fn main(rt: HostRuntime) -> io::Result<()> {
    let values = [READING; 9];
    let marks = [1; 9];
    let mut table = [READING; 1024];
    let mut chain = [Step::default(); 1023];
    let counts = counted(Plain::new(&values, &marks), &mut table, &mut chain);
    let released = counts.released;
    let withheld = counts.withheld;
    println!(rt; "released {released}, withheld {withheld}")
}
