// Queries on a fresh ledger of watt-hours, under a rule that protects nothing.
ghost use Rattle.std.specs.Prelude.{◌≤◌};

use kinds::Wh;
use ledger::{Counts, NewLog, open};
use links::Step;
use ranges::Range;
use rules::Short;
use stores::Plain;

pub const READING: Wh = Wh { amount: 7 };

// Asks a range so many times, and once more, on a log of kept slots with so many distances and chain steps: the number of the last
// answer, and the counts at closing.
pub fn asked_at<const SLOTS: usize, const DISTANCES: usize, const STEPS: usize>(
    before: u32,
    range: Range<u32>,
) -> (u8, Counts)
    requires slots { SLOTS ≤ 1024 }
    requires distances { DISTANCES ≤ 1024 }
    requires steps { STEPS ≤ 1023 }
{
    let values = [READING; SLOTS];
    let marks = [1; SLOTS];
    let mut table = [READING; DISTANCES];
    let mut chain = [Step::default(); STEPS];
    let store = Plain::new(&values, &marks);
    let rule = Short::new(1);
    let (mut ledger, mut amounts) = open(NewLog::begin(), &mut table);
    for _ in 0..before {
        let _ = ledger.query(&mut amounts, &store, &rule, range, &mut chain);
    }
    let answer = ledger.query(&mut amounts, &store, &rule, range, &mut chain);
    let _ = amounts.close();
    (answer.number(), ledger.close())
}
