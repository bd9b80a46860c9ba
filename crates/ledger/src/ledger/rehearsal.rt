// A rehearsal: which ranges of a list would be released, on links that then stand as before.
ghost use Rattle.std.specs.Prelude.{◌≡◌, ◌<◌, ◌≤◌, min, map, length, take, drop, IfOk, Some, None, MatchResult, OnOk};
ghost use Rattle.links.specs.Joined.{joined};
ghost use Rattle.links.specs.Rings.{Acyclic};
ghost use Rattle.ledger.specs.Machine.{Tried, Rehearsed, try_fault};
ghost use Rattle.ledger.specs.Truth.{OneRehearsal};
ghost use Rattle.ledger.specs.Tries.{try_of};

use super::Ledger;
use crate::answer::Trial;
use crate::ends::ends_tried;
use crate::trying::Try;
use judgement::{Finding, judge};
use links::Provisional;
use rules::Rule;

// What a try answers; one that is free joins until the rehearsal ends.
fn attempt<R: Rule>(links: &mut Provisional<'_>, tried: &Try<R>) -> Trial
    ensures tried { Tried (joined links.old.links.now) (try_of R.Rule.protects R.Rule.ordered tried.now) result (joined links.new.links.now) }
    ensures stays { links.new.links.ghost_name ≡ links.old.links.ghost_name }
    ensures saved { links.new.saved ≡ links.old.saved }
{
    // Stays: an answer is no `Result`, so that no `?` gives it.
    let ends = match ends_tried(tried) {
        Ok(ends) => ends,
        Err(fault) => return Trial::Refused(fault),
    };
    match judge(links.links(), &tried.rule, ends) {
        Finding::Linked => Trial::Free,
        Finding::Withheld(pair) => Trial::Withheld(pair),
        Finding::Free => {
            let _ = links.join(ends);
            Trial::Free
        }
    }
}

impl Ledger {
    // Tries the ranges one after another, each judged by what has joined and by the tries found free before it, and writes each answer at
    // its place in the table. It ends with the tries or with the table, and answers how many were made. Nothing is counted, and the ledger
    // stands as before.
    pub fn rehearse<R: Rule>(&mut self, tries: &[Try<R>], trials: &mut [Trial]) -> usize
        ensures many { result ≡ min (length tries.now) (length trials.old) }
        ensures tried { Rehearsed (joined self.old.links) (map (try_of R.Rule.protects R.Rule.ordered) (take result tries.now)) (take result trials.new) }
        ensures rest { drop result trials.new ≡ drop result trials.old }
        ensures same { self.new ≡ self.old }
        ensures exact { OneRehearsal }
        ensures acyclic { Acyclic (joined self.old.links) }
    {
        let mut links = Provisional::over(&mut self.links);
        let made = tries.len().min(trials.len());
        for (i, tried) in tries[..made].iter().enumerate() {
            // Stays: behind `iter_mut` of a zip no fact says what was written at each place.
            trials[i] = attempt(&mut links, tried);
        }
        made
    }
}
