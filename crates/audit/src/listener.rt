// Who is told the replies to a list of calls.
ghost use Rattle.audit.specs.Runs.{Reply};

use ledger::{Answer, Counts, Trial};
use links::Step;

// A listener means what hearing a reply makes of it. It is told each reply in turn, with the counts after the call.
pub trait Listener<K> {
    ghost hears: { Self → Reply K → Self → Type 0 };

    // The answer to a query, and its table of chain steps afterwards: where the query is withheld, the chain stands first there.
    fn answered(&mut self, answer: &Answer<K>, steps: &[Step], counts: Counts)
        ensures { hears self.old (Reply.Answered answer.now steps.now counts) self.new };

    // The answers to the tries of a rehearsal.
    fn rehearsed(&mut self, trials: &[Trial], counts: Counts)
        ensures { hears self.old (Reply.Tried trials.now counts) self.new };
}
