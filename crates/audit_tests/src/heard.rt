// A listener that keeps the first eight replies of each sort.
use arrayvec::ArrayVec;
use audit::Listener;
use ledger::{Answer, Counts, Trial};
use links::Step;
use std::array;

#[derive(Drop)]
pub struct Heard<K> {
    pub sum: Option<K>,
    numbers: ArrayVec<u8, 8>,
    trials: ArrayVec<u8, 8>,
}

// What is heard of eight, and 0 in place of what is not.
fn eight(heard: &ArrayVec<u8, 8>) -> [u8; 8] {
    array::from_fn(|i| heard.get(i).copied().unwrap_or(0))
}

impl<K: Copy> Heard<K> {
    pub fn nothing() -> Heard<K> {
        Heard {
            sum: None,
            numbers: ArrayVec::new(),
            trials: ArrayVec::new(),
        }
    }

    pub fn numbers(&self) -> [u8; 8] {
        eight(&self.numbers)
    }

    pub fn trials(&self) -> [u8; 8] {
        eight(&self.trials)
    }
}

impl<K: Copy> Listener<K> for Heard<K> {
    ghost hears = { λ _ _ _. Unit {0} };

    fn answered(&mut self, answer: &Answer<K>, _steps: &[Step], _counts: Counts) {
        if let Answer::Released(value) = answer {
            self.sum = Some(*value);
        }
        let _ = self.numbers.try_push(answer.number());
    }

    fn rehearsed(&mut self, trials: &[Trial], _counts: Counts) {
        for trial in trials {
            let _ = self.trials.try_push(trial.number());
        }
    }
}
