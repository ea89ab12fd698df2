//! Where a client waits.

use crate::answer::Answer;
use std::sync::{Condvar, Mutex, Wait};

/// Where a client waits for an answer.
#[derive(Drop)]
pub(crate) struct Place {
    answer: Mutex<Option<Answer>>,
    changed: Condvar,
}

impl Place {
    /// With no answer. Takes no memory.
    pub fn new() -> Place {
        Place {
            answer: Mutex::new(None),
            changed: Condvar::new(),
        }
    }

    /// Waits for the answer.
    pub fn wait<R: Wait>(&self, rt: &R) -> Answer {
        let answer = self.answer.lock(rt);
        let mut answer = self
            .changed
            .wait_while(rt, answer, |answer: &mut Option<Answer>| answer.is_none());
        match answer.take() {
            Some(answer) => answer,
            // It waited until there was one.
            None => Answer::Late,
        }
    }

    /// Hands over the answer.
    pub fn tell<R: Wait>(&self, rt: &R, told: Answer) {
        let mut answer = self.answer.lock(rt);
        *answer = Some(told);
        drop(answer);
        self.changed.notify_one();
    }
}
