// The offer cursor, which each step consumes and returns.
ghost use Rattle.std.specs.Prelude.{◌≡◌};
ghost use Rattle.query.specs.Cursor.{fresh, after, stepped, step_in};
ghost use Rattle.query.specs.Demands.{Demands};

use crate::answer::Answer;
use crate::call;
use font::refusal::Refusal;

// A request and the number of its next offer. Any two numbers make a cursor.
#[derive(Clone, Copy)]
pub struct Cursor {
    pub request: u32,
    pub next: u32,
}

// What a step hands back: the cursor, and the next offer, or why there is none.
#[derive(Clone, Copy)]
pub struct Step {
    pub cursor: Cursor,
    pub answer: Result<Option<Answer>, Refusal>,
}

impl Cursor {
    pub fn new(request: u32) -> Self
        ensures { result ≡ fresh request }
    {
        Self { request, next: 0 }
    }

    // One further where there was an offer.
    fn after(mut self, found: bool) -> Self
        ensures { result ≡ after self found }
    {
        if found {
            self.next = self.next.saturating_add(1);
        }
        self
    }

    // The answer to the cursor's numbers, under a reading.
    pub fn step(mut self, job: &[u8], reading: u32) -> Step
        ensures value { step_in result ≡ stepped job.now reading self }
        ensures demands { Demands job.now }
    {
        let answer = call::offer_at(job, reading, self.request, self.next);
        self = self.after(answer.is_ok_and(|found| found.is_some()));
        Step {
            cursor: self,
            answer,
        }
    }
}
