// What cancel and collect answer.
ghost use Rattle.std.specs.Prelude.{◌≡◌};
ghost use Rattle.collection.specs.Answers.{collected_number, pending_of, outcome_of};

use common::answer::Refusal;
use pool::chain::View;

// What a request that is complete gives: how many bytes were moved, and how many of its descriptors went through only in a retry.
#[derive(Clone, Copy)]
pub struct Completion {
    pub length: u64,
    pub retried: u16,
}

#[derive(Clone, Copy)]
pub enum Collected {
    Complete(Completion),
    Pending,
    Cancelled,
    Failed(u32),
}

pub fn collected_number(answer: Result<Collected, Refusal>) -> u8
    ensures { result ≡ collected_number answer }
{
    match answer {
        Ok(Collected::Complete(_)) => 0,
        Ok(Collected::Pending) => 9,
        Ok(Collected::Cancelled) => 10,
        Ok(Collected::Failed(_)) => 11,
        Err(refusal) => refusal.number(),
    }
}

// The answer of a collect that unlinks.
pub fn pending_of(answer: Result<(), Refusal>) -> Result<Collected, Refusal>
    ensures { result ≡ pending_of answer }
{
    match answer {
        Ok(()) => Ok(Collected::Pending),
        Err(refusal) => Err(refusal),
    }
}

// The answer of a collect whose boundary has passed.
pub fn outcome_of(cancelled: bool, view: View) -> Result<Collected, Refusal>
    ensures { result ≡ outcome_of cancelled view }
{
    if cancelled {
        return Ok(Collected::Cancelled);
    }
    let failed = view.failed;
    if failed != 0 {
        return Ok(Collected::Failed(failed));
    }
    Ok(Collected::Complete(Completion {
        length: view.moved,
        retried: view.retried,
    }))
}
