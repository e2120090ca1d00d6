// What a call leaves: its answer, the rest of the core, and its register writes where it may have any.
ghost use Rattle.std.specs.Prelude.{◌≡◌};
ghost use Rattle.controller.specs.Words.{unwritten};

use common::answer::Refusal;
use register::writes::Writes;
use words::cores::Rest;

#[derive(Clone, Copy)]
pub struct Left<T> {
    pub answer: Result<T, Refusal>,
    pub rest: Rest,
}

#[derive(Clone, Copy)]
pub struct Settled<T> {
    pub answer: Result<T, Refusal>,
    pub rest: Rest,
    pub writes: Writes,
}

// No register is written.
pub fn unwritten<T>(rest: Rest, answer: Result<T, Refusal>) -> Settled<T>
    ensures { result ≡ unwritten rest answer }
{
    Settled {
        answer,
        rest,
        writes: Writes::none(),
    }
}
