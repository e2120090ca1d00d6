// What cancel and collect leave where they change nothing.
ghost use Rattle.std.specs.Prelude.{◌≡◌};
ghost use Rattle.collection.specs.Words.{refused_cancel_words, refused_collect_words, pending_words};

use crate::collected::Collected;
use common::answer::Refusal;
use controller::left::{Settled, unwritten};
use words::cores::Rest;

pub fn refuse_cancel(rest: Rest, refusal: Refusal) -> Settled<()>
    ensures { result ≡ refused_cancel_words rest refusal }
{
    unwritten(rest, Err(refusal))
}

pub fn refuse_collect(rest: Rest, refusal: Refusal) -> Settled<Collected>
    ensures { result ≡ refused_collect_words rest refusal }
{
    unwritten(rest, Err(refusal))
}

pub fn still_pending(rest: Rest) -> Settled<Collected>
    ensures { result ≡ pending_words rest }
{
    unwritten(rest, Ok(Collected::Pending))
}
