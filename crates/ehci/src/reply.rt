// What any call answers and leaves, and what is then written to the pool.
ghost use Rattle.std.specs.Prelude.{◌≡◌};
ghost use Rattle.ehci.specs.WordsDecides.{replied_words, refused_reply_words, changed_words, settled_words, brought_words, laid_only, marked_only};
ghost use Rattle.ehci.specs.Replies.{answered_number, event_number, simply, opened_answer, allotted_answer, submitted_answer, collected_answer, acknowledged_answer, drained_answer, brought_answer};

use bring_up::answers::BroughtUp;
use collection::collected::Collected;
use common::answer::Refusal;
use controller::left::Settled;
use interrupt::answers::Event;
use pool::laying::{Laying, no_laying};
use pool::marking::Mark;
use pool::writing::{Writing, no_writing};
use register::writes::Writes;
use words::cores::Rest;

// What goes with the number 0.
#[derive(Clone, Copy)]
pub enum Given {
    Nothing,
    Slot(u8),
    Address(u8),
    Id(u64),
    // The bytes that were moved, and how many descriptors were retried.
    Length(u64, u16),
    No,
    Yes,
    Event(Event),
    // The register to read next, after so many milliseconds.
    Next(Option<u32>, u32),
}

#[derive(Clone, Copy)]
pub enum Answered {
    Done(Given),
    Pending,
    Cancelled,
    Failed(u32),
}

// The number of an answer, by document 01's table.
pub fn answered_number(answer: Result<Answered, Refusal>) -> u8
    ensures { result ≡ answered_number answer }
{
    match answer {
        Ok(Answered::Done(_)) => 0,
        Ok(Answered::Pending) => 9,
        Ok(Answered::Cancelled) => 10,
        Ok(Answered::Failed(_)) => 11,
        Err(refusal) => refusal.number(),
    }
}

#[derive(Clone, Copy)]
pub struct Reply {
    pub rest: Rest,
    pub answer: Result<Answered, Refusal>,
    pub writes: Writes,
}

// What is decided before the pool is written: the reply, and what to write.
#[derive(Clone, Copy)]
pub struct Decided {
    pub reply: Reply,
    pub writing: Writing,
}

// The number of a drain's event.
pub fn event_number(event: Event) -> u64
    ensures { result ≡ event_number event }
{
    match event {
        Event::Nothing => 0,
        Event::PortChange => 1,
        Event::TransferActivity => 2,
        Event::Stopped => 3,
    }
}

pub fn simple(answer: Result<(), Refusal>) -> Result<Answered, Refusal>
    ensures { result ≡ simply answer }
{
    answer.map(|()| Answered::Done(Given::Nothing))
}

pub fn opened_answer(answer: Result<u8, Refusal>) -> Result<Answered, Refusal>
    ensures { result ≡ opened_answer answer }
{
    answer.map(|slot| Answered::Done(Given::Slot(slot)))
}

pub fn allotted_answer(answer: Result<u8, Refusal>) -> Result<Answered, Refusal>
    ensures { result ≡ allotted_answer answer }
{
    answer.map(|address| Answered::Done(Given::Address(address)))
}

pub fn submitted_answer(answer: Result<u64, Refusal>) -> Result<Answered, Refusal>
    ensures { result ≡ submitted_answer answer }
{
    answer.map(|id| Answered::Done(Given::Id(id)))
}

pub fn collected_answer(answer: Result<Collected, Refusal>) -> Result<Answered, Refusal>
    ensures { result ≡ collected_answer answer }
{
    answer.map(|collected| match collected {
        Collected::Complete(done) => Answered::Done(Given::Length(done.length, done.retried)),
        Collected::Pending => Answered::Pending,
        Collected::Cancelled => Answered::Cancelled,
        Collected::Failed(token) => Answered::Failed(token),
    })
}

pub fn acknowledged_answer(answer: Result<bool, Refusal>) -> Result<Answered, Refusal>
    ensures { result ≡ acknowledged_answer answer }
{
    answer.map(|own| Answered::Done(if own { Given::Yes } else { Given::No }))
}

pub fn drained_answer(answer: Result<Event, Refusal>) -> Result<Answered, Refusal>
    ensures { result ≡ drained_answer answer }
{
    answer.map(|event| Answered::Done(Given::Event(event)))
}

pub fn brought_answer(
    answer: Result<(), Refusal>,
    read: Option<u32>,
    wait: u32,
) -> Result<Answered, Refusal>
    ensures { result ≡ brought_answer answer read wait }
{
    answer.map(|()| Answered::Done(Given::Next(read, wait)))
}

// A transfer's records are written, and no token.
pub fn laid(laying: Laying) -> Writing
    ensures { result ≡ laid_only laying }
{
    Writing {
        laying,
        marking: None,
    }
}

// A token is written, and no transfer's records.
pub fn marked(marking: Option<Mark>) -> Writing
    ensures { result ≡ marked_only marking }
{
    Writing {
        laying: no_laying(),
        marking,
    }
}

// Nothing of the pool is written.
pub fn leave(rest: Rest, answer: Result<Answered, Refusal>, writes: Writes) -> Decided
    ensures { result ≡ replied_words rest answer writes }
{
    Decided {
        reply: Reply {
            rest,
            answer,
            writes,
        },
        writing: no_writing(),
    }
}

pub fn refused(rest: Rest, refusal: Refusal) -> Decided
    ensures { result ≡ refused_reply_words rest refusal }
{
    leave(rest, Err(refusal), Writes::none())
}

// The rest of the core stays.
pub fn of_change(rest: Rest, answer: Result<(), Refusal>) -> Decided
    ensures { result ≡ changed_words (record { answer = answer; rest = rest }) }
{
    leave(rest, simple(answer), Writes::none())
}

pub fn of_settled(x: Settled<()>) -> Decided
    ensures { result ≡ settled_words x }
{
    leave(x.rest, simple(x.answer), x.writes)
}

pub fn of_brought_up(b: BroughtUp) -> Decided
    ensures { result ≡ brought_words b }
{
    leave(b.rest, brought_answer(b.answer, b.read, b.wait), b.writes)
}
