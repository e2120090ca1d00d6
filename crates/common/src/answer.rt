// The refusals of document 01's table, with their numbers. A result that is no refusal has its own type with its call.
ghost use Rattle.std.specs.Prelude.{◌≡◌};
ghost use Rattle.common.specs.Answers.{refusal_number, number_of};

#[derive(Clone, Copy)]
pub enum Refusal {
    InvalidParameter,
    SlotLimitReached,
    InvalidEndpoint,
    QueueFull,
    NotSupported,
    NoMemory,
    Timeout,
    NotReady,
}

impl Refusal {
    pub fn number(self) -> u8
        ensures { result ≡ refusal_number self }
    {
        match self {
            Refusal::InvalidParameter => 1,
            Refusal::SlotLimitReached => 2,
            Refusal::InvalidEndpoint => 3,
            Refusal::QueueFull => 4,
            Refusal::NotSupported => 5,
            Refusal::NoMemory => 6,
            Refusal::Timeout => 7,
            Refusal::NotReady => 8,
        }
    }
}

// The number of an answer that gives no value.
pub fn number_of(answer: Result<(), Refusal>) -> u8
    ensures { result ≡ number_of answer }
{
    match answer {
        Ok(()) => 0,
        Err(refusal) => refusal.number(),
    }
}
