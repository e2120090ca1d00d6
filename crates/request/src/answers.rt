// What submit and writeback answer and leave, and what is then written to the pool.
use common::answer::Refusal;
use pool::laying::Laying;
use pool::marking::Mark;
use register::writes::Writes;
use words::cores::Rest;

#[derive(Clone, Copy)]
pub struct Submitted {
    pub answer: Result<u64, Refusal>,
    pub rest: Rest,
    pub writes: Writes,
    pub laying: Laying,
}

#[derive(Clone, Copy)]
pub struct WrittenBack {
    pub answer: Result<(), Refusal>,
    pub rest: Rest,
    pub marking: Option<Mark>,
}
