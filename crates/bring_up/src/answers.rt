// What a start or a step of bring-up answers and leaves.
use common::answer::Refusal;
use register::writes::Writes;
use words::cores::Rest;

// Its writes, then the milliseconds to wait, then the register to read.
#[derive(Clone, Copy)]
pub struct BroughtUp {
    pub answer: Result<(), Refusal>,
    pub rest: Rest,
    pub writes: Writes,
    pub read: Option<u32>,
    pub wait: u32,
}
