// What an exported call answers, in numbers.
ghost use Rattle.std.specs.Prelude.{◌≡◌};
ghost use Rattle.bench_port.specs.Numbers.{register_number, given_number, value_of, given_other, other_of, offsets_of, values_of, pack_of};

use common::answer::Refusal;
use ehci::reply::{Answered, Given, Reply, answered_number, event_number};
use interrupt::answers::Event;
use register::writes::{Write, Writes};
use words::cores::Rest;

// Beyond every register's offset.
pub const NO_REGISTER: u64 = 0x1_0000_0000;

// `value` is what goes with the number, 0 where nothing does; `other` is what goes with it besides. Of bring-up they are the register to read
// next and the wait before it, of a complete collect the length and how many descriptors were retried.
#[repr(C)]
#[derive(Clone, Copy)]
pub struct Replied {
    pub rest: Rest,
    pub number: u8,
    pub count: u32,
    pub value: u64,
    pub other: u64,
    pub offsets: [u32; 6],
    pub values: [u32; 6],
}

fn register_number(read: Option<u32>) -> u64
    ensures { result ≡ register_number read }
{
    match read {
        None => NO_REGISTER,
        Some(offset) => offset as u64,
    }
}

fn given_number(given: Given) -> u64
    ensures { result ≡ given_number given }
{
    match given {
        Given::Nothing => 0,
        Given::Slot(slot) => slot as u64,
        Given::Address(address) => address as u64,
        Given::Id(id) => id,
        Given::Length(length, _) => length,
        Given::No => 0,
        Given::Yes => 1,
        Given::Event(event) => event_number(event),
        Given::Next(read, _) => register_number(read),
    }
}

fn value_of(answer: Result<Answered, Refusal>) -> u64
    ensures { result ≡ value_of answer }
{
    match answer {
        Ok(Answered::Done(given)) => given_number(given),
        Ok(Answered::Pending) => 0,
        Ok(Answered::Cancelled) => 0,
        Ok(Answered::Failed(token)) => token as u64,
        Err(_) => 0,
    }
}

fn given_other(given: Given) -> u64
    ensures { result ≡ given_other given }
{
    match given {
        Given::Nothing => 0,
        Given::Slot(_) => 0,
        Given::Address(_) => 0,
        Given::Id(_) => 0,
        Given::Length(_, retried) => retried as u64,
        Given::No => 0,
        Given::Yes => 0,
        Given::Event(_) => 0,
        Given::Next(_, wait) => wait as u64,
    }
}

fn other_of(answer: Result<Answered, Refusal>) -> u64
    ensures { result ≡ other_of answer }
{
    match answer {
        Ok(Answered::Done(given)) => given_other(given),
        Ok(Answered::Pending) => 0,
        Ok(Answered::Cancelled) => 0,
        Ok(Answered::Failed(_)) => 0,
        Err(_) => 0,
    }
}

fn offsets_of(w: [Write; 6]) -> [u32; 6]
    ensures { result ≡ offsets_of w }
{
    [
        w[0].offset,
        w[1].offset,
        w[2].offset,
        w[3].offset,
        w[4].offset,
        w[5].offset,
    ]
}

fn values_of(w: [Write; 6]) -> [u32; 6]
    ensures { result ≡ values_of w }
{
    [
        w[0].value, w[1].value, w[2].value, w[3].value, w[4].value, w[5].value,
    ]
}

pub fn pack(rest: Rest, answer: Result<Answered, Refusal>, writes: Writes) -> Replied
    ensures { result ≡ pack_of rest answer writes }
{
    let list = writes.writes;
    Replied {
        rest,
        number: answered_number(answer),
        count: writes.count,
        value: value_of(answer),
        other: other_of(answer),
        offsets: offsets_of(list),
        values: values_of(list),
    }
}

pub fn pack_reply(reply: Reply) -> Replied
    ensures { result ≡ pack_of reply.rest reply.answer reply.writes }
{
    pack(reply.rest, reply.answer, reply.writes)
}
