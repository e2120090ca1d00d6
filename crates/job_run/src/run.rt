// A job's calls, one after the other: the endpoint records are opened, then the requests are submitted.
ghost use Rattle.std.specs.Prelude.{◌≡◌, ◌<◌, length};
ghost use Rattle.job_sheet.specs.Few.{items};
ghost use Rattle.job_run.specs.Runs.{
  slot_told,
  id_told,
  open_call,
  open_step,
  opened_to,
  kind_for,
  slot_for,
  submit_call,
  submit_step,
  submitted_to,
  run_of,
};
ghost use Rattle.job_run.specs.Words.{ran_view};

use crate::controller_of::running_store;
use common::answer::Refusal;
use common::kinds::EndpointType;
use controller::lent::Readings;
use ehci::call::{Call, EndpointFields};
use ehci::reply::{Answered, Given, answered_number};
use job_sheet::few::Few;
use job_sheet::outcome::{Opened, Submitted, slot_of};
use job_sheet::record::{EndpointRecord, RequestRecord};
use job_sheet::sheet::Job;
use pipe::endpoints::{direction_of, kind_of};
use request::judge::TransferRequest;
use store::store::{Store, call_on};

// No slot has this number.
pub const NO_SLOT: u8 = 255;

// What the endpoint records and the requests came to so far, and the store then.
#[derive(Clone, Copy)]
pub struct Ran {
    pub store: Store,
    pub opened: Few<Opened, 8>,
    pub submitted: Few<Submitted, 64>,
}

fn slot_told(answer: Result<Answered, Refusal>) -> Option<u8>
    ensures { result ≡ slot_told answer }
{
    match answer {
        Ok(Answered::Done(Given::Slot(slot))) => Some(slot),
        _ => None,
    }
}

fn id_told(answer: Result<Answered, Refusal>) -> Option<u64>
    ensures { result ≡ id_told answer }
{
    match answer {
        Ok(Answered::Done(Given::Id(id))) => Some(id),
        _ => None,
    }
}

fn open_call(e: EndpointRecord) -> Call
    ensures { result ≡ open_call e }
{
    Call::OpenEndpoint(EndpointFields {
        kind: kind_of(e.kind),
        address: e.address,
        number: e.number,
        packet: e.packet,
    })
}

fn open_step(ran: &mut Ran, e: EndpointRecord)
    requires { length (items ran.old.opened) < 8 }
    ensures { ran_view ran.new ≡ open_step (ran_view ran.old) e }
{
    let called = call_on(ran.store, open_call(e));
    ran.store = called.store;
    ran.opened.push(Opened {
        answer: answered_number(called.answer),
        slot: slot_told(called.answer),
    });
}

fn open_all(ran: &mut Ran, job: &Job)
    requires { length (items ran.old.opened) ≡ 0 }
    ensures { ran_view ran.new ≡ opened_to (length (items job.now.endpoints)) (ran_view ran.old) job.now }
{
    let endpoints = job.endpoints.as_slice();
    for e in endpoints {
        open_step(ran, *e);
    }
}

// Its record's kind; a record that is not there is refused whatever the kind.
fn kind_for(job: &Job, place: u8) -> EndpointType
    ensures { result ≡ kind_for job.now place }
{
    match job.endpoints.as_slice().get(place as usize) {
        Some(e) => kind_of(e.kind),
        None => EndpointType::Control,
    }
}

// The slot that its record's opening gave.
fn slot_for(opened: &[Opened], place: u8) -> u8
    ensures { result ≡ slot_for opened.now place }
{
    slot_of(opened, place).unwrap_or(NO_SLOT)
}

fn submit_call(job: &Job, slot: u8, t: RequestRecord) -> Call
    ensures { result ≡ submit_call job.now slot t }
{
    let request = TransferRequest {
        kind: kind_for(job, t.endpoint),
        direction: direction_of(t.direction),
        setup: t.setup,
        address: t.buffer,
        length: t.length as u64,
    };
    let readings = Readings {
        command: 0,
        frame: 0,
        overlay: 0,
    };
    Call::Submit(slot, request, readings)
}

fn submit_step(ran: &mut Ran, job: &Job, t: RequestRecord)
    requires { length (items ran.old.submitted) < 64 }
    ensures { ran_view ran.new ≡ submit_step (ran_view ran.old) job.now t }
{
    let slot = slot_for(ran.opened.as_slice(), t.endpoint);
    let called = call_on(ran.store, submit_call(job, slot, t));
    ran.store = called.store;
    ran.submitted.push(Submitted {
        slot,
        answer: answered_number(called.answer),
        id: id_told(called.answer),
    });
}

fn submit_all(ran: &mut Ran, job: &Job)
    requires { length (items ran.old.submitted) ≡ 0 }
    ensures { ran_view ran.new ≡ submitted_to (length (items job.now.requests)) (ran_view ran.old) job.now }
{
    let requests = job.requests.as_slice();
    for t in requests {
        submit_step(ran, job, *t);
    }
}

pub fn run(job: &Job) -> Ran
    ensures { ran_view result ≡ run_of job.now }
{
    let mut ran = Ran {
        store: running_store(),
        opened: Few::new(),
        submitted: Few::new(),
    };
    open_all(&mut ran, job);
    submit_all(&mut ran, job);
    ran
}
