// The first line of a block: the record's number, the call's, its answer, and what the answer gives.
ghost use Rattle.std.specs.Prelude.{◌≡◌, Ok, ◌≤◌, [], ◌∷◌, length};
ghost use Rattle.text.specs.Text.{decimal};
ghost use Rattle.ehci.specs.Replies.{event_value};
ghost use Rattle.root_hub.specs.Ports.{port_event_number};
ghost use Rattle.call_log.specs.CallLine.{
  answered_line,
  call_line,
  given_line,
  register_part,
  scan_line,
  step_line,
};
ghost use Rattle.call_log.specs.Lines.{line_bytes, said_line};

use crate::line::{Line, Part};
use common::answer::Refusal;
use ehci::reply::{Answered, Given, event_number};
use interrupt::answers::Event;
use root_hub::ports::{PortEvent, event_port};

// The record's number, the call's, its answer, and what the answer gives.
fn line_with(n: u64, call: u8, answer: u8, values: &[Part]) -> Line
    requires { length values.now ≤ 11 }
    ensures { line_bytes result ≡ said_line 67 (Part.Decimal n ∷ Part.Decimal call ∷ Part.Decimal answer ∷ values.now) }
{
    let mut parts = [Part::Dash; 14];
    parts[0] = Part::Decimal(n);
    parts[1] = Part::Decimal(call as u64);
    parts[2] = Part::Decimal(answer as u64);
    let end = 3 + values.len();
    parts[3..end].copy_from_slice(values);
    Line::of(b'C', &parts[..end])
}

// An answer that gives nothing.
fn bare_line(n: u64, call: u8, answer: u8) -> Line
    ensures { line_bytes result ≡ call_line n call answer [] }
{
    line_with(n, call, answer, &[])
}

// One number with 0.
fn line_with_one(n: u64, call: u8, value: u64) -> Line
    ensures { line_bytes result ≡ call_line n call 0 (decimal value ∷ []) }
{
    line_with(n, call, 0, &[Part::Decimal(value)])
}

fn event_value(event: Event) -> u64
    ensures { result ≡ event_value event }
{
    match event {
        Event::Nothing => 0,
        Event::PortChange => 0,
        Event::TransferActivity => 1,
        Event::Stopped => 0,
    }
}

// Two numbers with 0: the event and its value, of a drain; the length and how many were retried, of a collect.
fn line_with_two(n: u64, call: u8, first: u64, second: u64) -> Line
    ensures { line_bytes result ≡ call_line n call 0 (decimal first ∷ decimal second ∷ []) }
{
    line_with(n, call, 0, &[Part::Decimal(first), Part::Decimal(second)])
}

fn register_part(read: Option<u32>) -> Part
    ensures { result ≡ register_part read }
{
    match read {
        None => Part::Dash,
        Some(offset) => Part::Byte(offset),
    }
}

// The register to read next, the milliseconds to wait, the event and its port.
fn step_line(n: u64, call: u8, read: Part, wait: u32, event: u8, port: u8) -> Line
    ensures { line_bytes result ≡ said_line 67 (Part.Decimal n ∷ Part.Decimal call ∷ Part.Decimal 0 ∷ read ∷ Part.Decimal wait ∷ Part.Decimal event ∷ Part.Decimal port ∷ []) }
{
    line_with(
        n,
        call,
        0,
        &[
            read,
            Part::Decimal(wait as u64),
            Part::Decimal(event as u64),
            Part::Decimal(port as u64),
        ],
    )
}

fn given_line(n: u64, call: u8, given: Given) -> Line
    ensures { line_bytes result ≡ given_line n call given }
{
    match given {
        Given::Nothing => bare_line(n, call, 0),
        Given::Slot(slot) => line_with_one(n, call, slot as u64),
        Given::Address(address) => line_with_one(n, call, address as u64),
        Given::Id(id) => line_with_one(n, call, id),
        Given::Length(length, retried) => line_with_two(n, call, length, retried as u64),
        Given::No => line_with_one(n, call, 0),
        Given::Yes => line_with_one(n, call, 1),
        Given::Event(event) => line_with_two(n, call, event_number(event), event_value(event)),
        Given::Next(read, wait) => step_line(n, call, register_part(read), wait, 0, 0),
    }
}

fn answer_line(n: u64, call: u8, answer: Answered) -> Line
    ensures { line_bytes result ≡ answered_line n call (Ok answer) }
{
    match answer {
        Answered::Done(given) => given_line(n, call, given),
        Answered::Pending => bare_line(n, call, 9),
        Answered::Cancelled => bare_line(n, call, 10),
        Answered::Failed(token) => line_with(n, call, 11, &[Part::Word(token)]),
    }
}

pub fn call_line(n: u64, call: u8, answered: Result<Answered, Refusal>) -> Line
    ensures { line_bytes result ≡ answered_line n call answered }
{
    match answered {
        Ok(answer) => answer_line(n, call, answer),
        Err(refusal) => bare_line(n, call, refusal.number()),
    }
}

fn port_event_number(event: Option<PortEvent>) -> u8
    ensures { result ≡ port_event_number event }
{
    match event {
        None => 0,
        Some(PortEvent::Connected(_, _)) => 1,
        Some(PortEvent::Disconnected(_)) => 2,
    }
}

// A scan's start or step, or port power, which reads nothing next and has no event.
pub fn scan_line(
    n: u64,
    call: u8,
    answer: Result<(), Refusal>,
    read: Option<u32>,
    wait: u32,
    event: Option<PortEvent>,
) -> Line
    ensures { line_bytes result ≡ scan_line n call answer read wait event }
{
    match answer {
        Ok(()) => step_line(
            n,
            call,
            register_part(read),
            wait,
            port_event_number(event),
            event_port(event),
        ),
        Err(refusal) => bare_line(n, call, refusal.number()),
    }
}
