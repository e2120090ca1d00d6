// A slot's endpoint: the numbers of a slot taken apart, and put together again.
ghost use Rattle.std.specs.Prelude.{◌≡◌};
ghost use Rattle.pipe.specs.Endpoints.{kind_of, kind_number, direction_of, direction_number, pipe_of, request_of, boundary_of, decoded, boundary_number, slot_with, bare_slot, encoded, with_toggle};

use common::kinds::{Direction, EndpointType};
use slot::slot::Slot;

// When an unlinking request may be collected: after so many advances, or 9 micro-frames after a FRINDEX.
#[derive(Clone, Copy)]
pub enum UnlinkBoundary {
    Async(u16),
    Periodic(u16),
}

// The endpoint's kind, its packet size, the data toggle of its next packet, and the id of its next request.
#[derive(Clone, Copy)]
pub struct Pipe {
    pub kind: EndpointType,
    pub size: u16,
    pub toggle: bool,
    pub next: u64,
}

#[derive(Clone, Copy)]
pub struct Request {
    pub id: u64,
    pub direction: Direction,
    pub length: u32,
    pub cancelled: bool,
}

#[derive(Clone, Copy)]
pub enum Endpoint {
    Closed,
    Idle(Pipe),
    Linked(Pipe, Request),
    Unlinking(Pipe, Request, UnlinkBoundary),
}

pub fn kind_of(number: u8) -> EndpointType
    ensures { result ≡ kind_of number }
{
    match number {
        0 => EndpointType::Control,
        1 => EndpointType::Isochronous,
        2 => EndpointType::Bulk,
        _ => EndpointType::Interrupt,
    }
}

pub fn kind_number(kind: EndpointType) -> u8
    ensures { result ≡ kind_number kind }
{
    kind as u8
}

pub fn direction_of(number: u8) -> Direction
    ensures { result ≡ direction_of number }
{
    if number == 0 {
        Direction::Out
    } else {
        Direction::In
    }
}

pub fn direction_number(direction: Direction) -> u8
    ensures { result ≡ direction_number direction }
{
    direction as u8
}

pub fn pipe_of(e: Slot) -> Pipe
    ensures { result ≡ pipe_of e }
{
    Pipe {
        kind: kind_of(e.kind),
        size: e.size,
        toggle: e.toggle != 0,
        next: e.id,
    }
}

pub fn with_toggle(p: Pipe, toggle: bool) -> Pipe
    ensures { result ≡ with_toggle p toggle }
{
    Pipe { toggle, ..p }
}

fn request_of(e: Slot) -> Request
    ensures { result ≡ request_of e }
{
    Request {
        id: e.request,
        direction: direction_of(e.direction),
        length: e.length,
        cancelled: e.cancel != 0,
    }
}

fn boundary_of(e: Slot) -> UnlinkBoundary
    ensures { result ≡ boundary_of e }
{
    if e.kind == 3 {
        UnlinkBoundary::Periodic(e.boundary)
    } else {
        UnlinkBoundary::Async(e.boundary)
    }
}

pub fn decode(e: Slot) -> Endpoint
    ensures { result ≡ decoded e }
{
    match e.phase {
        1 => Endpoint::Idle(pipe_of(e)),
        2 => Endpoint::Linked(pipe_of(e), request_of(e)),
        3 => Endpoint::Unlinking(pipe_of(e), request_of(e), boundary_of(e)),
        _ => Endpoint::Closed,
    }
}

fn boundary_number(boundary: UnlinkBoundary) -> u16
    ensures { result ≡ boundary_number boundary }
{
    match boundary {
        UnlinkBoundary::Async(n) | UnlinkBoundary::Periodic(n) => n,
    }
}

fn slot_with(phase: u8, p: Pipe, r: Request, boundary: u16) -> Slot
    ensures { result ≡ slot_with phase p r boundary }
{
    Slot {
        phase,
        kind: kind_number(p.kind),
        size: p.size,
        toggle: u8::from(p.toggle),
        id: p.next,
        request: r.id,
        direction: direction_number(r.direction),
        length: r.length,
        cancel: u8::from(r.cancelled),
        boundary,
    }
}

fn bare_slot(phase: u8, kind: u8, size: u16, toggle: u8, id: u64) -> Slot
    ensures { result ≡ bare_slot phase kind size toggle id }
{
    Slot {
        phase,
        kind,
        size,
        toggle,
        id,
        request: 0,
        direction: 0,
        length: 0,
        cancel: 0,
        boundary: 0,
    }
}

pub fn encode(e: Endpoint) -> Slot
    ensures { result ≡ encoded e }
{
    match e {
        Endpoint::Closed => bare_slot(0, 0, 0, 0, 1),
        Endpoint::Idle(p) => bare_slot(1, kind_number(p.kind), p.size, u8::from(p.toggle), p.next),
        Endpoint::Linked(p, r) => slot_with(2, p, r, 0),
        Endpoint::Unlinking(p, r, b) => slot_with(3, p, r, boundary_number(b)),
    }
}
