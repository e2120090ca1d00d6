// A transfer's records are laid at the places of a set, in order: the stages of a control request, or chunks.
ghost use Rattle.std.specs.Prelude.{◌≡◌, true, false, not, ◌-◌, ◌*◌, ◌≤◌, ◌^◌, length};
ghost use Rattle.bitset.specs.Places.{set_places};
ghost use Rattle.bitset.specs.Rest.{is_none, rest_of};
ghost use Rattle.common.specs.Kinds.{is_control};
ghost use Rattle.pool.specs.Transfers.{alternate_of, next_of, record_at};
ghost use Rattle.pool.specs.Words.{LayingGood, TurnGood, laid_of, next_good, no_laying};

use crate::row::replace;
use crate::transfer::{Transfer, stage_at};
use bitset::cursor::{Cursor, advance, at_end, cursor_of, place_at};
use common::kinds::{Direction, EndpointType, is_control};
use descriptor::qtd::{EHCI_LINK_TERMINATE, QueueTransferDescriptor, next_word};
use descriptor::slots::page_slots;
use token::chunks::chunk_length;
use token::plan::chunk_token;

// `base` is the address of the pool's area.
#[derive(Clone, Copy)]
pub struct Laying {
    pub places: [u64; 4],
    pub base: u64,
    pub transfer: Transfer,
}

pub fn no_laying() -> Laying
    ensures { result ≡ no_laying }
{
    Laying {
        places: [0; 4],
        base: 0,
        transfer: Transfer {
            kind: EndpointType::Control,
            direction: Direction::Out,
            address: 0,
            length: 0,
            limit: 0,
            setup: 0,
            alternate: 0,
        },
    }
}

pub fn more(c: Cursor) -> bool
    ensures { result ≡ not (is_none (rest_of c)) }
{
    !at_end(c)
}

// At the first place.
fn first_place(l: Laying) -> Cursor
    ensures { rest_of result ≡ set_places l.places }
{
    let places = l.places;
    cursor_of(places)
}

// Where the chain goes on: at the cursor's place, nowhere at its end.
fn next_at(base: u64, next: Cursor) -> Option<u32>
    requires { next_good base (rest_of next) }
    ensures { result ≡ next_of base (rest_of next) }
{
    if at_end(next) {
        return None;
    }
    Some((base + 64 * (place_at(next) as u64)) as u32)
}

// The k-th record of a control request; the places to come are those of a cursor.
fn stage_record(l: Laying, k: u32, next: Cursor) -> QueueTransferDescriptor
    requires kind { is_control l.transfer.kind ≡ true }
    requires turn { TurnGood l k (rest_of next) }
    ensures { result ≡ record_at l.transfer k (rest_of next) l.base }
{
    let to = next_at(l.base, next);
    let t = l.transfer;
    let bare = stage_at(t, k as u64);
    bare.set_next(to)
}

// The last descriptor leads nowhere.
fn alternate_of(t: Transfer, last: bool) -> u32
    ensures { result ≡ alternate_of t last }
{
    if last {
        return EHCI_LINK_TERMINATE;
    }
    t.alternate
}

// The k-th record of a request in chunks.
fn chunk_record(l: Laying, k: u32, next: Cursor) -> QueueTransferDescriptor
    requires kind { is_control l.transfer.kind ≡ false }
    requires turn { TurnGood l k (rest_of next) }
    requires starts { k * l.transfer.limit ≤ l.transfer.length }
    ensures { result ≡ record_at l.transfer k (rest_of next) l.base }
{
    let t = l.transfer;
    let limit = t.limit as u32;
    let start = (k as u64) * (limit as u64);
    let bytes = chunk_length(k, t.length, limit);
    let to = next_at(l.base, next);
    let direction = t.direction;
    let last = at_end(next);
    let token = chunk_token(direction, bytes, last);
    QueueTransferDescriptor {
        next: next_word(to),
        alternate: alternate_of(t, last),
        token: token.0,
        pages: page_slots(t.address + start, bytes),
        upper: [0; 5],
    }
}

// `CONTROL` says whether the request is a control one, so that no turn of the loop asks for its kind.
fn next_record<const CONTROL: bool>(l: Laying, k: u32, next: Cursor) -> QueueTransferDescriptor
    requires kind { is_control l.transfer.kind ≡ CONTROL }
    requires turn { TurnGood l k (rest_of next) }
    ensures { result ≡ record_at l.transfer k (rest_of next) l.base }
{
    if CONTROL {
        stage_record(l, k, next)
    } else {
        chunk_record(l, k, next)
    }
}

fn lay_kind<const CONTROL: bool>(rows: &mut [QueueTransferDescriptor], l: Laying)
    requires laying { LayingGood (length rows.old) l }
    requires kind { is_control l.transfer.kind ≡ CONTROL }
    ensures { rows.new ≡ laid_of l rows.old }
{
    let mut at = first_place(l);
    let mut k: u32 = 0;
    while more(at) {
        let place = place_at(at);
        at = advance(at);
        let r = next_record::<CONTROL>(l, k, at);
        replace(rows, place, r);
        k += 1;
    }
}

pub fn lay(rows: &mut [QueueTransferDescriptor], l: Laying)
    requires { LayingGood (length rows.old) l }
    ensures { rows.new ≡ laid_of l rows.old }
{
    if is_control(l.transfer.kind) {
        lay_kind::<true>(rows, l);
    } else {
        lay_kind::<false>(rows, l);
    }
}
