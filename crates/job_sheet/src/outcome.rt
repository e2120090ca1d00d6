// What the run of a job came to, and the whole listing of it.
ghost use Rattle.std.specs.Prelude.{◌≡◌, ◌+◌, ◌*◌, ◌≤◌, length};
ghost use Rattle.common.specs.Rows.{put_at};
ghost use Rattle.text.specs.Text.{only_if};
ghost use Rattle.job_sheet.specs.Listing.{descriptor_line};
ghost use Rattle.job_sheet.specs.Outcomes.{
  place_lines,
  slot_of,
  answered_lines,
  request_lines,
  endpoint_lines,
  listing_of,
};

use crate::few::Few;
use crate::listing::{put_descriptor, put_endpoint, put_request};
use descriptor::qtd::QueueTransferDescriptor;

// An endpoint record's answer, and its slot if one was opened.
#[derive(Clone, Copy, Default)]
pub struct Opened {
    pub answer: u8,
    pub slot: Option<u8>,
}

// The slot that a request was submitted on, the answer, and the id if it was accepted.
#[derive(Clone, Copy, Default)]
pub struct Submitted {
    pub slot: u8,
    pub answer: u8,
    pub id: Option<u64>,
}

// Of each endpoint record and each request what it came to, and the pool at the end with each place's owner (slot + 1).
#[derive(Clone, Copy)]
pub struct Outcome {
    pub opened: Few<Opened, 8>,
    pub submitted: Few<Submitted, 64>,
    pub owner: [u8; 256],
    pub pool: [QueueTransferDescriptor; 257],
}

// None where the record is not there, or was not opened.
pub fn slot_of(opened: &[Opened], k: u8) -> Option<u8>
    ensures { result ≡ slot_of opened.now k }
{
    opened.get(k as usize)?.slot
}

// A place's line, if the place is the slot's.
fn put_place(out: &mut [u8], at: usize, p: u64, shown: bool, d: QueueTransferDescriptor) -> usize
    requires { at + 86 ≤ length out.old }
    ensures out_after { out.new ≡ put_at out.old at (only_if shown (descriptor_line p d)) }
    ensures value { result ≡ at + length (only_if shown (descriptor_line p d)) }
    ensures upper_bound { result ≤ at + 86 }
{
    if shown {
        put_descriptor(out, at, p, d)
    } else {
        at
    }
}

// Chain order is that of the places. A request on no slot, 255, has none: no place has owner 256.
fn put_places(out: &mut [u8], at: usize, slot: u8, outcome: &Outcome) -> usize
    requires { at + 16 * 86 ≤ length out.old }
    ensures out_after { out.new ≡ put_at out.old at (place_lines outcome.now.owner outcome.now.pool slot) }
    ensures value { result ≡ at + length (place_lines outcome.now.owner outcome.now.pool slot) }
    ensures upper_bound { result ≤ at + 16 * 86 }
{
    let mark = slot as u64 + 1;
    let mut next = at;
    for p in 0..16 {
        let shown = outcome.owner[p] as u64 == mark;
        next = put_place(out, next, p as u64, shown, outcome.pool[p]);
    }
    next
}

// A request's R line, and its D lines if it was accepted.
fn put_answered(out: &mut [u8], at: usize, k: u64, s: Submitted, outcome: &Outcome) -> usize
    requires { at + (65 + 16 * 86) ≤ length out.old }
    ensures out_after { out.new ≡ put_at out.old at (answered_lines outcome.now k s) }
    ensures value { result ≡ at + length (answered_lines outcome.now k s) }
    ensures upper_bound { result ≤ at + (65 + 16 * 86) }
{
    if s.answer == 0 {
        let next = put_request(out, at, k, 0, s.id.unwrap_or(0));
        put_places(out, next, s.slot, outcome)
    } else {
        put_request(out, at, k, s.answer as u64, 0)
    }
}

fn put_requests(out: &mut [u8], at: usize, outcome: &Outcome) -> usize
    requires { at + 64 * (65 + 16 * 86) ≤ length out.old }
    ensures out_after { out.new ≡ put_at out.old at (request_lines outcome.now) }
    ensures value { result ≡ at + length (request_lines outcome.now) }
    ensures upper_bound { result ≤ at + 64 * (65 + 16 * 86) }
{
    let mut next = at;
    let submitted = outcome.submitted.as_slice();
    for (k, s) in submitted.iter().enumerate() {
        next = put_answered(out, next, k as u64, *s, outcome);
    }
    next
}

fn put_endpoints(out: &mut [u8], at: usize, opened: &[Opened]) -> usize
    requires { (length opened.now ≤ 8) × (at + 8 * 44 ≤ length out.old) }
    ensures out_after { out.new ≡ put_at out.old at (endpoint_lines opened.now) }
    ensures value { result ≡ at + length (endpoint_lines opened.now) }
    ensures upper_bound { result ≤ at + 8 * 44 }
{
    let mut next = at;
    for (k, o) in opened.iter().enumerate() {
        next = put_endpoint(out, next, k as u64, o.answer as u64);
    }
    next
}

// All E lines, then each request's R line and its D lines.
pub fn put_listing(out: &mut [u8], at: usize, outcome: &Outcome) -> usize
    requires { at + (8 * 44 + 64 * (65 + 16 * 86)) ≤ length out.old }
    ensures out_after { out.new ≡ put_at out.old at (listing_of outcome.now) }
    ensures value { result ≡ at + length (listing_of outcome.now) }
    ensures upper_bound { result ≤ at + (8 * 44 + 64 * (65 + 16 * 86)) }
{
    let next = put_endpoints(out, at, outcome.opened.as_slice());
    put_requests(out, next, outcome)
}
