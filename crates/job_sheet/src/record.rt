// One record of a sheet.
ghost use Rattle.std.specs.Prelude.{◌≡◌, ◌+◌, ◌≤◌, length};
ghost use Rattle.job_sheet.specs.Reading.{endpoint_at, endpoint_record, is_control, request_at, request_record};
ghost use Rattle.job_sheet.specs.Sheets.{no_endpoint, no_request};

use common::kinds::KIND_MAX;
use text::number::{number16, number32, number48, number64};

// The kind is a number, as in the bytes: a record is read whatever they are.
#[derive(Clone, Copy)]
pub struct EndpointRecord {
    pub kind: u8,
    pub address: u8,
    pub number: u8,
    pub packet: u16,
}

// What the places of a list that are not yet used hold.
impl Default for EndpointRecord {
    ghost is_default = { λ e. e ≡ no_endpoint };

    fn default() -> EndpointRecord {
        EndpointRecord {
            kind: 0,
            address: 0,
            number: 0,
            packet: 0,
        }
    }
}

// The direction is a number too. The six setup bytes are one number, byte 0 lowest.
#[derive(Clone, Copy)]
pub struct RequestRecord {
    pub endpoint: u8,
    pub direction: u8,
    pub setup: u64,
    pub buffer: u64,
    pub length: u32,
}

impl Default for RequestRecord {
    ghost is_default = { λ r. r ≡ no_request };

    fn default() -> RequestRecord {
        RequestRecord {
            endpoint: 0,
            direction: 0,
            setup: 0,
            buffer: 0,
            length: 0,
        }
    }
}

pub fn endpoint_at(bytes: &[u8], at: usize) -> EndpointRecord
    requires { at + 6 ≤ length bytes.now }
    ensures { result ≡ endpoint_at bytes.now at }
{
    EndpointRecord {
        kind: bytes[at],
        address: bytes[at + 1],
        number: bytes[at + 2],
        packet: number16(bytes, at + 4),
    }
}

// A kind that there is, and 0 in the byte that must be 0.
pub fn read_endpoint(bytes: &[u8], at: usize) -> Option<EndpointRecord>
    requires { at + 6 ≤ length bytes.now }
    ensures { result ≡ endpoint_record bytes.now at }
{
    let kind = bytes[at];
    let zero = bytes[at + 3];
    if kind > KIND_MAX || zero != 0 {
        return None;
    }
    Some(endpoint_at(bytes, at))
}

// Whether the record is there, and control.
pub fn is_control(endpoints: &[EndpointRecord], k: u8) -> bool
    ensures { result ≡ is_control endpoints.now k }
{
    match endpoints.get(k as usize) {
        Some(e) => e.kind == 0,
        None => false,
    }
}

pub fn request_at(bytes: &[u8], at: usize) -> RequestRecord
    requires { at + 20 ≤ length bytes.now }
    ensures { result ≡ request_at bytes.now at }
{
    RequestRecord {
        endpoint: bytes[at],
        direction: bytes[at + 1],
        setup: number48(bytes, at + 2),
        buffer: number64(bytes, at + 8),
        length: number32(bytes, at + 16),
    }
}

// A direction that there is, and no setup bytes unless the endpoint is control.
pub fn read_request(bytes: &[u8], at: usize, endpoints: &[EndpointRecord]) -> Option<RequestRecord>
    requires { at + 20 ≤ length bytes.now }
    ensures { result ≡ request_record bytes.now endpoints.now at }
{
    let endpoint = bytes[at];
    let direction = bytes[at + 1];
    let setup = number48(bytes, at + 2);
    if direction > 1 {
        return None;
    }
    if setup != 0 && !is_control(endpoints, endpoint) {
        return None;
    }
    Some(request_at(bytes, at))
}
