// A sheet's bytes read: its job, unless it is bad.
ghost use Rattle.std.specs.Prelude.{◌≡◌, ◌+◌, ◌*◌, ◌≤◌, length, option_map, IfSome};
ghost use Rattle.job_sheet.specs.Few.{few_of, items};
ghost use Rattle.job_sheet.specs.Reading.{counts_of, endpoints_of, requests_of, sheet_of};
ghost use Rattle.job_sheet.specs.Sheets.{no_endpoint, no_request};

use crate::few::Few;
use crate::record::{EndpointRecord, RequestRecord, read_endpoint, read_request};
use text::number::number16;

#[derive(Clone, Copy)]
pub struct Job {
    pub endpoints: Few<EndpointRecord, 8>,
    pub requests: Few<RequestRecord, 64>,
}

#[derive(Clone, Copy)]
struct Counts {
    pub endpoints: usize,
    pub requests: usize,
}

// They are within their limits, and the sheet is as long as they say.
fn read_counts(bytes: &[u8]) -> Option<Counts>
    ensures { result ≡ counts_of bytes.now }
{
    if bytes.len() < 4 {
        return None;
    }
    let endpoints = number16(bytes, 0) as usize;
    let middle = 2 + 6 * endpoints;
    if bytes.len() < middle + 2 {
        return None;
    }
    let requests = number16(bytes, middle) as usize;
    let whole = middle + 2 + 20 * requests;
    if endpoints <= 8 && requests <= 64 && bytes.len() == whole {
        Some(Counts {
            endpoints,
            requests,
        })
    } else {
        None
    }
}

fn read_endpoints(bytes: &[u8], count: usize) -> Option<Few<EndpointRecord, 8>>
    requires { (count ≤ 8) × (2 + 6 * count ≤ length bytes.now) }
    ensures { result ≡ option_map (few_of 8 no_endpoint) (endpoints_of bytes.now count) }
{
    let mut endpoints = Few::new();
    for i in 0..count {
        endpoints.push(read_endpoint(bytes, 2 + 6 * i)?);
    }
    Some(endpoints)
}

fn read_requests(
    bytes: &[u8],
    endpoints: &[EndpointRecord],
    count: usize,
) -> Option<Few<RequestRecord, 64>>
    requires few { (length endpoints.now ≤ 8) × (count ≤ 64) }
    requires whole { 4 + 6 * length endpoints.now + 20 * count ≤ length bytes.now }
    ensures { result ≡ option_map (few_of 64 no_request) (requests_of bytes.now endpoints.now count) }
{
    let first = 4 + 6 * endpoints.len();
    let mut requests = Few::new();
    for i in 0..count {
        requests.push(read_request(bytes, first + 20 * i, endpoints)?);
    }
    Some(requests)
}

pub fn read_sheet(bytes: &[u8]) -> Option<Job>
    ensures value { result ≡ sheet_of bytes.now }
    ensures few { IfSome result (λ job. (length (items job.endpoints) ≤ 8) × (length (items job.requests) ≤ 64)) }
{
    let counts = read_counts(bytes)?;
    let endpoints = read_endpoints(bytes, counts.endpoints)?;
    let requests = read_requests(bytes, endpoints.as_slice(), counts.requests)?;
    Some(Job {
        endpoints,
        requests,
    })
}
