// The chunks of a bulk or interrupt request, and the number of descriptors that a request needs.
ghost use Rattle.std.specs.Prelude.{◌≡◌, ◌-◌, ◌%◌, ◌≤◌};
ghost use Rattle.token.specs.Chunks.{chunk_at, chunk_count, need_of, working_limit};

use common::kinds::EndpointType;

// As many bytes as whole packets of this size have; none at size 0.
fn whole_packets(limit: u64, size: u64) -> u64
    ensures { result ≡ limit - limit % size }
{
    if size == 0 {
        return 0;
    }
    limit - limit % size
}

// The limit of an endpoint's chunks: no packet but a request's last is short. A control request has no chunks.
pub fn working_limit(kind: EndpointType, limit: u64, size: u64) -> u64
    ensures { result ≡ working_limit kind limit size }
{
    match kind {
        EndpointType::Control => limit,
        _ => whole_packets(limit, size),
    }
}

pub fn chunk_count(length: u64, limit: u64) -> u64
    requires { 1 ≤ limit }
    ensures { result ≡ chunk_count length limit }
{
    if length == 0 {
        return 1;
    }
    (length - 1) / limit + 1
}

// The number of descriptors that a request takes.
pub fn need(kind: EndpointType, length: u64, limit: u64) -> u64
    requires { 1 ≤ limit }
    ensures { result ≡ need_of kind length limit }
{
    match kind {
        EndpointType::Control => { if length == 0 { 2 } else { 3 } }
        _ => chunk_count(length, limit),
    }
}

// Chunk k's length, k from 0; 0 from the count on, and at limit 0. Two numbers of 32 bits have a product of 64.
pub fn chunk_length(k: u32, length: u64, limit: u32) -> u64
    ensures { result ≡ chunk_at k length limit }
{
    let start = (k as u64) * (limit as u64);
    if start < length {
        return (limit as u64).min(length - start);
    }
    0
}
