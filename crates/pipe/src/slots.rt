// A slot's endpoint, read from the lent row of words and put there.
ghost use Rattle.std.specs.Prelude.{◌≡◌, ◌+◌, ◌*◌, ◌≤◌, length};
ghost use Rattle.words.specs.Good.{Good};
ghost use Rattle.token.specs.Chunks.{working_limit};
ghost use Rattle.words.specs.Record.{SlotFits, last_at, put_slot, slot_in, word_at};
ghost use Rattle.words.specs.View.{view};
ghost use Rattle.pipe.specs.Endpoints.{encoded, endpoint_at, pipe_of};

use crate::endpoints::{Endpoint, Pipe, decode, encode, pipe_of};
use token::chunks::working_limit;
use words::cores::Core;
use words::row::{put_slot, slot_at};

// A slot number beyond the row is that of a closed slot.
pub fn endpoint_at(core: Core, slots: &[u64], k: u8) -> Endpoint
    requires { Good core.settings core.rest slots.now }
    ensures { result ≡ endpoint_at (view core slots.now) k }
{
    decode(slot_at(slots, k))
}

// The kind, the packet size and the next id of a slot, whatever its phase.
pub fn pipe_at(slots: &[u64], k: u8) -> Pipe
    ensures { result ≡ pipe_of (slot_in (word_at slots.now k) (last_at slots.now k)) }
{
    pipe_of(slot_at(slots, k))
}

// The limit of an endpoint's chunks.
pub fn limit_of(limit: u64, p: Pipe) -> u64
    ensures { result ≡ working_limit p.kind limit p.size }
{
    working_limit(p.kind, limit, p.size as u64)
}

// The slot's endpoint is replaced, its places stay.
pub fn put_endpoint(slots: &mut [u64], k: u8, e: Endpoint)
    requires k_in_bounds { 6 * k + 6 ≤ length slots.old }
    requires slot_fits { SlotFits (encoded e) }
    ensures { slots.new ≡ put_slot slots.old k (encoded e) }
{
    put_slot(slots, k, encode(e));
}
