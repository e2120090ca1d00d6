// A request's k-th descriptor.
ghost use Rattle.std.specs.Prelude.{◌≡◌, ◌-◌, ◌≤◌, ◌^◌};
ghost use Rattle.pool.specs.Transfers.{alternate_word, ends_short, requested_at, stage_of_place};

use common::kinds::{Direction, EndpointType, is_control};
use descriptor::qtd::{EHCI_LINK_TERMINATE, QueueTransferDescriptor};
use token::chunks::chunk_length;
use token::plan::build_control_td_plan;

// `setup` is the address of the slot's setup packet, `alternate` the alternate word of all but the last descriptor.
#[derive(Clone, Copy)]
pub struct Transfer {
    pub kind: EndpointType,
    pub direction: Direction,
    pub address: u64,
    pub length: u64,
    pub limit: u64,
    pub setup: u64,
    pub alternate: u32,
}

// Whether a request ends with its first short descriptor.
pub fn ends_short(kind: EndpointType, direction: Direction) -> bool
    ensures { result ≡ ends_short kind direction }
{
    match direction {
        Direction::Out => false,
        Direction::In => !is_control(kind),
    }
}

// Where a short descriptor leads that is not the last: to the shared one, or nowhere.
pub fn alternate_word(kind: EndpointType, direction: Direction, shared: u32) -> u32
    ensures { result ≡ alternate_word kind direction shared }
{
    if ends_short(kind, direction) {
        return shared;
    }
    EHCI_LINK_TERMINATE
}

// The bytes of the buffer that descriptor k is for.
pub fn requested(kind: EndpointType, length: u64, limit: u32, k: u32) -> u64
    ensures { result ≡ requested_at kind length limit k }
{
    match kind {
        EndpointType::Control => { if k == 1 { length } else { 0 } }
        _ => chunk_length(k, length, limit),
    }
}

// Setup, data if there is any, status.
pub fn stage_at(t: Transfer, k: u64) -> QueueTransferDescriptor
    requires length_bound { t.length ≤ 2 ^ 32 - t.address }
    requires bound { 8 ≤ 2 ^ 32 - t.setup }
    ensures { result ≡ stage_of_place t k }
{
    let direction = t.direction;
    let plan = build_control_td_plan(direction, t.length);
    if k == 0 {
        return QueueTransferDescriptor::new(plan.setup, t.setup, 8);
    }
    let data = plan.data;
    let status = plan.status;
    match data {
        None => QueueTransferDescriptor::new(status, 0, 0),
        Some(token) => {
            if k == 1 {
                QueueTransferDescriptor::new(token, t.address, t.length)
            } else {
                QueueTransferDescriptor::new(status, 0, 0)
            }
        }
    }
}
