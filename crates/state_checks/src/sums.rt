// One word over many: the sum so far times a prime, plus the next, modulo 2^32.
use descriptor::qtd::QueueTransferDescriptor;
use opening::hub::EhciRootHub;
use words::cores::Core;

const PRIME: u32 = 16777619;

// What is summed: a word, or some words one after the other.
pub trait Summed {
    fn after(&self, sum: u32) -> u32;
}

impl Summed for u32 {
    fn after(&self, sum: u32) -> u32 {
        sum.wrapping_mul(PRIME).wrapping_add(*self)
    }
}

impl Summed for u8 {
    fn after(&self, sum: u32) -> u32 {
        u32::from(*self).after(sum)
    }
}

// The lower half, then the upper.
impl Summed for u64 {
    fn after(&self, sum: u32) -> u32 {
        let low = (*self % 0x1_0000_0000) as u32;
        let high = (*self / 0x1_0000_0000) as u32;
        high.after(low.after(sum))
    }
}

impl Summed for QueueTransferDescriptor {
    fn after(&self, sum: u32) -> u32 {
        let first = self.token.after(self.alternate.after(self.next.after(sum)));
        row_sum(row_sum(first, &self.pages), &self.upper)
    }
}

pub fn row_sum<T: Summed>(sum: u32, row: &[T]) -> u32 {
    let mut all = sum;
    for value in row {
        all = value.after(all);
    }
    all
}

// Each of the core's numbers as one of 64 bits.
pub fn core_sum(core: Core) -> u32 {
    let settings = core.settings;
    let rest = core.rest;
    let numbers = [
        settings.descriptors,
        settings.endpoints as u64,
        settings.ports as u64,
        settings.limit,
        settings.wait,
        settings.pool,
        settings.heads,
        settings.frames,
        settings.setups,
        rest.running as u64,
        rest.step as u64,
        rest.waited,
        rest.address as u64,
        rest.enabled as u64,
        rest.pending as u64,
        rest.masked as u64,
        rest.noted as u64,
        rest.doorbell as u64,
        rest.unanswered as u64,
    ];
    row_sum(row_sum(0, &numbers), &rest.free)
}

pub fn hub_sum(hub: EhciRootHub) -> u32 {
    let states = row_sum(hub.ports.after(0), &hub.states);
    hub.step.after(hub.port.after(states))
}
