// A store: a controller's core, and the five rows that every call is lent.
ghost use Rattle.store.specs.Tended.{WordsTended};

use descriptor::qtd::QueueTransferDescriptor;
use words::cores::Core;

#[derive(Clone, Copy)]
pub struct Rows {
    pub pool: [QueueTransferDescriptor; 257],
    pub slots: [u64; 192],
    pub heads: [u32; 561],
    pub frames: [u32; 1024],
    pub setups: [u8; 256],
}

// No call is refused for the words alone.
#[derive(Clone, Copy)]
pub struct Store {
    pub core: Core,
    pub rows: Rows,
    pub ghost tended: { WordsTended core rows.slots },
}
