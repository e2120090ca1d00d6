// A transfer descriptor (EHCI 3.5): 000's `QueueTransferDescriptor`, with 01's names for its words.
ghost use Rattle.std.specs.Prelude.{◌≡◌, ◌-◌, ◌≤◌, ◌^◌};
ghost use Rattle.descriptor.specs.Descriptors.{terminated, new_qtd, qtd_with, word_of_next, with_next};

use crate::slots::page_slots;
use token::qtd::QtdToken;

// A next pointer that leads nowhere.
pub const EHCI_LINK_TERMINATE: u32 = 1;

#[repr(C)]
#[derive(Clone, Copy, PartialEq, Eq)]
pub struct QueueTransferDescriptor {
    pub next: u32,
    pub alternate: u32,
    pub token: u32,
    pub pages: [u32; 5],
    pub upper: [u32; 5],
}

// The next pointer to the descriptor at an address; where the chain ends it leads nowhere.
pub fn next_word(next: Option<u32>) -> u32
    ensures { result ≡ word_of_next next }
{
    match next {
        None => EHCI_LINK_TERMINATE,
        Some(address) => address - address % 32,
    }
}

impl QueueTransferDescriptor {
    pub fn terminated() -> QueueTransferDescriptor
        ensures { result ≡ terminated }
    {
        QueueTransferDescriptor {
            next: EHCI_LINK_TERMINATE,
            alternate: EHCI_LINK_TERMINATE,
            token: 0,
            pages: [0; 5],
            upper: [0; 5],
        }
    }

    pub fn new(token: QtdToken, address: u64, length: u64) -> QueueTransferDescriptor
        requires { length ≤ 2 ^ 32 - address }
        ensures { result ≡ new_qtd token address length }
    {
        QueueTransferDescriptor::with_slots(token, page_slots(address, length))
    }

    // The page slots are taken by value, as `page_slots` returns them.
    pub fn with_slots(token: QtdToken, pages: [u32; 5]) -> QueueTransferDescriptor
        ensures { result ≡ qtd_with token pages }
    {
        QueueTransferDescriptor {
            next: EHCI_LINK_TERMINATE,
            alternate: EHCI_LINK_TERMINATE,
            token: token.0,
            pages,
            upper: [0; 5],
        }
    }

    pub fn set_next(mut self, next: Option<u32>) -> QueueTransferDescriptor
        ensures { result ≡ with_next self next }
    {
        self.next = next_word(next);
        self
    }
}
