// Descriptors, setup packets, heads and links, the tables of EHCI 2.3 and the writes of an answer.
use crate::Record;
use crate::out::{bytes, low_byte, low_word, word, words};
use crate::tokens::kind;
use common::kinds::EndpointType;
use descriptor::head;
use descriptor::head::QueueHead;
use descriptor::qtd::{QueueTransferDescriptor, next_word};
use descriptor::setup::setup_packet_bytes;
use register::operational;
use register::writes::{Write, Writes};
use token::port::EhciPortStatus;
use token::qtd::QtdToken;

// A buffer ends here at most.
const TOP: u64 = 0x1_0000_0000;

fn thirteen(d: QueueTransferDescriptor) {
    word(d.next);
    word(d.alternate);
    word(d.token);
    words(&d.pages);
    words(&d.upper);
}

// Fresh, and with a next one. A buffer that would end above 2^32 has no descriptor.
fn descriptor(token: QtdToken, address: u64, length: u64, next: u32) {
    if length == 0 {
        thirteen(QueueTransferDescriptor::new(token, address, 0));
    } else if address <= TOP {
        if length <= TOP - address {
            let d = QueueTransferDescriptor::new(token, address, length);
            thirteen(d.set_next(Some(next)));
        }
    }
}

fn setup(setup: u64, length: u64) {
    bytes(&setup_packet_bytes(setup, length));
}

// Each number is in its range: the remainders are for the proof.
fn opened(kind: EndpointType, address: u64, number: u64, packet: u64) {
    let a = (address % 128) as u8;
    let n = (number % 16) as u8;
    let p = (packet % 1025) as u16;
    words(&QueueHead::endpoint(kind, a, n, p).words());
}

// The ring head at an address, the words that lead to a head and to a descriptor there, and nowhere.
fn ring(address: u32) {
    words(&QueueHead::async_head(address).words());
    word(head::ehci_qh_link(address));
    word(next_word(Some(address)));
    word(next_word(None));
}

// The order of a head's words: here each word is its own place.
fn order() {
    let row = QueueHead {
        link: 0,
        characteristics: 1,
        capabilities: 2,
        current: 3,
        overlay: QueueTransferDescriptor {
            next: 4,
            alternate: 5,
            token: 6,
            pages: [7, 8, 9, 10, 11],
            upper: [12, 13, 14, 15, 16],
        },
    }
    .words();
    words(&row);
}

fn tables() {
    words(&operational::offset_table());
    words(&operational::usbcmd_table());
    words(&operational::usbsts_table());
    words(&operational::usbintr_table());
    words(&EhciPortStatus::table());
}

fn write(w: Write) {
    word(w.offset);
    word(w.value);
}

// The writes of an answer as they grow: the count, and every place.
fn six(w: Writes) {
    word(w.count);
    for each in &w.writes {
        write(*each);
    }
}

fn grown(value: u32) {
    let none = Writes::none();
    let one = none.and_then(operational::CTRLDSSEGMENT, value);
    let two = one.and_then(operational::PERIODICLISTBASE, 0x0030_0000);
    let three = two.and_then(operational::ASYNCLISTADDR, 0x0020_0000);
    let four = three.and_then(operational::CONFIGFLAG, 1);
    let five = four.and_then(operational::USBSTS, 0x3f);
    six(none);
    six(three);
    six(five.and_then(operational::USBCMD, 0xffff_ffff));
}

fn offset(port: u8) {
    if 1 <= port {
        word(operational::port_offset(port));
    }
}

pub fn head_line(record: Record) {
    let Record {
        function,
        a,
        b,
        c,
        d,
    } = record;
    match function {
        10 => descriptor(QtdToken(low_word(a)), b, c, low_word(d)),
        11 => setup(a, b),
        12 => opened(kind(a), b, c, d),
        13 => ring(low_word(a)),
        14 => word(head::set_device_address(low_word(a), low_byte(b))),
        15 => word(head::set_max_packet_size(low_word(a), low_byte(b))),
        16 => offset(low_byte(a)),
        17 => grown(low_word(a)),
        18 => tables(),
        _ => order(),
    }
}
