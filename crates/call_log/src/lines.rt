// The lines of a block but the first: rows, ports, the controller, register writes.
ghost use Rattle.std.specs.Prelude.{◌≡◌, [], ◌∷◌};
ghost use Rattle.call_log.specs.Lines.{
  frame_line,
  head_line,
  line_bytes,
  port_line,
  record_line,
  said_line,
  setup_line,
  shown_line,
  write_line,
};
ghost use Rattle.call_log.specs.Words.{shown_in};

use crate::line::{Line, Part};
use controller::readers::free_count;
use descriptor::qtd::QueueTransferDescriptor;
use words::cores::Core;

pub fn line_of_two(letter: u8, a: Part, b: Part) -> Line
    ensures { line_bytes result ≡ said_line letter (a ∷ b ∷ []) }
{
    Line::of(letter, &[a, b])
}

pub fn line_of_three(letter: u8, a: Part, b: Part, c: Part) -> Line
    ensures { line_bytes result ≡ said_line letter (a ∷ b ∷ c ∷ []) }
{
    Line::of(letter, &[a, b, c])
}

pub fn head_line(place: u64, word: u64, value: u32) -> Line
    ensures { line_bytes result ≡ head_line place word value }
{
    line_of_three(
        b'H',
        Part::Decimal(place),
        Part::Decimal(word),
        Part::Word(value),
    )
}

pub fn frame_line(first: u64, last: u64, value: u32) -> Line
    ensures { line_bytes result ≡ frame_line first last value }
{
    line_of_three(
        b'F',
        Part::Decimal(first),
        Part::Decimal(last),
        Part::Word(value),
    )
}

pub fn port_line(port: u8, state: u8) -> Line
    ensures { line_bytes result ≡ port_line port state }
{
    line_of_two(
        b'U',
        Part::Decimal(port as u64),
        Part::Decimal(state as u64),
    )
}

pub fn write_line(offset: u32, value: u32) -> Line
    ensures { line_bytes result ≡ write_line offset value }
{
    line_of_two(b'W', Part::Byte(offset), Part::Word(value))
}

pub fn record_line(place: u64, r: QueueTransferDescriptor) -> Line
    ensures { line_bytes result ≡ record_line place r }
{
    Line::of(
        b'P',
        &[
            Part::Decimal(place),
            Part::Word(r.next),
            Part::Word(r.alternate),
            Part::Word(r.token),
            Part::Word(r.pages[0]),
            Part::Word(r.pages[1]),
            Part::Word(r.pages[2]),
            Part::Word(r.pages[3]),
            Part::Word(r.pages[4]),
            Part::Word(r.upper[0]),
            Part::Word(r.upper[1]),
            Part::Word(r.upper[2]),
            Part::Word(r.upper[3]),
            Part::Word(r.upper[4]),
        ],
    )
}

// The setup bytes are in memory order.
pub fn setup_line(slot: u64, bytes: [u8; 8]) -> Line
    ensures { line_bytes result ≡ setup_line slot bytes }
{
    Line::of(
        b'S',
        &[
            Part::Decimal(slot),
            Part::Byte(bytes[0] as u32),
            Part::Joined(bytes[1] as u32),
            Part::Joined(bytes[2] as u32),
            Part::Joined(bytes[3] as u32),
            Part::Joined(bytes[4] as u32),
            Part::Joined(bytes[5] as u32),
            Part::Joined(bytes[6] as u32),
            Part::Joined(bytes[7] as u32),
        ],
    )
}

// What the log shows of a controller.
#[derive(Clone, Copy)]
pub struct Seen {
    pub running: u8,
    pub flag: u8,
    pub doorbell: u8,
    pub note: u8,
    pub unanswered: u8,
    pub pending: u32,
    pub masked: u32,
    pub free: u64,
    pub address: u8,
}

fn shown(core: Core) -> Seen
    ensures { result ≡ shown_in core }
{
    Seen {
        running: core.rest.running,
        flag: core.rest.enabled,
        doorbell: core.rest.doorbell,
        note: core.rest.noted,
        unanswered: core.rest.unanswered,
        pending: core.rest.pending,
        masked: core.rest.masked,
        free: free_count(core),
        address: core.rest.address,
    }
}

fn shown_line(x: Seen) -> Line
    ensures { line_bytes result ≡ shown_line x }
{
    Line::of(
        b'Q',
        &[
            Part::Decimal(x.running as u64),
            Part::Decimal(x.flag as u64),
            Part::Decimal(x.doorbell as u64),
            Part::Decimal(x.note as u64),
            Part::Decimal(x.unanswered as u64),
            Part::Word(x.pending),
            Part::Word(x.masked),
            Part::Decimal(x.free),
            Part::Decimal(x.address as u64),
        ],
    )
}

pub fn state_line(core: Core) -> Line
    ensures { line_bytes result ≡ shown_line (shown_in core) }
{
    shown_line(shown(core))
}
