// A record of a log: the call that it says.
ghost use Rattle.std.specs.Prelude.{◌≡◌, ◌%◌, ◌^◌, nat_le, nat_lt};
ghost use Rattle.pipe.specs.Endpoints.{direction_of, flag_of, kind_of};
ghost use Rattle.call_log.specs.Records.{
  guarded,
  is_word,
  spare,
  plain,
  open_entry,
  bring_up_step,
  open_endpoint,
  close,
  set_address,
  set_packet_size,
  submit,
  writeback,
  cancel,
  collect,
  acknowledge,
  drain,
  scan_step,
  port_power,
  clear_halt,
  entry_from,
  entry_of,
};

use crate::fields::{Fields, RECORD, decode, spare};
use common::kinds::{Direction, EndpointType, KIND_MAX};
use controller::lent::Readings;
use ehci::call::{Call, EndpointFields, InterruptReadings};
use pipe::endpoints::{direction_of, kind_of};
use request::judge::TransferRequest;
use settings::settings::Settings;

// Six setup bytes are below this.
const SETUP_END: u64 = 0x1_0000_0000_0000;

#[derive(Clone, Copy)]
pub enum Entry {
    Open(Settings),
    Call(Call),
    StartScan,
    ScanStep(u32),
    PortPower(u8, u32),
}

// What a call does not use is 0.
fn unused(f: Fields, bytes: u8, numbers: u8) -> Option<()>
    ensures { result ≡ guarded (spare f bytes numbers) tt }
{
    spare(f, bytes, numbers).then_some(())
}

fn read_word(n: u64) -> Option<u32>
    ensures { result ≡ guarded (is_word n) (n % 2 ^ 32) }
{
    u32::try_from(n).ok()
}

fn read_size(n: u64) -> Option<u16>
    ensures { result ≡ guarded (nat_lt n (2 ^ 16)) (n % 2 ^ 16) }
{
    u16::try_from(n).ok()
}

fn read_setup(n: u64) -> Option<u64>
    ensures { result ≡ guarded (nat_lt n (2 ^ 48)) n }
{
    (n < SETUP_END).then_some(n)
}

fn read_kind(number: u8) -> Option<EndpointType>
    ensures { result ≡ guarded (nat_le number 3) (kind_of number) }
{
    (number <= KIND_MAX).then_some(kind_of(number))
}

fn read_direction(number: u8) -> Option<Direction>
    ensures { result ≡ guarded (nat_le number 1) (direction_of number) }
{
    (number <= 1).then_some(direction_of(number))
}

fn read_flag(number: u8) -> Option<bool>
    ensures { result ≡ guarded (nat_le number 1) (flag_of number) }
{
    (number <= 1).then_some(number != 0)
}

// A call with no parameters.
fn plain_entry(f: Fields, entry: Entry) -> Option<Entry>
    ensures { result ≡ plain f entry }
{
    spare(f, 0, 0).then_some(entry)
}

fn open(f: Fields) -> Option<Entry>
    ensures { result ≡ open_entry f }
{
    let [endpoints, ports, ..] = f.bytes;
    let [descriptors, limit, wait, pool, heads, frames, setups] = f.numbers;
    let settings = Settings {
        descriptors,
        endpoints,
        ports,
        limit,
        wait,
        pool,
        heads,
        frames,
        setups,
    };
    spare(f, 2, 7).then_some(Entry::Open(settings))
}

#[tactic(auto, unfolding(crate::specs::Records::bring_up_step))]
fn bring_up_step(f: Fields) -> Option<Entry>
    ensures { result ≡ bring_up_step f }
{
    unused(f, 0, 1)?;
    let [reading, ..] = f.numbers;
    let reading = read_word(reading)?;
    Some(Entry::Call(Call::BringUpStep(reading)))
}

#[tactic(auto, unfolding(crate::specs::Records::open_endpoint))]
fn open_endpoint(f: Fields) -> Option<Entry>
    ensures { result ≡ open_endpoint f }
{
    unused(f, 3, 1)?;
    let [kind, address, number, ..] = f.bytes;
    let [packet, ..] = f.numbers;
    let endpoint = EndpointFields {
        kind: read_kind(kind)?,
        address,
        number,
        packet: read_size(packet)?,
    };
    Some(Entry::Call(Call::OpenEndpoint(endpoint)))
}

fn close_slot(f: Fields) -> Option<Entry>
    ensures { result ≡ close f }
{
    let [slot, ..] = f.bytes;
    spare(f, 1, 0).then_some(Entry::Call(Call::Close(slot)))
}

fn set_address(f: Fields) -> Option<Entry>
    ensures { result ≡ set_address f }
{
    let [slot, address, ..] = f.bytes;
    spare(f, 2, 0).then_some(Entry::Call(Call::SetAddress(slot, address)))
}

fn set_packet_size(f: Fields) -> Option<Entry>
    ensures { result ≡ set_packet_size f }
{
    let [slot, size, ..] = f.bytes;
    spare(f, 2, 0).then_some(Entry::Call(Call::SetPacketSize(slot, size)))
}

#[tactic(auto, unfolding(crate::specs::Records::submit))]
fn submit_request(f: Fields) -> Option<Entry>
    ensures { result ≡ submit f }
{
    unused(f, 3, 4)?;
    let [slot, kind, direction, ..] = f.bytes;
    let [setup, address, length, command, ..] = f.numbers;
    let request = TransferRequest {
        kind: read_kind(kind)?,
        direction: read_direction(direction)?,
        setup: read_setup(setup)?,
        address,
        length,
    };
    let readings = Readings {
        command: read_word(command)?,
        frame: 0,
        overlay: 0,
    };
    Some(Entry::Call(Call::Submit(slot, request, readings)))
}

#[tactic(auto, unfolding(crate::specs::Records::writeback))]
fn write_back(f: Fields) -> Option<Entry>
    ensures { result ≡ writeback f }
{
    unused(f, 0, 2)?;
    let [place, token, ..] = f.numbers;
    let token = read_word(token)?;
    Some(Entry::Call(Call::Writeback(place, token)))
}

#[tactic(auto, unfolding(crate::specs::Records::cancel))]
fn cancel_request(f: Fields) -> Option<Entry>
    ensures { result ≡ cancel f }
{
    unused(f, 1, 3)?;
    let [slot, ..] = f.bytes;
    let [id, command, frame, ..] = f.numbers;
    let readings = Readings {
        command: read_word(command)?,
        frame: read_word(frame)?,
        overlay: 0,
    };
    Some(Entry::Call(Call::Cancel(slot, id, readings)))
}

#[tactic(auto, unfolding(crate::specs::Records::collect))]
fn collect_request(f: Fields) -> Option<Entry>
    ensures { result ≡ collect f }
{
    unused(f, 1, 4)?;
    let [slot, ..] = f.bytes;
    let [id, command, frame, overlay, ..] = f.numbers;
    let readings = Readings {
        command: read_word(command)?,
        frame: read_word(frame)?,
        overlay: read_word(overlay)?,
    };
    Some(Entry::Call(Call::Collect(slot, id, readings)))
}

#[tactic(auto, unfolding(crate::specs::Records::acknowledge))]
fn acknowledge_interrupt(f: Fields) -> Option<Entry>
    ensures { result ≡ acknowledge f }
{
    unused(f, 2, 2)?;
    let [flag, again, ..] = f.bytes;
    let [status, interrupts, ..] = f.numbers;
    let readings = InterruptReadings {
        flag: read_flag(flag)?,
        again: read_flag(again)?,
        status: read_word(status)?,
        interrupts: read_word(interrupts)?,
    };
    Some(Entry::Call(Call::Acknowledge(readings)))
}

#[tactic(auto, unfolding(crate::specs::Records::drain))]
fn drain_events(f: Fields) -> Option<Entry>
    ensures { result ≡ drain f }
{
    unused(f, 0, 1)?;
    let [command, ..] = f.numbers;
    let command = read_word(command)?;
    Some(Entry::Call(Call::Drain(command)))
}

#[tactic(auto, unfolding(crate::specs::Records::scan_step))]
fn scan_step(f: Fields) -> Option<Entry>
    ensures { result ≡ scan_step f }
{
    unused(f, 0, 1)?;
    let [reading, ..] = f.numbers;
    let reading = read_word(reading)?;
    Some(Entry::ScanStep(reading))
}

#[tactic(auto, unfolding(crate::specs::Records::port_power))]
fn port_power(f: Fields) -> Option<Entry>
    ensures { result ≡ port_power f }
{
    unused(f, 1, 1)?;
    let [port, ..] = f.bytes;
    let [reading, ..] = f.numbers;
    let reading = read_word(reading)?;
    Some(Entry::PortPower(port, reading))
}

fn clear_halt(f: Fields) -> Option<Entry>
    ensures { result ≡ clear_halt f }
{
    let [slot, ..] = f.bytes;
    spare(f, 1, 0).then_some(Entry::Call(Call::ClearHalt(slot)))
}

// 0 is no call, and none is above 21.
fn entry_from(f: Fields) -> Option<Entry>
    ensures { result ≡ entry_from f }
{
    match f.number {
        1 => open(f),
        2 => plain_entry(f, Entry::Call(Call::StartBringUp)),
        3 => bring_up_step(f),
        4 => plain_entry(f, Entry::Call(Call::AllocateAddress)),
        5 => open_endpoint(f),
        6 => close_slot(f),
        7 => set_address(f),
        8 => set_packet_size(f),
        9 => submit_request(f),
        10 => write_back(f),
        11 => cancel_request(f),
        12 => collect_request(f),
        13 => acknowledge_interrupt(f),
        14 => drain_events(f),
        15 => plain_entry(f, Entry::Call(Call::Rearm)),
        16 => plain_entry(f, Entry::Call(Call::Enable)),
        17 => plain_entry(f, Entry::Call(Call::Disable)),
        18 => plain_entry(f, Entry::StartScan),
        19 => scan_step(f),
        20 => port_power(f),
        21 => clear_halt(f),
        _ => None,
    }
}

// What is no record of a call is bad.
pub fn read_record(bytes: &[u8]) -> Option<Entry>
    ensures { result ≡ entry_of bytes.now }
{
    if bytes.len() != RECORD {
        return None;
    }
    entry_from(decode(bytes))
}
