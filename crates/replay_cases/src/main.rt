// Many logs from standard input, each begun by a byte above 64; each of its records stands after a byte that says how long
// it is. A line `=` for each log to standard output, then what is said of its records up to the first bad one.
// `tools/log_cases.py` makes the logs, and what is to be printed from document 01.
#![tactic(auto)]

ghost use Rattle.std.specs.Prelude.{◌≤◌};

use replayer::keeper::{Keeper, fresh_keeper};
use replayer::turn::turn;
use turns::left::after_turn;

const STDIN: i32 = 0;

const STDOUT: i32 = 1;

// A log that goes on: what is kept, and the number of its next record.
#[derive(Clone, Copy)]
struct Log {
    keeper: Keeper,
    number: u64,
}

fn fresh_log() -> Log {
    Log {
        keeper: fresh_keeper(),
        number: 0,
    }
}

fn next_byte() -> Option<u8> {
    let mut byte = [0u8; 1];
    let got = io::read_full(STDIN, &mut byte);
    (got != 0).then_some(byte[0])
}

// The next n bytes, and zeros.
fn next_bytes(n: usize) -> [u8; 64]
    requires { n ≤ 64 }
{
    let mut bytes = [0u8; 64];
    io::read_full(STDIN, &mut bytes[..n]);
    bytes
}

// One record of a log, as `replay` does it.
fn after_record(log: Log, bytes: &[u8]) -> Option<Log> {
    let mut out = [0u8; 131072];
    let turned = turn(&mut out, log.keeper, log.number, bytes);
    io::write_all(STDOUT, &out[..turned.end]);
    let keeper = turned.keeper?;
    Some(Log {
        keeper,
        number: log.number.saturating_add(1),
    })
}

// A log that begins, or one more record, of which nothing is said once its log has ended.
fn next(log: Option<Log>, said: u8) -> Option<Log> {
    if said > 64 {
        io::write_all(STDOUT, b"=\n");
        return Some(fresh_log());
    }
    let bytes = next_bytes(said as usize);
    after_record(log?, &bytes[..said as usize])
}

fn main() {
    let mut log = Some(fresh_log());
    let mut left: u64 = u64::MAX;
    while left > 0 {
        let byte = next_byte();
        if let Some(said) = byte {
            log = next(log, said);
        }
        left = after_turn(left, byte.is_some());
    }
}
