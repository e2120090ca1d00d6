// Records of five numbers from standard input: a function of register, token or descriptor, and what it is given. Its
// results to standard output, a line for each record. `tools/leaf_values.py` makes the records, and what is to be printed
// from document 01.
#![tactic(auto)]

mod heads;
mod out;
mod tokens;

use crate::heads::head_line;
use crate::tokens::token_line;
use turns::left::after_turn;

const STDIN: i32 = 0;

// A function's number, and what it is given.
#[derive(Clone, Copy)]
pub struct Record {
    pub function: u64,
    pub a: u64,
    pub b: u64,
    pub c: u64,
    pub d: u64,
}

// Eight bytes, the lowest first; 0 at the end.
fn next() -> u64 {
    let mut bytes = [0u8; 8];
    io::read_full(STDIN, &mut bytes);
    u64::from_le_bytes(bytes)
}

// No function has the number 0: it is the end.
fn next_record() -> Option<Record> {
    let function = next();
    let a = next();
    let b = next();
    let c = next();
    let d = next();
    if function == 0 {
        return None;
    }
    Some(Record {
        function,
        a,
        b,
        c,
        d,
    })
}

// Whether there was one more record.
fn turn() -> bool {
    let Some(record) = next_record() else {
        return false;
    };
    out::put(record.function);
    if record.function < 10 || record.function == 20 {
        token_line(record);
    } else {
        head_line(record);
    }
    io::write_all(out::STDOUT, b"\n");
    true
}

fn main() {
    let mut left: u64 = u64::MAX;
    while left > 0 {
        let more = turn();
        left = after_turn(left, more);
    }
}
