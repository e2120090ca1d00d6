// Many sheets from standard input, each after its length in two bytes, the lower first. What is printed of each to standard
// output, and after it a line with a single `.`. `tools/sheet_cases.py` makes the sheets, and what is to be printed from
// document 01.
#![tactic(auto)]

ghost use Rattle.std.specs.Prelude.{◌≤◌};

use job_run::print::print_sheet;
use text::number::number16;
use turns::left::after_turn;

const STDIN: i32 = 0;

const STDOUT: i32 = 1;

// Longer than the longest good sheet, so that there are long ones.
const LONGEST: usize = 1408;

fn length_within(said: u16) -> usize
    ensures { result ≤ 1408 }
{
    (said as usize).min(LONGEST)
}

// The next n bytes, and zeros.
fn next_bytes(n: usize) -> [u8; LONGEST]
    requires { n ≤ 1408 }
{
    let mut bytes = [0u8; LONGEST];
    io::read_full(STDIN, &mut bytes[..n]);
    bytes
}

fn turn() -> bool {
    let mut length = [0u8; 2];
    let got = io::read_full(STDIN, &mut length);
    if got < 2 {
        return false;
    }
    let n = length_within(number16(&length, 0));
    let sheet = next_bytes(n);
    let mut out = [0u8; 131072];
    let end = print_sheet(&sheet[..n], &mut out);
    io::write_all(STDOUT, &out[..end]);
    io::write_all(STDOUT, b".\n");
    true
}

fn main() {
    let mut left: u64 = u64::MAX;
    while left > 0 {
        let more = turn();
        left = after_turn(left, more);
    }
}
