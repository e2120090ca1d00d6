// Reads a job sheet from standard input and prints its listing.
#![tactic(auto)]

use job_run::print::print_read;

const STDIN: i32 = 0;

const STDOUT: i32 = 1;

fn main() {
    let mut sheet = [0u8; 1333];
    let mut out = [0u8; 131072];
    let n = io::read_full(STDIN, &mut sheet);
    let end = print_read(&sheet, n, &mut out);
    io::write_all(STDOUT, &out[..end]);
}
