// A log from standard input, and what each record did to standard output.
use crate::keeper::{Keeper, fresh_keeper};
use crate::turn::turn;
use turns::left::after_turn;

const STDIN: i32 = 0;

const STDOUT: i32 = 1;

// One record: read, done, and written out before the next is read. None where the log ends.
fn next_record(k: Keeper, n: u64) -> Option<Keeper> {
    let mut record = [0u8; 64];
    let got = io::read_full(STDIN, &mut record);
    if got == 0 {
        return None;
    }
    let mut out = [0u8; 131072];
    let turned = turn(&mut out, k, n, &record[..got]);
    io::write_all(STDOUT, &out[..turned.end]);
    turned.keeper
}

pub fn replay() {
    let mut keeper = fresh_keeper();
    let mut left: u64 = u64::MAX;
    while left > 0 {
        let next = next_record(keeper, u64::MAX - left);
        if let Some(kept) = next {
            keeper = kept;
        }
        left = after_turn(left, next.is_some());
    }
}
