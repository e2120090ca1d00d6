// Records from standard input, what each call answered and left to standard output. A record is a call's, as in a log, or a
// change that no call makes: to a number of the core, a word of a row, the lengths lent, the root hub's record. After a trial
// the next call is tried on states of which one bit is wrong. `tools/state_values.py` makes the records, and what is to be
// printed from document 01.
#![tactic(auto)]

mod change;
mod kept;
mod lend;
mod show;
mod sums;
mod trial;

use crate::change::CHANGES;
use crate::kept::Kept;
use crate::show::show;
use crate::trial::show_tried;
use call_log::fields::decode;
use call_log::record::read_record;
use turns::left::after_turn;

const STDIN: i32 = 0;

// Of a change nothing is printed.
fn turn(kept: &mut Kept, n: u64, record: &[u8; 64]) {
    let f = decode(record);
    if CHANGES <= f.number {
        kept.change(f);
        return;
    }
    let entry = read_record(record);
    if let Some(trial) = kept.trial {
        show_tried(kept, trial, n, f, entry);
        kept.trial = None;
        return;
    }
    let said = kept.act(n, f, entry);
    show(said, kept);
}

fn main() {
    let mut kept = Kept::blank();
    let mut left: u64 = u64::MAX;
    while left > 0 {
        let mut record = [0u8; 64];
        let more = io::read_full(STDIN, &mut record) == 64;
        if more {
            turn(&mut kept, u64::MAX - left, &record);
        }
        left = after_turn(left, more);
    }
}
