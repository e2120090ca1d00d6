// A call tried on states of which one bit is wrong: a change is made with each bit of its value flipped in turn.
use crate::kept::Kept;
use crate::show::{show_line, shown_sum};
use call_log::fields::Fields;
use call_log::line::Part;
use call_log::lines::line_of_two;
use call_log::record::Entry;

// The number of a record that tells of a trial: `b1` is the change's number, `b3` how many bits are flipped.
pub const TRIAL: u8 = 74;

fn flipped(trial: Fields, bit: u8) -> Fields {
    let mut f = trial;
    f.number = trial.bytes[0];
    f.numbers[1] ^= 1 << (bit % 64);
    f
}

// One line: how many were tried, and a sum over what would be shown of each. Nothing of them stays.
pub fn show_tried(kept: &Kept, trial: Fields, n: u64, f: Fields, entry: Option<Entry>) {
    let [_, _, bits, ..] = trial.bytes;
    let bits = bits % 65;
    let mut sum: u32 = 0;
    for bit in 0..bits {
        let mut wrong = *kept;
        wrong.change(flipped(trial, bit));
        let said = wrong.act(n, f, entry);
        sum = shown_sum(sum, said, &wrong);
    }
    show_line(line_of_two(b'S', Part::Decimal(bits as u64), Part::Word(sum)));
}
