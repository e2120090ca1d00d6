// A line: a letter, parts, and the line's end.
ghost use Rattle.std.specs.Prelude.{◌≡◌, ◌+◌, ◌*◌, ◌≤◌, [], ◌∷◌, length};
ghost use Rattle.common.specs.Rows.{put_at};
ghost use Rattle.text.specs.Text.{hex};
ghost use Rattle.call_log.specs.Lines.{line_bytes, part_bytes, said, said_line};

use text::digits::{put, put_decimal, put_hex};

const PARTS: usize = 14;

// Each after a space but `Joined`, which goes on with the bytes before it.
#[derive(Clone, Copy)]
pub enum Part {
    Decimal(u64),
    Word(u32),
    Byte(u32),
    Joined(u32),
    Dash,
}

// Fixed memory: the parts are the first `count` of the row.
#[derive(Clone, Copy)]
pub struct Line {
    letter: u8,
    count: usize,
    row: [Part; 14],
}

impl Line {
    // Not inlined: where it is, its whole row is made for each word that is held against another, shown or not.
    #[inline(never)]
    pub fn of(letter: u8, parts: &[Part]) -> Line
        requires { length parts.now ≤ 14 }
        ensures { line_bytes result ≡ said_line letter parts.now }
    {
        let mut row = [Part::Dash; 14];
        row[..parts.len()].copy_from_slice(parts);
        Line {
            letter,
            count: parts.len(),
            row,
        }
    }
}

fn put_spaced_decimal(out: &mut [u8], at: usize, n: u64) -> usize
    requires { at + 21 ≤ length out.old }
    ensures out_after { out.new ≡ put_at out.old at (part_bytes (Part.Decimal n)) }
    ensures value { result ≡ at + length (part_bytes (Part.Decimal n)) }
{
    let next = put(out, at, b' ');
    put_decimal(out, next, n)
}

fn put_spaced_hex(out: &mut [u8], at: usize, n: u32, digits: usize) -> usize
    requires digits_bound { digits ≤ 8 }
    requires at_in_bounds { at + 9 ≤ length out.old }
    ensures out_after { out.new ≡ put_at out.old at (32 ∷ hex n digits) }
    ensures value { result ≡ at + (1 + digits) }
{
    let next = put(out, at, b' ');
    put_hex(out, next, n, digits)
}

fn put_dash(out: &mut [u8], at: usize) -> usize
    requires { at + 2 ≤ length out.old }
    ensures out_after { out.new ≡ put_at out.old at (32 ∷ 45 ∷ []) }
    ensures value { result ≡ at + 2 }
{
    let next = put(out, at, b' ');
    put(out, next, b'-')
}

fn put_part(out: &mut [u8], at: usize, part: Part) -> usize
    requires { at + 21 ≤ length out.old }
    ensures out_after { out.new ≡ put_at out.old at (part_bytes part) }
    ensures value { result ≡ at + length (part_bytes part) }
{
    match part {
        Part::Decimal(n) => put_spaced_decimal(out, at, n),
        Part::Word(n) => put_spaced_hex(out, at, n, 8),
        Part::Byte(n) => put_spaced_hex(out, at, n, 2),
        Part::Joined(n) => put_hex(out, at, n, 2),
        Part::Dash => put_dash(out, at),
    }
}

fn put_parts(out: &mut [u8], at: usize, parts: &[Part]) -> usize
    requires { at + 21 * length parts.now ≤ length out.old }
    ensures out_after { out.new ≡ put_at out.old at (said parts.now) }
    ensures value { result ≡ at + length (said parts.now) }
{
    let mut place = at;
    for part in parts {
        place = put_part(out, place, *part);
    }
    place
}

pub fn put_line(out: &mut [u8], at: usize, line: Line) -> usize
    requires { at + 296 ≤ length out.old }
    ensures out_after { out.new ≡ put_at out.old at (line_bytes line) }
    ensures value { result ≡ at + length (line_bytes line) }
{
    let first = put(out, at, line.letter);
    let last = put_parts(out, first, &line.row[..line.count.min(PARTS)]);
    put(out, last, b'\n')
}
