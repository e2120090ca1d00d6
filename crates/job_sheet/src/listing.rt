// The lines of a job's listing, put over the bytes of a lent row from a place on; each answers the place after.
ghost use Rattle.std.specs.Prelude.{◌≡◌, ◌+◌, ◌*◌, ◌≤◌, length};
ghost use Rattle.common.specs.Rows.{put_at};
ghost use Rattle.job_sheet.specs.Sheets.{joined};
ghost use Rattle.job_sheet.specs.Listing.{number_field, word_field, bad_line, endpoint_line, request_line, descriptor_line};

use common::rows::put_at;
use descriptor::qtd::QueueTransferDescriptor;
use text::digits::{put, put_decimal, put_hex};

fn put_number(out: &mut [u8], at: usize, n: u64) -> usize
    requires { at + 21 ≤ length out.old }
    ensures out_after { out.new ≡ put_at out.old at (number_field n) }
    ensures value { result ≡ at + length (number_field n) }
    ensures upper_bound { result ≤ at + 21 }
{
    let next = put(out, at, b' ');
    put_decimal(out, next, n)
}

fn put_word(out: &mut [u8], at: usize, word: u32) -> usize
    requires { at + 9 ≤ length out.old }
    ensures out_after { out.new ≡ put_at out.old at (word_field word) }
    ensures value { result ≡ at + 9 }
{
    let next = put(out, at, b' ');
    put_hex(out, next, word, 8)
}

fn put_words(out: &mut [u8], at: usize, words: &[u32]) -> usize
    requires { at + 9 * length words.now ≤ length out.old }
    ensures out_after { out.new ≡ put_at out.old at (joined word_field words.now) }
    ensures value { result ≡ at + 9 * length words.now }
{
    let mut next = at;
    for word in words {
        next = put_word(out, next, *word);
    }
    next
}

pub fn put_endpoint(out: &mut [u8], at: usize, k: u64, answer: u64) -> usize
    requires { at + 44 ≤ length out.old }
    ensures out_after { out.new ≡ put_at out.old at (endpoint_line k answer) }
    ensures value { result ≡ at + length (endpoint_line k answer) }
    ensures upper_bound { result ≤ at + 44 }
{
    let mut next = put(out, at, b'E');
    next = put_number(out, next, k);
    next = put_number(out, next, answer);
    put(out, next, b'\n')
}

pub fn put_request(out: &mut [u8], at: usize, k: u64, answer: u64, id: u64) -> usize
    requires { at + 65 ≤ length out.old }
    ensures out_after { out.new ≡ put_at out.old at (request_line k answer id) }
    ensures value { result ≡ at + length (request_line k answer id) }
    ensures upper_bound { result ≤ at + 65 }
{
    let mut next = put(out, at, b'R');
    next = put_number(out, next, k);
    next = put_number(out, next, answer);
    next = put_number(out, next, id);
    put(out, next, b'\n')
}

pub fn put_descriptor(out: &mut [u8], at: usize, place: u64, d: QueueTransferDescriptor) -> usize
    requires { at + 86 ≤ length out.old }
    ensures out_after { out.new ≡ put_at out.old at (descriptor_line place d) }
    ensures value { result ≡ at + length (descriptor_line place d) }
    ensures upper_bound { result ≤ at + 86 }
{
    let pages = d.pages;
    let mut next = put(out, at, b'D');
    next = put_number(out, next, place);
    next = put_word(out, next, d.token);
    next = put_word(out, next, d.next);
    next = put_words(out, next, &pages);
    put(out, next, b'\n')
}

// What is printed, alone, of a bad sheet.
pub fn put_bad(out: &mut [u8], at: usize) -> usize
    requires { at + 10 ≤ length out.old }
    ensures out_after { out.new ≡ put_at out.old at bad_line }
    ensures value { result ≡ at + 10 }
{
    put_at(out, at, b"bad sheet\n");
    at + 10
}
