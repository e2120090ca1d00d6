// Bytes and numbers put over those of a lent row from a place on; each answers the place after.
ghost use Rattle.std.specs.Prelude.{◌≡◌, [], ◌∷◌, ◌+◌, ◌≤◌, ◌<◌, length};
ghost use Rattle.common.specs.Rows.{put_at};
ghost use Rattle.text.specs.Text.{decimal, decimal_up_to, hex, hex_digit};

// As many digits as any u64 has.
pub const DECIMAL_MAX: usize = 20;

pub fn put(out: &mut [u8], at: usize, byte: u8) -> usize
    requires { at < length out.old }
    ensures out_after { out.new ≡ put_at out.old at (byte ∷ []) }
    ensures value { result ≡ at + 1 }
{
    out[at] = byte;
    at + 1
}

fn decimal_digit(n: u64) -> u8
    requires { n < 10 }
    ensures { result ≡ 48 + n }
{
    b'0' + n as u8
}

// The digits before the last are those of a tenth.
fn put_digits(out: &mut [u8], at: usize, n: u64, most: usize) -> usize
    requires { at + most ≤ length out.old }
    ensures out_after { out.new ≡ put_at out.old at (decimal_up_to most n) }
    ensures value { result ≡ at + length (decimal_up_to most n) }
{
    if most == 0 {
        return at;
    }
    if n < 10 {
        return put(out, at, decimal_digit(n));
    }
    let last = put_digits(out, at, n / 10, most - 1);
    put(out, last, decimal_digit(n % 10))
}

pub fn put_decimal(out: &mut [u8], at: usize, n: u64) -> usize
    requires { at + 20 ≤ length out.old }
    ensures out_after { out.new ≡ put_at out.old at (decimal n) }
    ensures value { result ≡ at + length (decimal n) }
{
    put_digits(out, at, n, DECIMAL_MAX)
}

fn hex_digit(n: u32) -> u8
    requires { n < 16 }
    ensures { result ≡ hex_digit n }
{
    if n < 10 {
        b'0' + n as u8
    } else {
        b'a' - 10 + n as u8
    }
}

pub fn put_hex(out: &mut [u8], at: usize, n: u32, digits: usize) -> usize
    requires { at + digits ≤ length out.old }
    ensures out_after { out.new ≡ put_at out.old at (hex n digits) }
    ensures value { result ≡ at + digits }
{
    if digits == 0 {
        return at;
    }
    let last = put_hex(out, at, n / 16, digits - 1);
    put(out, last, hex_digit(n % 16))
}
