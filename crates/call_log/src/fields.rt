// The numbers of a record: the call's, seven small parameters, and seven of 64 bits, the lowest byte first.
ghost use Rattle.std.specs.Prelude.{◌≡◌, ◌&&◌, drop, length};
ghost use Rattle.std.specs.List.{list_all};
ghost use Rattle.call_log.specs.Fields.{bytes_spare, fields_of, zero_after};

use text::number::number64;

pub const RECORD: usize = 64;

// The document's b1 to b7 and n1 to n7.
#[derive(Clone, Copy)]
pub struct Fields {
    pub number: u8,
    pub bytes: [u8; 7],
    pub numbers: [u64; 7],
}

pub fn decode(bytes: &[u8]) -> Fields
    requires { length bytes.now ≡ 64 }
    ensures { result ≡ fields_of bytes.now }
{
    Fields {
        number: bytes[0],
        bytes: [
            bytes[1], bytes[2], bytes[3], bytes[4], bytes[5], bytes[6], bytes[7],
        ],
        numbers: [
            number64(bytes, 8),
            number64(bytes, 16),
            number64(bytes, 24),
            number64(bytes, 32),
            number64(bytes, 40),
            number64(bytes, 48),
            number64(bytes, 56),
        ],
    }
}

// The row has this alone after the first so many.
fn all_after<T: PartialEq + Copy>(row: &[T], used: usize, zero: T) -> bool
    ensures { result ≡ list_all (λ x. T.eq x zero) (drop used row.now) }
{
    row.iter().skip(used).all(|x| *x == zero)
}

// What a call does not use is 0: it uses the first so many of the small parameters and of the numbers.
// No call uses more than three of the small parameters, whatever is asked.
#[tactic(auto, unfolding(crate::specs::Fields::zero_after))]
pub fn spare(f: Fields, bytes: u8, numbers: u8) -> bool
    ensures { result ≡ (bytes_spare f bytes && zero_after numbers f.numbers) }
{
    all_after(&f.bytes, bytes.min(3) as usize, 0) & all_after(&f.numbers, numbers as usize, 0)
}
