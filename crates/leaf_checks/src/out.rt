// A result is hexadecimal, of 8 digits or more, and has a space after it; a flag is 0 or 1.
pub const STDOUT: i32 = 1;

pub fn put(value: u64) {
    io::print_hex(STDOUT, value, 8);
    io::write_all(STDOUT, b" ");
}

pub fn word(value: u32) {
    put(u64::from(value));
}

pub fn flag(set: bool) {
    put(u64::from(set));
}

pub fn words(values: &[u32]) {
    for value in values {
        word(*value);
    }
}

pub fn bytes(values: &[u8]) {
    for value in values {
        put(u64::from(*value));
    }
}

pub fn low_word(value: u64) -> u32 {
    (value % 0x1_0000_0000) as u32
}

pub fn low_byte(value: u64) -> u8 {
    (value % 256) as u8
}
