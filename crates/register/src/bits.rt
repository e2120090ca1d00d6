// A word with bits set, with bits cleared, some of its bits alone, and whether any of some bits is set.
ghost use Rattle.std.specs.Prelude.{◌≡◌};
ghost use Rattle.register.specs.Bits.{with_bits, without_bits, only_bits, any_of};

pub fn with_bits(value: u32, bits: u32) -> u32
    ensures { result ≡ with_bits value bits }
{
    value | bits
}

pub fn without_bits(value: u32, bits: u32) -> u32
    ensures { result ≡ without_bits value bits }
{
    value & !bits
}

pub fn only_bits(value: u32, bits: u32) -> u32
    ensures { result ≡ only_bits value bits }
{
    value & bits
}

pub fn any_of(value: u32, bits: u32) -> bool
    ensures { result ≡ any_of value bits }
{
    value & bits != 0
}
