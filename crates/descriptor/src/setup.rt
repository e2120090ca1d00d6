// The eight bytes of a setup packet (USB 9.3).
ghost use Rattle.std.specs.Prelude.{◌≡◌};
ghost use Rattle.descriptor.specs.Setups.{setup_packet};

// Bytes 0 to 5 come as one number, byte 0 lowest; 6 and 7 are the buffer's length.
pub fn setup_packet_bytes(setup: u64, length: u64) -> [u8; 8]
    ensures { result ≡ setup_packet setup length }
{
    [
        (setup % 256) as u8,
        (setup / 0x100 % 256) as u8,
        (setup / 0x1_0000 % 256) as u8,
        (setup / 0x100_0000 % 256) as u8,
        (setup / 0x1_0000_0000 % 256) as u8,
        (setup / 0x100_0000_0000 % 256) as u8,
        (length % 256) as u8,
        (length / 0x100 % 256) as u8,
    ]
}
