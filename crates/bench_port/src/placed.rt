// Which descriptors a slot's request has.
ghost use Rattle.std.specs.Prelude.{◌≡◌};
ghost use Rattle.bench_port.specs.Border.{seen_places};

use controller::readers::request_places;

// Bit i of word j is place 64 j + i.
#[repr(C)]
#[derive(Clone, Copy)]
pub struct PortPlaces {
    pub words: [u64; 4],
}

#[unsafe(no_mangle)]
pub extern "C" fn port_places(slots: &[u64], slot: u8) -> PortPlaces
    ensures { result ≡ seen_places slots.now slot }
{
    PortPlaces {
        words: request_places(slots, slot),
    }
}
