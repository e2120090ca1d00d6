// Which descriptors a slot's request has.
ghost use Rattle.std.specs.Prelude.{◌≡◌};
ghost use Rattle.bench_port.specs.Border.{seen_places};

use bench_port::placed::PortPlaces;

#[unsafe(no_mangle)]
pub extern "C" fn port_places(slots: &[u64], slot: u8) -> PortPlaces
    ensures { result ≡ seen_places slots.now slot }
{
    bench_port::placed::port_places(slots, slot)
}
