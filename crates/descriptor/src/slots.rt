// The five page slots of a buffer (EHCI 3.5.4).
ghost use Rattle.std.specs.Prelude.{◌≡◌, ◌-◌, ◌≤◌, ◌^◌, ltb};
ghost use Rattle.descriptor.specs.Slots.{page_if, page_slots};

pub const PAGE: u64 = 4096;

// The buffer ends at or below 2^32; one of no bytes may have any address.
pub fn page_slots(address: u64, length: u64) -> [u32; 5]
    requires { length ≤ 2 ^ 32 - address }
    ensures { result ≡ page_slots address length }
{
    if length == 0 {
        return [0; 5];
    }
    let first = address - address % PAGE;
    let end = address + length;
    [
        address as u32,
        page_below(first + PAGE, end),
        page_below(first + 2 * PAGE, end),
        page_below(first + 3 * PAGE, end),
        page_below(first + 4 * PAGE, end),
    ]
}

fn page_below(page: u64, end: u64) -> u32
    requires { end ≤ 2 ^ 32 }
    ensures { result ≡ page_if (ltb page end) page }
{
    if page < end { page as u32 } else { 0 }
}
