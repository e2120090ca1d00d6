// The register writes of a call, in order.
ghost use Rattle.std.specs.Prelude.{◌≡◌, ◌+◌, ◌*◌, ◌≤◌, length};
ghost use Rattle.common.specs.Rows.{put_at};
ghost use Rattle.call_log.specs.Changes.{write_lines};

use crate::line::put_line;
use crate::lines::write_line;
use register::writes::Writes;

pub fn put_writes(out: &mut [u8], at: usize, writes: Writes) -> usize
    requires { at + 14 * 6 + 296 ≤ length out.old }
    ensures out_after { out.new ≡ put_at out.old at (write_lines writes) }
    ensures value { result ≡ at + length (write_lines writes) }
{
    let count = writes.writes.len().min(writes.count as usize);
    let mut place = at;
    for write in &writes.writes[..count] {
        place = put_line(out, place, write_line(write.offset, write.value));
    }
    place
}
