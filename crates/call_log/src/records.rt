// The descriptor records that changed.
ghost use Rattle.std.specs.Prelude.{◌≡◌, ◌+◌, ◌*◌, ◌≤◌, length};
ghost use Rattle.common.specs.Rows.{put_at};
ghost use Rattle.call_log.specs.Changes.{record_change, record_lines};

use crate::line::put_line;
use crate::lines::record_line;
use descriptor::qtd::QueueTransferDescriptor;

fn put_record(
    out: &mut [u8],
    at: usize,
    place: usize,
    before: QueueTransferDescriptor,
    after: QueueTransferDescriptor,
) -> usize
    requires { at + 296 ≤ length out.old }
    ensures out_after { out.new ≡ put_at out.old at (record_change place before after) }
    ensures value { result ≡ at + length (record_change place before after) }
{
    if before == after {
        return at;
    }
    let line = record_line(place as u64, after);
    put_line(out, at, line)
}

pub fn put_records(
    out: &mut [u8],
    at: usize,
    before: &[QueueTransferDescriptor; 257],
    after: &[QueueTransferDescriptor; 257],
) -> usize
    requires { at + 140 * 257 + 296 ≤ length out.old }
    ensures out_after { out.new ≡ put_at out.old at (record_lines before.now after.now) }
    ensures value { result ≡ at + length (record_lines before.now after.now) }
{
    let mut place = at;
    for i in 0..after.len() {
        place = put_record(out, place, i, before[i], after[i]);
    }
    place
}
