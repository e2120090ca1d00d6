// Rows of words and of bytes: filled, and some elements put over those of a row.
ghost use Rattle.std.specs.Prelude.{◌≡◌, ◌+◌, ◌≤◌, length, replicate};
ghost use Rattle.common.specs.Rows.{put_at};

pub fn fill<T: Copy>(row: &mut [T], value: T)
    ensures { row.new ≡ replicate (length row.old) value }
{
    for element in row.iter_mut() {
        *element = value;
    }
}

// Some elements, over those from a place on.
pub fn put_at<T: Copy>(row: &mut [T], at: usize, elements: &[T])
    requires { at + length elements.now ≤ length row.old }
    ensures { row.new ≡ put_at row.old at elements.now }
{
    let end = at + elements.len();
    row[at..end].copy_from_slice(elements);
}
