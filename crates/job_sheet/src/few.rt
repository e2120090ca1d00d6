// A list of at most N things, which lie in the value itself, so that it is copied as they are.
ghost use Rattle.std.specs.Prelude.{◌≡◌, ◌<◌, ◌≤◌, ◌++◌, ◌∷◌, [], length};
ghost use Rattle.job_sheet.specs.Few.{IsFresh, items, pushed};

// The first `count` of the row; the places after them are spare.
#[derive(Clone, Copy)]
pub struct Few<T, const N: usize> {
    row: [T; N],
    count: usize,
}

impl<T: Copy + Default, const N: usize> Few<T, N> {
    pub fn new() -> Few<T, N>
        ensures items { items result ≡ [] }
        ensures whole { IsFresh T.is_default result }
    {
        Few {
            row: [T::default(); N],
            count: 0,
        }
    }
}

impl<T: Copy, const N: usize> Few<T, N> {
    pub fn push(&mut self, thing: T)
        requires { length (items self.old) < N }
        ensures items { items self.new ≡ items self.old ++ (thing ∷ []) }
        ensures whole { self.new ≡ pushed self.old thing }
    {
        self.row[self.count] = thing;
        self.count += 1;
    }

    // No call makes a count above N; `min` is what the check asks.
    pub fn as_slice(&self) -> &[T]
        ensures value { result.now ≡ items self.now }
        ensures fits { length result.now ≤ N }
    {
        &self.row[..self.count.min(N)]
    }
}
