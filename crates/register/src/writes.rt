// The register writes of one answer: at most 6, in order.
ghost use Rattle.std.specs.Prelude.{◌≡◌, ◌+◌, ◌<◌};
ghost use Rattle.register.specs.Writes.{no_writes, and_then};

#[derive(Clone, Copy)]
pub struct Write {
    pub offset: u32,
    pub value: u32,
}

#[derive(Clone, Copy)]
pub struct Writes {
    pub count: u32,
    pub writes: [Write; 6],
}

impl Writes {
    pub fn none() -> Writes
        ensures count_value { result.count ≡ 0 }
        ensures value { result ≡ no_writes }
    {
        Writes {
            count: 0,
            writes: [Write {
                offset: 0,
                value: 0,
            }; 6],
        }
    }

    pub fn and_then(self, offset: u32, value: u32) -> Writes
        requires { self.count < 6 }
        ensures count_value { result.count ≡ self.count + 1 }
        ensures value { result ≡ and_then self offset value }
    {
        let at = self.count;
        let mut longer = self;
        longer.writes[at as usize] = Write { offset, value };
        longer.count = at + 1;
        longer
    }
}
