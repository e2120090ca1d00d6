// What a controller is opened with, and the ranges that document 01 asks of it.
ghost use Rattle.std.specs.Prelude.{◌≡◌, ◌≤◌, ◌^◌};
ghost use Rattle.settings.specs.Settings.{
  area_good,
  apart_areas,
  numbers_good,
  each_good,
  no_overlap,
  settings_good,
};

pub const DESCRIPTORS_MAX: u64 = 256;

pub const ENDPOINTS_MAX: u8 = 32;

pub const PORTS_MAX: u8 = 15;

pub const LIMIT_MAX: u64 = 16384;

pub const WAIT_MAX: u64 = 65536;

// Every area ends at or below this.
pub const MEMORY_END: u64 = 0x1_0000_0000;

pub const FRAMES_SIZE: u64 = 4096;

#[repr(C)]
#[derive(Clone, Copy, Default)]
pub struct Settings {
    pub descriptors: u64,
    pub endpoints: u8,
    pub ports: u8,
    pub limit: u64,
    pub wait: u64,
    pub pool: u64,
    pub heads: u64,
    pub frames: u64,
    pub setups: u64,
}

// Aligned, and its end at or below the end of memory.
fn area_good(address: u64, alignment: u64, size: u64) -> bool
    requires le_alignment { 1 ≤ alignment }
    requires size_bound { size ≤ 2 ^ 32 }
    ensures { result ≡ area_good address alignment size }
{
    (address % alignment == 0) & (address <= MEMORY_END - size)
}

// The one that starts first ends at or before the start of the other.
fn apart(a: u64, m: u64, b: u64, n: u64) -> bool
    ensures { result ≡ apart_areas a m b n }
{
    if a <= b { m <= b - a } else { n <= a - b }
}

fn numbers_good(s: Settings) -> bool
    ensures { result ≡ numbers_good s }
{
    ((1 <= s.descriptors) & (s.descriptors <= DESCRIPTORS_MAX))
        & ((1 <= s.endpoints) & (s.endpoints <= ENDPOINTS_MAX))
        & ((1 <= s.ports) & (s.ports <= PORTS_MAX))
        & ((1 <= s.limit) & (s.limit <= LIMIT_MAX))
        & ((1 <= s.wait) & (s.wait <= WAIT_MAX))
}

fn each_good(s: Settings) -> bool
    requires { (s.descriptors ≤ 256) × (s.endpoints ≤ 32) }
    ensures { result ≡ each_good s }
{
    let endpoints = s.endpoints as u64;
    let pool = area_good(s.pool, 64, 64 * (s.descriptors + 1));
    let heads = area_good(s.heads, 128, 128 * (endpoints + 1));
    let frames = area_good(s.frames, 4096, FRAMES_SIZE);
    let setups = area_good(s.setups, 8, 8 * endpoints);
    pool & heads & frames & setups
}

fn no_overlap(s: Settings) -> bool
    requires { (s.descriptors ≤ 256) × (s.endpoints ≤ 32) }
    ensures { result ≡ no_overlap s }
{
    let endpoints = s.endpoints as u64;
    let pool = 64 * (s.descriptors + 1);
    let heads = 128 * (endpoints + 1);
    let setups = 8 * endpoints;
    let pool_heads = apart(s.pool, pool, s.heads, heads);
    let pool_frames = apart(s.pool, pool, s.frames, FRAMES_SIZE);
    let pool_setups = apart(s.pool, pool, s.setups, setups);
    let heads_frames = apart(s.heads, heads, s.frames, FRAMES_SIZE);
    let heads_setups = apart(s.heads, heads, s.setups, setups);
    let frames_setups = apart(s.frames, FRAMES_SIZE, s.setups, setups);
    pool_heads & pool_frames & pool_setups & heads_frames & heads_setups & frames_setups
}

impl Settings {
    // Whether a controller may be opened so.
    pub fn good(self) -> bool
        ensures { result ≡ settings_good self }
    {
        numbers_good(self) && (each_good(self) & no_overlap(self))
    }
}
