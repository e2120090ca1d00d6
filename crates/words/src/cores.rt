// What a call is given by value: the settings, which no call changes, and the rest, which comes back.
use settings::settings::Settings;

#[repr(C)]
#[derive(Clone, Copy)]
pub struct Rest {
    pub running: u8,
    // Bring-up: the step that a reading is awaited for, 0 where none is begun.
    pub step: u8,
    // The address that is allotted next; 128 after the last.
    pub address: u8,
    pub enabled: u8,
    // The doorbell: an advance noted since the ring, whether it is up, and how many unlinks are unanswered.
    pub noted: u8,
    pub doorbell: u8,
    pub unanswered: u8,
    // What is acknowledged and not drained, what is masked.
    pub pending: u32,
    pub masked: u32,
    // The reads of bring-up's wait.
    pub waited: u64,
    // The free places: bit i of word j is place 64 j + i.
    pub free: [u64; 4],
}

#[repr(C)]
#[derive(Clone, Copy)]
pub struct Core {
    pub settings: Settings,
    pub rest: Rest,
}
