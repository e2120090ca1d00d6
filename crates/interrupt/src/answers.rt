// What a drain comes to.
#[derive(Clone, Copy)]
pub enum Event {
    Nothing,
    PortChange,
    TransferActivity,
    Stopped,
}
