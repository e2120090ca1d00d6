// Cancelling a request, and collecting it.
#![tactic(auto)]

pub mod answers;
pub mod ask;
pub mod calls;
pub mod collected;
pub mod finish;
pub mod unlink;
