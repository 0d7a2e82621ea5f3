// Whether a reading or a writing that failed is worth another try.
//
// One that a signal broke off (EINTR) is, as is the custom. So is one on a descriptor that does not wait and has nothing to give or
// no room yet (EAGAIN): there is no `poll` to wait with, so the reader gives the processor to others in between.
use std::io::{Error, ErrorKind};
use std::thread::yield_now;

// Of a call that failed so.
pub(crate) fn may_try_again(error: Error) -> bool {
    match error.kind() {
        ErrorKind::Interrupted => true,
        ErrorKind::WouldBlock => {
            yield_now();
            true
        }
        _ => false,
    }
}
