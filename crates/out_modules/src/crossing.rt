//! What the optimiser gives may go from one thread to another, and be read by several at once.
use crate::out_module::OutModule;

/// Takes only what may cross between threads.
fn crosses<T: Send + Sync>(_: &T) {}

/// A module that is optimised.
pub fn out_module_crosses(optimised: &OutModule) {
    crosses(optimised);
}
