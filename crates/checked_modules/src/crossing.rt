//! Modules that keep rules may go from one thread to another, and be read by several at once.
use crate::checked::Checked;

/// Takes only what may cross between threads.
fn crosses<T: Send + Sync>(_: &T) {}

/// A module that has no refusal.
pub fn checked_cross(checked: &Checked) {
    crosses(checked);
}
