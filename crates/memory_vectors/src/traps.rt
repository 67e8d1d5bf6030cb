//! The names of traps.
use mem_model::Trap;

pub(crate) fn name_of(trap: Trap) -> &'static str {
    match trap {
        Trap::Overflow => "Overflow",
        Trap::Division => "Division",
        Trap::Shift => "Shift",
        Trap::NoBlock => "NoBlock",
        Trap::Released => "Released",
        Trap::OutOfBlock => "OutOfBlock",
        Trap::Constant => "Constant",
        Trap::StackLeak => "StackLeak",
        Trap::NotStack => "NotStack",
        Trap::NotNumber => "NotNumber",
        Trap::TooLarge => "TooLarge",
        Trap::Unreachable => "Unreachable",
        Trap::Unassigned => "Unassigned",
    }
}
