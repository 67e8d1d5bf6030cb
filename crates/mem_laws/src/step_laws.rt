//! Laws of a thread's next step.
ghost use Rattle.mem_laws.specs.StepLaws.{PhisSwap, SwitchFirst, SwitchOther, CallBegins, ReturnGoesBack, CallReturns, ReturnLeaves, AllocaMakes, AllocaEnds, FirstThreadIsNew, NamesAreNew, UpdateInOne, UpdateOfConstant};

/// A branch assigns phis from the registers before it, and a switch goes to the first case of its number, or to its other block.
pub fn branches()
    ensures swap { PhisSwap }
    ensures first { SwitchFirst }
    ensures other { SwitchOther }
{}

/// A call of a defined function begins over its caller, and a return brings the caller behind the call with the result. The
/// return from a thread's only call ends the thread.
pub fn calls()
    ensures begins { CallBegins }
    ensures back { ReturnGoesBack }
    ensures both { CallReturns }
    ensures leaves { ReturnLeaves }
{}

/// An alloca makes a block of zero bytes, which is gone behind its function's return, and no name of a block is used again.
pub fn stack_blocks()
    ensures made { AllocaMakes }
    ensures gone { AllocaEnds }
    ensures first { FirstThreadIsNew }
    ensures new { NamesAreNew }
{}

/// An atomic change is a load and a store in one, and traps at a constant whatever that holds.
pub fn atomic_changes()
    ensures one { UpdateInOne }
    ensures constant { UpdateOfConstant }
{}
