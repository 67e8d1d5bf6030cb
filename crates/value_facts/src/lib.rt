//! What is known of pointers and of effects: which pointers may point into a stack and which elsewhere, which functions have an effect
//! that other threads can see, which instructions need a guard, and which allocations are used in plain ways alone (LLVM's OpenMPOpt
//! documentation, "SPMDization" and "HeapToStack"). By now the definitions alone.
#![tactic(auto)]
