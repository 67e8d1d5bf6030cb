//! Whether a kernel can run in SPMD mode, by six rules (LLVM's OpenMPOpt documentation, "SPMDization"). By now the definitions alone.
#![tactic(auto)]
