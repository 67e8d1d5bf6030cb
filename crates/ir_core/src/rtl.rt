//! The entry points of the device runtime: one table, which everything else asks.
ghost use Rattle.std.specs.Prelude.{◌≡◌, map, MatchOption};
ghost use Rattle.ir_core.specs.EntryPoints.{entry_name, entry_point, scalar_type};

use crate::name::Name;
use crate::types::{Scalar, Ty};

/// An entry point of the device runtime, after LLVM 16 (and `omp_` queries of OpenMP 5.1, "Runtime Library Routines").
/// The last five are written by the optimiser alone.
#[derive(Clone, Copy)]
pub enum Rtl {
    /// `i32 __kmpc_target_init(ptr, i8, i1)`.
    TargetInit,
    /// `void __kmpc_target_deinit(ptr, i8)`.
    TargetDeinit,
    /// `void __kmpc_parallel_51(ptr, i32, i32, i32, i32, ptr, ptr, ptr, i64)`: a fork.
    Parallel,
    /// `ptr __kmpc_alloc_shared(i64)`.
    AllocShared,
    /// `void __kmpc_free_shared(ptr, i64)`.
    FreeShared,
    /// `void __kmpc_get_shared_variables(ptr)`.
    GetSharedVariables,
    /// `void __kmpc_barrier(ptr, i32)`.
    Barrier,
    /// `i32 __kmpc_global_thread_num(ptr)`.
    GlobalThreadNum,
    /// `i32 omp_get_thread_num()`.
    ThreadNum,
    /// `i32 omp_get_num_threads()`.
    NumThreads,
    /// `i32 omp_get_level()`.
    Level,
    /// `i16 __kmpc_parallel_level(ptr, i32)`.
    ParallelLevel,
    /// `i32 omp_in_parallel()`.
    InParallel,
    /// `i8 __kmpc_is_spmd_exec_mode()`.
    IsSpmdExecMode,
    /// `void __kmpc_for_static_init_4(ptr, i32, i32, ptr, ptr, ptr, ptr, i32, i32)`.
    ForStaticInit,
    /// `void __kmpc_for_static_fini(ptr, i32)`.
    ForStaticFini,
    /// `void ompx_print_i64(i64)`: this project's own.
    Print,
    /// `i1 __kmpc_kernel_parallel(ptr)`.
    KernelParallel,
    /// `void __kmpc_kernel_end_parallel()`.
    KernelEndParallel,
    /// `void __kmpc_barrier_simple_spmd(ptr, i32)`.
    SpmdBarrier,
    /// `void __kmpc_barrier_simple_generic(ptr, i32)`.
    GenericBarrier,
    /// `i32 __kmpc_get_hardware_thread_id_in_block()`.
    HardwareThreadId,
}

// In the order of the table.
const ALL: [Rtl; 22] = [
    Rtl::TargetInit,
    Rtl::TargetDeinit,
    Rtl::Parallel,
    Rtl::AllocShared,
    Rtl::FreeShared,
    Rtl::GetSharedVariables,
    Rtl::Barrier,
    Rtl::GlobalThreadNum,
    Rtl::ThreadNum,
    Rtl::NumThreads,
    Rtl::Level,
    Rtl::ParallelLevel,
    Rtl::InParallel,
    Rtl::IsSpmdExecMode,
    Rtl::ForStaticInit,
    Rtl::ForStaticFini,
    Rtl::Print,
    Rtl::KernelParallel,
    Rtl::KernelEndParallel,
    Rtl::SpmdBarrier,
    Rtl::GenericBarrier,
    Rtl::HardwareThreadId,
];

impl Rtl {
    /// The entry point of a name; none where the table has no such name.
    pub fn of(name: &Name) -> Option<Rtl>
        ensures { MatchOption result ((r : Rtl) → entry_name r ≡ name.now → ⊥) (λ r. entry_name r ≡ name.now) }
    {
        for entry_point in ALL {
            if name.as_slice() == entry_point.name() {
                return Some(entry_point);
            }
        }
        None
    }

    /// Its name, without the `@`.
    pub fn name(self) -> &'static [u8]
        ensures { result.now ≡ entry_name self }
    {
        match self {
            Rtl::TargetInit => b"__kmpc_target_init",
            Rtl::TargetDeinit => b"__kmpc_target_deinit",
            Rtl::Parallel => b"__kmpc_parallel_51",
            Rtl::AllocShared => b"__kmpc_alloc_shared",
            Rtl::FreeShared => b"__kmpc_free_shared",
            Rtl::GetSharedVariables => b"__kmpc_get_shared_variables",
            Rtl::Barrier => b"__kmpc_barrier",
            Rtl::GlobalThreadNum => b"__kmpc_global_thread_num",
            Rtl::ThreadNum => b"omp_get_thread_num",
            Rtl::NumThreads => b"omp_get_num_threads",
            Rtl::Level => b"omp_get_level",
            Rtl::ParallelLevel => b"__kmpc_parallel_level",
            Rtl::InParallel => b"omp_in_parallel",
            Rtl::IsSpmdExecMode => b"__kmpc_is_spmd_exec_mode",
            Rtl::ForStaticInit => b"__kmpc_for_static_init_4",
            Rtl::ForStaticFini => b"__kmpc_for_static_fini",
            Rtl::Print => b"ompx_print_i64",
            Rtl::KernelParallel => b"__kmpc_kernel_parallel",
            Rtl::KernelEndParallel => b"__kmpc_kernel_end_parallel",
            Rtl::SpmdBarrier => b"__kmpc_barrier_simple_spmd",
            Rtl::GenericBarrier => b"__kmpc_barrier_simple_generic",
            Rtl::HardwareThreadId => b"__kmpc_get_hardware_thread_id_in_block",
        }
    }

    /// The type of its result.
    pub fn result(self) -> Ty
        ensures { result ≡ (entry_point self).result }
    {
        match self {
            Rtl::TargetInit
            | Rtl::GlobalThreadNum
            | Rtl::ThreadNum
            | Rtl::NumThreads
            | Rtl::Level
            | Rtl::InParallel
            | Rtl::HardwareThreadId => Ty::Int(32),
            Rtl::ParallelLevel => Ty::Int(16),
            Rtl::IsSpmdExecMode => Ty::Int(8),
            Rtl::KernelParallel => Ty::Int(1),
            Rtl::AllocShared => Ty::Ptr,
            Rtl::TargetDeinit
            | Rtl::Parallel
            | Rtl::FreeShared
            | Rtl::GetSharedVariables
            | Rtl::Barrier
            | Rtl::ForStaticInit
            | Rtl::ForStaticFini
            | Rtl::Print
            | Rtl::KernelEndParallel
            | Rtl::SpmdBarrier
            | Rtl::GenericBarrier => Ty::Void,
        }
    }

    /// The types of its parameters.
    pub fn params(self) -> &'static [Scalar]
        ensures { map scalar_type result.now ≡ (entry_point self).params }
    {
        use Scalar::{Int, Ptr};
        match self {
            Rtl::TargetInit => &[Ptr, Int(8), Int(1)],
            Rtl::TargetDeinit => &[Ptr, Int(8)],
            Rtl::Parallel => &[
                Ptr,
                Int(32),
                Int(32),
                Int(32),
                Int(32),
                Ptr,
                Ptr,
                Ptr,
                Int(64),
            ],
            Rtl::FreeShared => &[Ptr, Int(64)],
            Rtl::GetSharedVariables | Rtl::GlobalThreadNum | Rtl::KernelParallel => &[Ptr],
            Rtl::AllocShared | Rtl::Print => &[Int(64)],
            Rtl::Barrier
            | Rtl::ParallelLevel
            | Rtl::ForStaticFini
            | Rtl::SpmdBarrier
            | Rtl::GenericBarrier => &[Ptr, Int(32)],
            Rtl::ForStaticInit => { &[Ptr, Int(32), Int(32), Ptr, Ptr, Ptr, Ptr, Int(32), Int(32)] }
            Rtl::ThreadNum
            | Rtl::NumThreads
            | Rtl::Level
            | Rtl::InParallel
            | Rtl::IsSpmdExecMode
            | Rtl::KernelEndParallel
            | Rtl::HardwareThreadId => &[],
        }
    }
}
