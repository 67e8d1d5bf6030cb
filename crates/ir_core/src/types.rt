//! Types (LLVM Language Reference, "Type System").
use crate::name::Name;
use sqlite_items::{Boxed, Items as List};

/// A type as it is written.
#[derive(Drop)]
pub enum Ty {
    /// `void`, as a result alone.
    Void,
    /// `iN`, with N the number of bits: 1, 8, 16, 32 or 64 in a module that is read.
    Int(u32),
    /// `ptr`, of address space 0.
    Ptr,
    /// `[n x T]`.
    Array(u64, Boxed<Ty>),
    /// `{ T, .. }`.
    Struct(List<Ty>),
    /// `%N`.
    Named(Name),
}

/// A type that a register can have. An integer's width is in bits.
#[derive(Clone, Copy)]
pub enum Scalar {
    Int(u32),
    Ptr,
}
