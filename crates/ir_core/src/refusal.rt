//! What a text is refused for.
ghost use Rattle.std.specs.Prelude.{◌≡◌, ◌≤◌, ◌+◌, ◌++◌, length, take};
ghost use Rattle.ir_core.specs.Notes.{construct_text, refusal_text};

use itoa::Buffer;

/// What a refused text has that is not read, in the order of the numbers from 1 by which refusals on one line are told apart.
#[derive(Clone, Copy)]
pub enum Construct {
    Syntax,
    DuplicateName,
    MissingName,
    TypeMismatch,
    FloatType,
    VectorType,
    WideInteger,
    AddressSpace,
    UndefValue,
    AggregateValue,
    VolatileAccess,
    InlineAsm,
    IndirectCall,
    UnknownCallee,
    Invoke,
    PointerOrder,
    MetadataOperand,
    Signature,
    KernelShape,
    SpmdInput,
    WrapperShape,
    ClauseArgument,
    NestedParallel,
    Limit,
    ModeIntrinsic,
    ConstantExpression,
    /// The text is beyond what the program reads or optimises by now.
    NotBuilt,
}

/// A refusal: what is refused, and the line where it stands, counted from 1.
#[derive(Clone, Copy)]
pub struct Refusal {
    pub construct: Construct,
    pub line: u32,
}

impl Construct {
    /// The construct's name in a refusal.
    pub fn name(self) -> &'static [u8]
        ensures { result.now ≡ construct_text self }
    {
        match self {
            Construct::Syntax => b"syntax",
            Construct::DuplicateName => b"duplicate_name",
            Construct::MissingName => b"missing_name",
            Construct::TypeMismatch => b"type_mismatch",
            Construct::FloatType => b"float_type",
            Construct::VectorType => b"vector_type",
            Construct::WideInteger => b"wide_integer",
            Construct::AddressSpace => b"address_space",
            Construct::UndefValue => b"undef_value",
            Construct::AggregateValue => b"aggregate_value",
            Construct::VolatileAccess => b"volatile_access",
            Construct::InlineAsm => b"inline_asm",
            Construct::IndirectCall => b"indirect_call",
            Construct::UnknownCallee => b"unknown_callee",
            Construct::Invoke => b"invoke",
            Construct::PointerOrder => b"pointer_order",
            Construct::MetadataOperand => b"metadata_operand",
            Construct::Signature => b"signature",
            Construct::KernelShape => b"kernel_shape",
            Construct::SpmdInput => b"spmd_input",
            Construct::WrapperShape => b"wrapper_shape",
            Construct::ClauseArgument => b"clause_argument",
            Construct::NestedParallel => b"nested_parallel",
            Construct::Limit => b"limit",
            Construct::ModeIntrinsic => b"mode_intrinsic",
            Construct::ConstantExpression => b"constant_expression",
            Construct::NotBuilt => b"not_built",
        }
    }
}

// Puts a piece at a place of the buffer, and gives the place behind it.
fn put(buf: &mut [u8], at: usize, piece: &[u8]) -> usize
    requires room { at + length piece.now ≤ length buf.old }
    ensures end { result ≡ at + length piece.now }
    ensures written { take result buf.new ≡ take at buf.old ++ piece.now }
{
    let end = at + piece.len();
    buf[at..end].copy_from_slice(piece);
    end
}

impl Refusal {
    /// Puts the refusal's line, without a line end, at the front of the buffer, and gives its length in bytes.
    pub fn print(&self, buf: &mut [u8; 128]) -> usize
        ensures text { take result buf.new ≡ refusal_text self.now }
        ensures within { result ≤ 128 }
    {
        let mut digits = Buffer::new();
        let end = put(buf, 0, b"ompopt: refused: ");
        let end = put(buf, end, self.construct.name());
        let end = put(buf, end, b" at line ");
        put(buf, end, digits.format(self.line).as_bytes())
    }
}
