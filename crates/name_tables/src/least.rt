//! Of what is refused on one line the construct of least number is told.
ghost use Rattle.std.specs.Prelude.{◌≡◌};
ghost use Rattle.ir_core.specs.Notes.{construct_number};
ghost use Rattle.ir_core.specs.Typing.{expects};
ghost use Rattle.name_tables.specs.Least.{or_lesser, least_of};

use ir_core::Construct;

pub(crate) fn number(construct: Construct) -> u8
    ensures { result ≡ construct_number construct }
{
    match construct {
        Construct::Syntax => 1,
        Construct::DuplicateName => 2,
        Construct::MissingName => 3,
        Construct::TypeMismatch => 4,
        Construct::FloatType => 5,
        Construct::VectorType => 6,
        Construct::WideInteger => 7,
        Construct::AddressSpace => 8,
        Construct::UndefValue => 9,
        Construct::AggregateValue => 10,
        Construct::VolatileAccess => 11,
        Construct::InlineAsm => 12,
        Construct::IndirectCall => 13,
        Construct::UnknownCallee => 14,
        Construct::Invoke => 15,
        Construct::PointerOrder => 16,
        Construct::MetadataOperand => 17,
        Construct::Signature => 18,
        Construct::KernelShape => 19,
        Construct::SpmdInput => 20,
        Construct::WrapperShape => 21,
        Construct::ClauseArgument => 22,
        Construct::NestedParallel => 23,
        Construct::Limit => 24,
        Construct::ModeIntrinsic => 25,
        Construct::ConstantExpression => 26,
        Construct::NotBuilt => 27,
    }
}

/// The one of the lesser number, where there are two.
pub fn lesser(a: Option<Construct>, b: Option<Construct>) -> Option<Construct>
    ensures { result ≡ or_lesser a b }
{
    match (a, b) {
        (None, b) => b,
        (Some(a), None) => Some(a),
        (Some(a), Some(b)) => {
            if number(b) < number(a) {
                Some(b)
            } else {
                Some(a)
            }
        }
    }
}

/// `type_mismatch` where something doesn't hold.
pub fn expects(holds: bool) -> Option<Construct>
    ensures { result ≡ least_of (expects holds) }
{
    if holds {
        None
    } else {
        Some(Construct::TypeMismatch)
    }
}
