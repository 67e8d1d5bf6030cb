//! Modules without tables.
ghost use Rattle.std.specs.Prelude.{◌≡◌};

use ir_tables::Indexed;

/// The module without its tables.
pub(crate) fn without_tables(indexed: Indexed) -> Indexed
    ensures { result ≡ indexed }
{
    for place in 0..indexed.module().functions.len() {
        let _ = indexed.register_count(place);
    }
    Indexed::bare(indexed.into_module())
}
