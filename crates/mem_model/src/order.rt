//! Equality and order of the names of blocks, and equality of pointers.
ghost use Rattle.std.specs.Prelude.{◌≡◌, ℕ, Some, refl};
ghost use Rattle.std.specs.Cmp.{partial_equiv_from_equiv, partial_order_from_agreeing_total};
ghost use Rattle.mem_model.specs.Blocks.{block_code, block_cmp, same_block, same_ptr};
ghost use Rattle.mem_model.specs.Orders.{block_total, block_equiv, ptr_equiv};

use crate::memory::{BlockName, Ptr};
use std::cmp::Ordering;

/// A name as three numbers: its kind, and one or two numbers of that kind.
fn code(name: BlockName) -> (u8, (u64, u64))
    ensures { result ≡ block_code name }
{
    match name {
        BlockName::Arg(place) => (0, (u64::from(place), 0)),
        BlockName::Global(place) => (1, (u64::from(place), 0)),
        BlockName::Heap(number) => (2, (number, 0)),
        BlockName::Stack(thread, number) => (3, (u64::from(thread), number)),
        BlockName::Captures => (4, (0, 0)),
        BlockName::Code(place) => (5, (u64::from(place), 0)),
    }
}

impl PartialEq for BlockName {
    ghost eq = { same_block };

    ghost laws = { partial_equiv_from_equiv block_equiv };

    fn eq(&self, other: &BlockName) -> bool {
        self.cmp(other).is_eq()
    }
}

impl Eq for BlockName {
    ghost laws = { block_equiv };
}

impl PartialOrd for BlockName {
    ghost partial_cmp = { λ a b. Some (block_cmp a b) };

    ghost laws = { partial_order_from_agreeing_total block_cmp block_total (λ a b. refl) (λ a b. refl) };

    fn partial_cmp(&self, other: &BlockName) -> Option<Ordering> {
        Some(self.cmp(other))
    }
}

impl Ord for BlockName {
    ghost cmp = { block_cmp };

    ghost total = { block_total };

    ghost matches_partial_cmp = { λ a b. refl };

    ghost matches_eq = { λ a b. refl };

    fn cmp(&self, other: &BlockName) -> Ordering {
        code(*self).cmp(&code(*other))
    }
}

/// Two pointers are the same if they are one number, or one offset into one block.
impl PartialEq for Ptr {
    ghost eq = { same_ptr };

    ghost laws = { partial_equiv_from_equiv ptr_equiv };

    fn eq(&self, other: &Ptr) -> bool {
        match (*self, *other) {
            (Ptr::Num(a), Ptr::Num(b)) => a == b,
            (Ptr::At(a, i), Ptr::At(b, j)) => a == b && i == j,
            _ => false,
        }
    }
}

impl Eq for Ptr {
    ghost laws = { ptr_equiv };
}
