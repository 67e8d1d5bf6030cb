//! What is refused of a module's shapes.
ghost use Rattle.std.specs.Prelude.{◌≡◌, IfOk};
ghost use Rattle.ir_core.specs.NameRefusals.{least};
ghost use Rattle.name_uses.specs.Tables.{AreUses};
ghost use Rattle.shapes.specs.Facts.{insts_in};
ghost use Rattle.shapes.specs.Insts.{insts_seen};
ghost use Rattle.shapes.specs.Refusals.{shape_refusals, IsShapeRefusal, IsAnswer};

use call_graph::of_nested;
use ir_core::{Inst, OutOfMemory, Refusal};
use ir_tables::Indexed;
use kernel_shapes::of_kernels;
use name_tables::earlier;
use name_uses::Uses;
use shape_facts::insts_in as all_insts;
use shape_limits::{of_all_clauses, of_limits};
use std::alloc::Global;
use wrapper_shapes::of_wrappers;

/// What is told of all rules but that on nested regions.
fn of_rules(
    alloc: Global,
    m: &Indexed,
    uses: &Uses,
    insts: &[&Inst],
) -> Result<Option<Refusal>, OutOfMemory>
    requires uses { AreUses m.now uses.now }
    requires insts { insts_seen insts.now ≡ insts_in m.now }
    ensures { IfOk result (λ r. r ≡ least (shape_refusals m.now)) }
{
    let kernels = of_kernels(alloc, m, uses)?;
    let wrappers = of_wrappers(alloc, m, uses, insts)?;
    let sizes = earlier(of_all_clauses(insts), of_limits(m, insts));
    Ok(earlier(kernels, earlier(wrappers, sizes)))
}

/// What is told of a module's shapes: of all refusals the one of the least line, and on one line of the least number.
/// `OutOfMemory` only where no memory was left.
pub fn of_shapes(alloc: Global, m: &Indexed) -> Result<Option<Refusal>, OutOfMemory>
    ensures { IfOk result (IsAnswer (IsShapeRefusal m.now)) }
{
    let insts = all_insts(alloc, m.module())?;
    let uses = Uses::of(alloc, m.module(), insts.as_slice())?;
    let rules = of_rules(alloc, m, &uses, insts.as_slice())?;
    let nested = of_nested(alloc, m, &uses)?;
    Ok(earlier(rules, nested))
}
