//! Functions that stand on call paths: those that are defined and no wrappers.
ghost use Rattle.std.specs.Prelude.{◌≡◌, map, IfOk};
ghost use Rattle.ir_core.specs.declared.module.Module.{Module as ModuleData};
ghost use Rattle.name_uses.specs.Tables.{AreUses};
ghost use Rattle.call_graph.specs.Targets.{is_on_paths, path_place};

use ir_core::{Function, List, Name, OutOfMemory};
use ir_tables::Indexed;
use name_uses::Uses;
use std::alloc::Global;

fn is_on_paths(uses: &Uses, f: &Function) -> bool
    ensures { (m : ModuleData) → AreUses m uses.now → result ≡ is_on_paths m f.now }
{
    !f.blocks.as_slice().is_empty() && !uses.is_wrapper(f)
}

/// Whether the function at each place stands on call paths.
pub fn on_paths(alloc: Global, m: &Indexed, uses: &Uses) -> Result<List<bool>, OutOfMemory>
    requires { AreUses m.now uses.now }
    ensures { IfOk result (λ marks. marks ≡ map (is_on_paths m.now) m.now.functions) }
{
    let mut marks = List::new(alloc);
    for f in m.module().functions.as_slice() {
        marks.push(is_on_paths(uses, f))?;
    }
    Ok(marks)
}

/// The place of the function of a name, if it stands on call paths.
pub fn path_place(m: &Indexed, paths: &[bool], name: &Name) -> Option<usize>
    requires { paths.now ≡ map (is_on_paths m.now) m.now.functions }
    ensures { result ≡ path_place m.now name.now }
{
    let at = m.function(name)?;
    match paths.get(at) {
        Some(true) => Some(at),
        _ => None,
    }
}
