//! The call paths of a module, found once.
ghost use Rattle.std.specs.Prelude.{◌≡◌, ◌↔◌, ◌<◌, length, true, IfOk};
ghost use Rattle.ir_core.specs.declared.module.Module.{Module as ModuleData};
ghost use Rattle.shapes.specs.CallPaths.{Calls as CallsTo, IsOnMainSide, IsOnRegionSide};
ghost use Rattle.call_graph.specs.Graphs.{IsGraphOf};
ghost use Rattle.call_paths.specs.Known.{AreCalls, IsRowOf, AreRowsOf};
ghost use Rattle.call_paths.specs.Runs.{Reaches, ReachesRegion, Runs, StandsOn};

use crate::regions::reaching;
use crate::rows::{all_rows, is_marked, is_marked_in};
use crate::running::runs;
use call_graph::{calls, main_side, region_side};
use checked_modules::Checked;
use ir_core::{List, OutOfMemory};
use ir_tables::Indexed;
use name_uses::Uses;
use reach::Graph;
use shape_facts::insts_in;
use std::alloc::Global;

/// The side of a fork on which a function stands: a call path leads to it from a kernel, or from a region function whose fork stands in
/// such a function.
#[derive(Clone, Copy)]
pub enum Side {
    Main,
    Region,
    Both,
    Neither,
}

/// The call paths of a module. A function is named by its place in the module.
#[derive(Drop)]
pub struct Calls {
    main: List<bool>,
    region: List<bool>,
    reaching: List<bool>,
    reaches: List<List<bool>>,
    runs: List<List<bool>>,
}

/// The calls of the module, as a graph over the places of its functions.
fn calls_of(alloc: Global, m: &Indexed) -> Result<Graph, OutOfMemory>
    ensures { IfOk result (IsGraphOf (CallsTo m.now) (length m.now.functions)) }
{
    let insts = insts_in(alloc, m.module())?;
    let uses = Uses::of(alloc, m.module(), insts.as_slice())?;
    calls(alloc, m, &uses)
}

/// For each function whether it stands on the main side.
fn main_row(alloc: Global, m: &Indexed, calls: &Graph) -> Result<List<bool>, OutOfMemory>
    requires { IsGraphOf (CallsTo m.now) (length m.now.functions) calls.now }
    ensures { IfOk result (IsRowOf (IsOnMainSide m.now)) }
{
    let marks = main_side(alloc, m, calls)?;
    Ok(List::from_vec(marks))
}

/// For each function whether it stands on the region side.
fn region_row(alloc: Global, m: &Indexed, calls: &Graph) -> Result<List<bool>, OutOfMemory>
    requires { IsGraphOf (CallsTo m.now) (length m.now.functions) calls.now }
    ensures { IfOk result (IsRowOf (IsOnRegionSide m.now)) }
{
    let marks = region_side(alloc, m, calls)?;
    Ok(List::from_vec(marks))
}

/// For each function the functions that call paths lead to.
fn reach_rows(alloc: Global, m: &Indexed, calls: &Graph) -> Result<List<List<bool>>, OutOfMemory>
    requires { IsGraphOf (CallsTo m.now) (length m.now.functions) calls.now }
    ensures { IfOk result (AreRowsOf (Reaches m.now) (length m.now.functions)) }
{
    all_rows(alloc, calls)
}

impl Calls {
    /// The call paths of the module: one search for each function and one for each kernel. `OutOfMemory` only where no memory was left.
    pub fn of(alloc: Global, m: &Checked) -> Result<Calls, OutOfMemory>
        ensures { IfOk result (AreCalls m.now) }
    {
        let m = m.indexed();
        let calls = calls_of(alloc, m)?;
        let main = main_row(alloc, m, &calls)?;
        let region = region_row(alloc, m, &calls)?;
        let reaches = reach_rows(alloc, m, &calls)?;
        let reaching = reaching(alloc, m.module(), reaches.as_slice())?;
        let runs = runs(alloc, m, calls)?;
        Ok(Calls {
            main,
            region,
            reaching,
            reaches,
            runs,
        })
    }

    /// Whether a call path leads from one function to another; every function reaches itself.
    pub fn reaches(&self, from: usize, to: usize) -> bool
        ensures { (m : ModuleData) → AreCalls m self.now → from < length m.functions → (result ≡ true) ↔ Reaches m from to }
    {
        is_marked_in(&self.reaches, from, to)
    }

    /// On which side the function stands.
    pub fn side(&self, at: usize) -> Side
        ensures { (m : ModuleData) → AreCalls m self.now → StandsOn m at result }
    {
        let main = is_marked(self.main.as_slice(), at);
        let region = is_marked(self.region.as_slice(), at);
        match (main, region) {
            (true, false) => Side::Main,
            (false, true) => Side::Region,
            (true, true) => Side::Both,
            (false, false) => Side::Neither,
        }
    }

    /// Whether a call path leads from the function to a fork.
    pub fn reaches_region(&self, at: usize) -> bool
        ensures { (m : ModuleData) → AreCalls m self.now → (result ≡ true) ↔ ReachesRegion m at }
    {
        is_marked(self.reaching.as_slice(), at)
    }

    /// Whether the kernel runs the function.
    pub fn reached_by(&self, kernel: usize, at: usize) -> bool
        ensures { (m : ModuleData) → AreCalls m self.now → (result ≡ true) ↔ Runs m kernel at }
    {
        is_marked_in(&self.runs, kernel, at)
    }
}
