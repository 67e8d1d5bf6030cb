//! The types, globals and functions of a module by their names.
ghost use Rattle.std.specs.Prelude.{◌≡◌, option_map, option_copied};
ghost use Rattle.std.specs.List.{find};
ghost use Rattle.std.specs.Str.{bytes_eq};
ghost use Rattle.ir_core.specs.Given.{type_given, symbol_given, first_symbol};
ghost use Rattle.name_tables.specs.Tables.{symbol_seen};

use ir_core::{Function, Module, Name, Ty, TypeDef};
use ir_tables::Indexed;
use std::marker::Model;

/// What `@N` stands for.
#[derive(Clone, Copy)]
pub enum Symbol<'a> {
    /// A global variable.
    Variable,
    Routine(&'a Function),
}

/// What the names of a module stand for. Contracts see the module.
#[derive(Drop)]
pub struct Tables<'a> {
    indexed: &'a Indexed,
}

impl<'a> Model for Tables<'a> {
    ghost use Rattle.std.specs.Coded.{codes};
    ghost use Rattle.ir_core.specs.contracts.types.Ty as ty;
    ghost use Rattle.ir_core.specs.contracts.module.Init as init;
    ghost use Rattle.ir_core.specs.declared.module.Module.{Module};

    ghost Value = { Module };

    ghost coded = { Prim.hlevel (codes, ty.the_row.coded, init.the_row.coded) };

    ghost view = { λ t. t.indexed.now };
}

fn first_symbol<'a>(
    global: Option<&'a ir_core::Global>,
    function: Option<&'a Function>,
) -> Option<Symbol<'a>>
    ensures { option_map symbol_seen result ≡ first_symbol (option_copied global.entry) (option_copied function.entry) }
{
    match (global, function) {
        (None, None) => None,
        (Some(_), None) => Some(Symbol::Variable),
        (None, Some(function)) => Some(Symbol::Routine(function)),
        (Some(global), Some(function)) => {
            if function.line < global.line {
                Some(Symbol::Routine(function))
            } else {
                Some(Symbol::Variable)
            }
        }
    }
}

impl<'a> Tables<'a> {
    /// The names of a module.
    pub fn of(indexed: &'a Indexed) -> Tables<'a>
        ensures { result ≡ indexed.now }
    {
        Tables { indexed }
    }

    /// The module.
    pub fn module(&self) -> &'a Module
        ensures { result.now ≡ self.now }
    {
        self.indexed.module()
    }

    fn type_def(&self, name: &Name) -> Option<&'a TypeDef>
        ensures { option_copied result ≡ find (λ d. bytes_eq d.name name.now) self.now.types }
    {
        match self.indexed.type_place(name) {
            None => None,
            Some(at) => self.module().types.get(at),
        }
    }

    /// What the name of a type stands for.
    pub fn type_given(&self, name: &Name) -> Option<&'a Ty>
        ensures { option_copied result ≡ type_given self.now.types name.now }
    {
        match self.type_def(name) {
            None => None,
            Some(def) => Some(&def.body),
        }
    }

    fn global(&self, name: &Name) -> Option<&'a ir_core::Global>
        ensures { option_copied result ≡ find (λ g. bytes_eq g.name name.now) self.now.globals }
    {
        match self.indexed.global(name) {
            None => None,
            Some(at) => self.module().globals.get(at),
        }
    }

    fn function(&self, name: &Name) -> Option<&'a Function>
        ensures { option_copied result ≡ find (λ f. bytes_eq f.name name.now) self.now.functions }
    {
        match self.indexed.function(name) {
            None => None,
            Some(at) => self.module().functions.get(at),
        }
    }

    /// What the name of a global or a function stands for.
    pub fn symbol(&self, name: &Name) -> Option<Symbol<'a>>
        ensures { option_map symbol_seen result ≡ symbol_given self.now name.now }
    {
        first_symbol(self.global(name), self.function(name))
    }
}
