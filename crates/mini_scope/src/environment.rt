//! The scopes around a place.

ghost use Rattle.std.specs.Prelude.{◌≡◌, ◌+◌, ◌-◌, ◌^◌, ◌<◌, ◌++◌, ◌∷◌, [], length, take, IfOk, OnOk};
ghost use Rattle.mini_laws.specs.Resolved.{symbol_of, own_symbol, or_else, is_for as is_binding_for, numbered};
ghost use Rattle.mini_scope.specs.Spelled.{has_name, spelled};

use crate::numbers::{number_of, number_or_new};
use mini_laws::{Binding, Use};
use mini_model::{OutOfMemory, SymbolId, Text};
use std::alloc::Global;
use std::collections::BTreeMap;
use std::marker::Model;

/// The names that the scopes around a place declare, the outermost first. A contract sees the list.
#[derive(Drop)]
pub struct Environment {
    alloc: Global,
    bindings: Vec<Binding>,
    numbers: BTreeMap<Vec<u16>, usize>,
    buckets: Vec<Vec<usize>>,
}

impl Model for Environment {
    ghost use Rattle.std.specs.Prelude.{List};
    ghost use Rattle.mini_laws.specs.declared.names.Binding.{Binding};
    ghost use Rattle.mini_scope.specs.Spelled.{Holds};

    ghost Value = { List Binding };

    ghost view = { λ e. e.bindings.items };

    ghost invariant = { λ e. Holds e.numbers e.buckets.items e.bindings.items };
}

fn is_for(usage: Use, spelling: &Text, binding: &Binding) -> bool
    ensures { result ≡ is_binding_for usage spelling.now binding.now }
{
    let serves = match usage {
        Use::Hoisted | Use::Headed => binding.hoists,
        _ => true,
    };
    serves && binding.name.spelling.as_slice() == spelling.as_slice()
}

fn later(
    found: Option<SymbolId>,
    usage: Use,
    spelling: &Text,
    binding: &Binding,
) -> Option<SymbolId>
    ensures { result ≡ or_else (own_symbol usage spelling.now binding.now) found }
{
    if is_for(usage, spelling, binding) {
        match binding.name.symbol {
            Some(symbol) => Some(symbol),
            None => found,
        }
    } else {
        found
    }
}

impl Environment {
    /// No scope.
    pub fn new(alloc: Global) -> Environment
        ensures { result ≡ [] }
    {
        Environment {
            alloc,
            bindings: Vec::new(alloc),
            numbers: BTreeMap::new(alloc),
            buckets: Vec::new(alloc),
        }
    }

    /// Enters a scope: its names get the symbols from a number on. The answer is the number after
    /// them. The only error is that memory runs out.
    pub fn enter(&mut self, next: u32, scope: Vec<Binding>) -> Result<u32, OutOfMemory>
        requires { next + length scope.items < 2 ^ 32 }
        ensures after { IfOk result (λ after. after ≡ next + length scope.items) }
        ensures entered { IfOk result (λ after. self.new ≡ self.old ++ numbered next scope.items) }
    {
        let mut symbol = next;
        for mut binding in scope {
            binding.name.symbol = Some(SymbolId(symbol));
            self.push(binding)?;
            symbol += 1;
        }
        Ok(symbol)
    }

    /// Leaves the scopes whose names stand past a length.
    pub fn leave(&mut self, length: usize)
        ensures { self.new ≡ take length self.old }
    {
        while self.len() > length {
            self.pop();
        }
    }

    /// How many names the scopes declare in all.
    pub fn len(&self) -> usize
        ensures { result ≡ length self.now }
    {
        self.bindings.len()
    }

    // The places of the names with this spelling.
    fn places_of(&self, spelling: &Text) -> &[usize]
        ensures { result.now ≡ spelled spelling.now 0 self.now }
    {
        match number_of(&self.numbers, spelling) {
            Some(number) => self.buckets[number].as_slice(),
            None => &[],
        }
    }

    /// The symbol of the innermost name with this spelling that serves the use; None where there is
    /// none, or that name has none.
    pub fn symbol_of(&self, usage: Use, spelling: &Text) -> Option<SymbolId>
        ensures { result ≡ symbol_of usage spelling.now self.now }
    {
        let mut found = None;
        for place in self.places_of(spelling) {
            found = later(found, usage, spelling, &self.bindings[*place]);
        }
        found
    }

    /// Whether there is a name with this spelling that serves the use.
    pub fn has(&self, usage: Use, spelling: &Text) -> bool
        ensures { result ≡ has_name usage spelling.now self.now }
    {
        for place in self.places_of(spelling) {
            if is_for(usage, spelling, &self.bindings[*place]) {
                return true;
            }
        }
        false
    }

    /// The names as a list, the outermost first.
    pub fn into_bindings(self) -> Vec<Binding>
        ensures { result.items ≡ self }
    {
        self.bindings
    }

    /// Declares one more name, as the innermost. The only error is that memory runs out.
    pub fn push(&mut self, binding: Binding) -> Result<(), OutOfMemory>
        ensures { OnOk result (self.new ≡ self.old ++ binding ∷ []) }
    {
        let place = self.bindings.len();
        let spelling = &binding.name.spelling;
        let bucket = number_or_new(self.alloc, &mut self.numbers, &mut self.buckets, spelling)?;
        match self.bindings.push(binding) {
            Ok(()) => {}
            Err(_) => return Err(OutOfMemory),
        }
        let places = &mut self.buckets[bucket];
        match places.push(place) {
            Ok(()) => Ok(()),
            Err(_) => {
                self.bindings.pop();
                Err(OutOfMemory)
            }
        }
    }

    /// Takes the innermost name out; there must be one.
    pub fn pop(&mut self)
        requires { 0 < length self.old }
        ensures { self.new ≡ take (length self.old - 1) self.old }
    {
        if let Some(binding) = self.bindings.pop() {
            if let Some(bucket) = number_of(&self.numbers, &binding.name.spelling) {
                let places = &mut self.buckets[bucket];
                places.pop();
            }
        }
    }
}
