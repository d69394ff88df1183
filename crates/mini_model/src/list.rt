ghost use Rattle.std.specs.Prelude.{◌≡◌, [], ◌∷◌, ◌++◌, ◌<◌, ◌≤◌, ◌==◌, length, slice_get, insert, remove, IfErr, OnOk, OnErr, OnSome, MatchOption};
ghost use Rattle.std.specs.Option.{option_copied};
ghost use Rattle.std.specs.Borrow.{sem};
ghost use Rattle.mini_model.specs.Lends.{LendsItem, lent_value};

use crate::OutOfMemory;
use std::alloc::{AllocFailed, Global};
use std::marker::Model;

/// A list that owns its items and keeps the allocator that it was made with. A contract sees the
/// list of the items.
pub struct OwnedList<T> {
    items: Vec<T>,
}

impl<T> Model for OwnedList<T> {
    ghost use Rattle.std.specs.Prelude.{List};
    ghost use Rattle.std.specs.Coded.{coded_list};

    ghost Value = { List T };

    ghost coded = { coded_list T.code };

    ghost view = { λ list. list.items.items };
}

impl<T> OwnedList<T> {
    /// The empty list, without memory.
    pub fn new(alloc: Global) -> OwnedList<T>
        ensures { result ≡ [] }
    {
        OwnedList {
            items: Vec::new(alloc),
        }
    }

    /// The allocator that the list was made with.
    pub fn allocator(&self) -> Global {
        *self.items.allocator()
    }

    /// How many items there are.
    pub fn len(&self) -> usize
        ensures { result ≡ length self.now }
    {
        self.items.len()
    }

    /// Whether there is no item.
    pub fn is_empty(&self) -> bool
        ensures { result ≡ (length self.now == 0) }
    {
        self.items.is_empty()
    }

    /// The items, in order.
    pub fn as_slice(&self) -> &[T]
        ensures { result.now ≡ self.now }
    {
        self.items.as_slice()
    }

    /// The item at a place; None exactly where the place isn't below the length.
    pub fn get(&self, at: usize) -> Option<&T>
        ensures value { option_copied result ≡ slice_get self.now at }
        ensures within { OnSome result (at < length self.now) }
    {
        self.items.get(at)
    }

    /// The item at a place, for writing; None exactly where the place isn't below the length.
    pub fn get_mut(&mut self, at: usize) -> Option<&mut T>
        ensures* writes_back { sem 𝓛 (LendsItem T.row self.entry at result) }
        ensures value { lent_value result ≡ slice_get self.old at }
    {
        self.items.get_mut(at)
    }

    /// Puts the item last. Where there is no memory the list is as it was, and the item comes back.
    pub fn try_push(&mut self, item: T) -> Result<(), AllocFailed<T>>
        ensures ok { OnOk result (self.new ≡ self.old ++ item ∷ []) }
        ensures err { OnErr result (self.new ≡ self.old) }
        ensures comes_back { IfErr result (λ refused. refused.value ≡ item) }
    {
        self.items.push(item)
    }

    /// Puts the item at a place up to the length. Where there is no memory the list is as it was,
    /// and the item comes back.
    pub fn try_insert(&mut self, at: usize, item: T) -> Result<(), AllocFailed<T>>
        requires { at ≤ length self.old }
        ensures ok { OnOk result (self.new ≡ insert self.old at item) }
        ensures err { OnErr result (self.new ≡ self.old) }
        ensures comes_back { IfErr result (λ refused. refused.value ≡ item) }
    {
        self.items.insert(at, item)
    }

    /// Takes the last item out; None exactly where the list is empty.
    pub fn pop(&mut self) -> Option<T>
        ensures { MatchOption result ((self.old ≡ []) × (self.new ≡ [])) (λ last. self.old ≡ self.new ++ last ∷ []) }
    {
        self.items.pop()
    }

    /// Takes the item at a place out; None exactly where the place isn't below the length, and then
    /// nothing changes.
    pub fn remove(&mut self, at: usize) -> Option<T>
        ensures item { result ≡ slice_get self.old at }
        ensures rest { self.new ≡ remove self.old at }
    {
        if at < self.items.len() {
            Some(self.items.remove(at))
        } else {
            None
        }
    }
}

impl<T: Drop> OwnedList<T> {
    /// Puts the item last. After `OutOfMemory` the list is as it was, and the item is gone.
    pub fn push(&mut self, item: T) -> Result<(), OutOfMemory>
        ensures ok { OnOk result (self.new ≡ self.old ++ item ∷ []) }
        ensures err { OnErr result (self.new ≡ self.old) }
    {
        match self.items.push(item) {
            Ok(()) => Ok(()),
            Err(_) => Err(OutOfMemory),
        }
    }

    /// Puts the item at a place up to the length. After `OutOfMemory` the list is as it was, and
    /// the item is gone.
    pub fn insert(&mut self, at: usize, item: T) -> Result<(), OutOfMemory>
        requires { at ≤ length self.old }
        ensures ok { OnOk result (self.new ≡ insert self.old at item) }
        ensures err { OnErr result (self.new ≡ self.old) }
    {
        match self.items.insert(at, item) {
            Ok(()) => Ok(()),
            Err(_) => Err(OutOfMemory),
        }
    }
}

impl<T: Drop> Drop for OwnedList<T> {
    fn drop(self) {
        let OwnedList { items } = self;
        drop(items);
    }
}
