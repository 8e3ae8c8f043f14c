//! Names in sight, the newest last, each with what it stands for.

ghost use Rattle.std.specs.Prelude.{◌≡◌, [], ◌∷◌, ◌++◌, length, take, option_copied, OnOk, OnErr};
ghost use Rattle.vd_base.specs.Names.{at_name, changed};

use crate::base_lists::Items;
use crate::lists::Name;
use std::alloc::{AllocError, Global};
use std::marker::Model;
use std::mem;

/// Names in sight, the newest last, each with what it stands for: the first entry of a name has it.
#[derive(Drop)]
pub struct Scope<T> {
    entries: Vec<(Name, T)>,
}

impl<T> Model for Scope<T> {
    ghost use Rattle.std.specs.Coded.{coded_list, coded×, coded_ℕ};
    ghost use Rattle.vd_base.specs.Names.{Named};

    ghost Value = { Named T };

    ghost coded = { coded_list (coded× (coded_list coded_ℕ) T.code) };

    ghost view = { λ scope. scope.entries.items };
}

impl<T> Scope<T> {
    pub fn new(alloc: Global) -> Scope<T>
        ensures { result ≡ [] }
    {
        Scope {
            entries: Vec::new(alloc),
        }
    }

    pub fn len(&self) -> usize
        ensures { result ≡ length self.now }
    {
        self.entries.len()
    }

    /// What a name stands for, if it is in sight.
    pub fn find(&self, name: &[u8]) -> Option<&T>
        ensures { option_copied result ≡ at_name self.now name.now }
    {
        find_entry(self.entries.as_slice(), name)
    }
}

impl<T: Drop> Scope<T> {
    /// Brings one more name into sight.
    pub fn add(&mut self, name: &[u8], is: T) -> Result<(), AllocError>
        ensures ok { OnOk result (self.new ≡ self.old ++ (name.now, is) ∷ []) }
        ensures err { OnErr result (self.new ≡ self.old) }
    {
        let name = Items::from_slice(*self.entries.allocator(), name)?;
        self.entries.push((name, is))?;
        Ok(())
    }

    /// Lets a name that is in sight stand for something else, and gives back what it stood for.
    pub fn replace(&mut self, name: &[u8], is: T) -> Option<T>
        ensures former { result ≡ at_name self.old name.now }
        ensures names { self.new ≡ changed (λ former. is) name.now self.old }
    {
        replace_entry(&mut self.entries, name, is)
    }

    /// Keeps the first `len` names, as where a block ends.
    pub fn truncate(&mut self, len: usize)
        ensures { self.new ≡ take len self.old }
    {
        self.entries.truncate(len);
    }
}

fn find_entry<'a, T>(entries: &'a [(Name, T)], name: &[u8]) -> Option<&'a T>
    ensures { option_copied result ≡ at_name entries.now name.now }
{
    for entry in entries {
        if entry.0.as_slice() == name {
            return Some(&entry.1);
        }
    }
    None
}

fn replace_entry<T: Drop>(entries: &mut Vec<(Name, T)>, name: &[u8], is: T) -> Option<T>
    ensures former { result ≡ at_name entries.old.items name.now }
    ensures names { entries.new.items ≡ changed (λ former. is) name.now entries.old.items }
{
    for i in 0..entries.len() {
        if entries[i].0.as_slice() == name {
            return Some(mem::replace(&mut entries[i].1, is));
        }
    }
    None
}
