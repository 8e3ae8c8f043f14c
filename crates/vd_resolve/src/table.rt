//! Tables of names.

ghost use Rattle.std.specs.Prelude.{◌≡◌, [], ◌∷◌, ◌++◌, length, take, is_some, option_copied, option_map, OnOk, IfErr, false};
ghost use Rattle.vd_base.specs.Names.{at_name};
ghost use Rattle.vd_resolve.specs.declared.fault.NameFault.TheVariants.{Memory as want_of_memory};
ghost use Rattle.vd_resolve.specs.Tables.{Table, names, places};

use crate::fault::NameFault;
use indexmap::IndexMap;
use std::alloc::Global;
use std::marker::Model;
use vd_base::Span;
use vd_core::Ident;

/// Names in the order in which they were declared, each with what it stands for and where it was declared.
#[derive(Drop)]
pub(crate) struct NameTable<'a, V> {
    entries: IndexMap<&'a [u8], (V, Span)>,
}

impl<'a, V> Model for NameTable<'a, V> {
    ghost use Rattle.std.specs.Prelude.{map};
    ghost use Rattle.std.specs.Coded.{coded_list, coded×, coded_ℕ};
    ghost use Rattle.vd_base.specs.contracts.ids.Span as span;
    ghost use Rattle.vd_resolve.specs.Tables.{Table as Listed};

    ghost Value = { Listed V };

    ghost coded = { coded× (coded_list (coded× (coded_list coded_ℕ) V.code)) (coded_list (coded× (coded_list coded_ℕ) span.the_row.coded)) };

    ghost view = { λ table. (
      map (λ e. (e.0.now, e.1.0)) table.entries.entries,
      map (λ e. (e.0.now, e.1.1)) table.entries.entries,
    ) };
}

impl<'a, V> NameTable<'a, V> {
    pub fn new(alloc: Global) -> Self
        ensures { result ≡ ([], []) }
    {
        NameTable {
            entries: IndexMap::new(alloc),
        }
    }

    pub fn len(&self) -> usize
        ensures len { result ≡ length (names self.now) }
        ensures placed { result ≡ length (places self.now) }
    {
        self.entries.len()
    }

    /// What the name stands for and where it was declared, if it is here.
    fn find(&self, name: &[u8]) -> Option<&(V, Span)>
        ensures value { option_map (λ entry. entry.now.0) result ≡ at_name (names self.now) name.now }
        ensures place { option_map (λ entry. entry.now.1) result ≡ at_name (places self.now) name.now }
    {
        self.entries.get(name)
    }

    /// What the name stands for, if it is here.
    pub fn get(&self, name: &[u8]) -> Option<&V>
        ensures { option_copied result ≡ at_name (names self.now) name.now }
    {
        match self.find(name) {
            Some(entry) => Some(&entry.0),
            None => None,
        }
    }

    /// Where the name was declared, if it is here.
    pub fn place(&self, name: &[u8]) -> Option<Span>
        ensures place { result ≡ at_name (places self.now) name.now }
        ensures known { is_some result ≡ is_some (at_name (names self.now) name.now) }
    {
        match self.find(name) {
            Some(entry) => Some(entry.1),
            None => None,
        }
    }

    pub fn contains(&self, name: &[u8]) -> bool
        ensures { result ≡ is_some (at_name (names self.now) name.now) }
    {
        self.place(name).is_some()
    }

    /// Adds a name that is not here yet, which is declared at this place.
    fn insert(&mut self, name: &'a [u8], value: V, at: Span) -> Result<(), NameFault>
    where
        V: Drop,
        requires { is_some (at_name (names self.old) name.now) ≡ false }
        ensures ok { OnOk result (self.new ≡ (
          names self.old ++ (name.now, value) ∷ [],
          places self.old ++ (name.now, at) ∷ [],
        )) }
        ensures fault { IfErr result (λ fault. fault ≡ want_of_memory) }
    {
        match self.entries.insert(name, (value, at)) {
            Ok(_) => Ok(()),
            Err(_) => Err(NameFault::Memory),
        }
    }

    /// Adds a name that is not here yet, at its own place.
    pub fn add(&mut self, name: &'a Ident, value: V) -> Result<(), NameFault>
    where
        V: Drop,
        requires { is_some (at_name (names self.old) name.now.name) ≡ false }
        ensures ok { OnOk result (self.new ≡ (
          names self.old ++ (name.now.name, value) ∷ [],
          places self.old ++ (name.now.name, name.now.span) ∷ [],
        )) }
        ensures fault { IfErr result (λ fault. fault ≡ want_of_memory) }
    {
        self.insert(name.name.as_slice(), value, name.span)
    }

    /// Keeps the first `len` names: so it is again what it was when it had so many.
    pub fn truncate(&mut self, len: usize)
    where
        V: Drop,
        ensures cut { self.new ≡ (take len (names self.old), take len (places self.old)) }
        ensures restores { (before : Table V) →
            take (length (names before)) (names self.old) ≡ names before →
            take (length (places before)) (places self.old) ≡ places before →
            len ≡ length (names before) → len ≡ length (places before) → self.new ≡ before }
    {
        self.entries.truncate(len);
    }
}
