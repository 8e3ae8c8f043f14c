//! What is asked about the names of a source.

ghost use Rattle.std.specs.Prelude.{◌≡◌, ◌++◌, ◌∷◌, [], if◌then◌else◌, map, IfOk, OnOk};
ghost use Rattle.std.specs.List.{filter, list_any};
ghost use Rattle.vd_lsp_names.specs.Asking as asking;

use crate::kinds::{Role, Use};
use std::alloc::{AllocError, Global};
use vd_base::{Items, Span};

/// Whether a name is that of the declaration at this offset.
fn is_of(name: Use, declaration: u32) -> bool
    ensures { result ≡ asking.is_of declaration name }
{
    match name.declared {
        Some(declared) => declared.at.start == declaration,
        None => false,
    }
}

/// Adds the place of a name, if it is that of the declaration at this offset.
fn push_place(places: &mut Items<Span>, name: Use, declaration: u32) -> Result<(), AllocError>
    ensures { OnOk result (places.new ≡ places.old ++ (if asking.is_of declaration name then name.at ∷ [] else [])) }
{
    if is_of(name, declaration) {
        places.push(name.at)?;
    }
    Ok(())
}

/// Where the names of the declaration at this offset stand, its own among them.
pub fn places_of(alloc: Global, uses: &[Use], declaration: u32) -> Result<Items<Span>, AllocError>
    ensures { IfOk result (λ places. places ≡ asking.places_of declaration uses.now) }
{
    let mut places = Items::new(alloc);
    for name in uses {
        push_place(&mut places, *name, declaration)?;
    }
    Ok(places)
}

/// Whether a name declares something.
fn is_declaration(name: Use) -> bool
    ensures { result ≡ asking.is_declaration name }
{
    is_of(name, name.at.start)
}

/// Adds a name, if it declares something.
fn push_declaration(found: &mut Items<Use>, name: Use) -> Result<(), AllocError>
    ensures { OnOk result (found.new ≡ found.old ++ (if asking.is_declaration name then name ∷ [] else [])) }
{
    if is_declaration(name) {
        found.push(name)?;
    }
    Ok(())
}

/// The names that declare something.
pub fn declarations(alloc: Global, uses: &[Use]) -> Result<Items<Use>, AllocError>
    ensures { IfOk result (λ found. found ≡ filter asking.is_declaration uses.now) }
{
    let mut found = Items::new(alloc);
    for name in uses {
        push_declaration(&mut found, *name)?;
    }
    Ok(found)
}

/// Whether a name uses the declaration at this offset, and is not its own.
fn is_use_of(name: Use, declaration: u32) -> bool
    ensures { result ≡ asking.is_use_of declaration name }
{
    is_of(name, declaration) && name.at.start != declaration
}

/// Whether a name uses the declaration at this offset.
fn is_used(uses: &[Use], declaration: u32) -> bool
    ensures { result ≡ list_any (asking.is_use_of declaration) uses.now }
{
    for name in uses {
        if is_use_of(*name, declaration) {
            return true;
        }
    }
    false
}

/// Whether what has this role is there to be used: principals and hosts may stand for themselves, and a loop has its name in any case.
fn wants_use(role: Role) -> bool
    ensures { result ≡ asking.wants_use role }
{
    match role {
        Role::Function | Role::Parameter | Role::Constant | Role::Variable | Role::Array => true,
        Role::Principal | Role::Host | Role::Turn => false,
    }
}

/// Whether what a name stands for is there to be used.
fn wants(name: Use) -> bool
    ensures { result ≡ asking.wants name }
{
    match name.declared {
        Some(declared) => wants_use(declared.role),
        None => false,
    }
}

/// Whether a name declares what is there to be used, and is not.
fn is_unused(uses: &[Use], name: Use) -> bool
    ensures { result ≡ asking.is_unused uses.now name }
{
    is_declaration(name) && wants(name) && !is_used(uses, name.at.start)
}

/// Adds the place of a name that is unused.
fn push_unused(found: &mut Items<Span>, uses: &[Use], name: Use) -> Result<(), AllocError>
    ensures { OnOk result (found.new ≡ found.old ++ (if asking.is_unused uses.now name then name.at ∷ [] else [])) }
{
    if is_unused(uses, name) {
        found.push(name.at)?;
    }
    Ok(())
}

/// Where what is there to be used is declared, and is not used.
pub fn unused(alloc: Global, uses: &[Use]) -> Result<Items<Span>, AllocError>
    ensures { IfOk result (λ found. found ≡ asking.unused uses.now) }
{
    let mut found = Items::new(alloc);
    for name in uses {
        push_unused(&mut found, uses, *name)?;
    }
    Ok(found)
}
