//! Forms and formulas of texts.
//!
//! A form is written with what joins its parts in front: `&` and `|` stand before the two forms that they join, `1` is any, `0` is
//! never, and `z` is the name zz. Every other byte is a name of one letter.

use std::alloc::{AllocError, Global};
use std::test::Fail;
use vd_base::{Form, Items, Names};
use vd_formula::Formula;

fn name(alloc: Global, text: &[u8]) -> Result<Form, AllocError> {
    Ok(Form::Name(Items::from_slice(alloc, text)?))
}

fn pair(alloc: Global, first: Form, second: Form) -> Result<Items<Form>, AllocError> {
    let mut parts = Items::new(alloc);
    parts.push(first)?;
    parts.push(second)?;
    Ok(parts)
}

/// Takes the last two forms off the end; the last one is the first of the pair.
fn last_two(alloc: Global, forms: &mut Items<Form>) -> Result<Items<Form>, Fail> {
    match (forms.pop(), forms.pop()) {
        (Some(first), Some(second)) => Ok(pair(alloc, first, second)?),
        _ => Err("a form is missing".into()),
    }
}

/// The form that begins with this byte, where the forms behind it stand in the list, the nearest one last.
fn form_at(alloc: Global, byte: u8, behind: &mut Items<Form>) -> Result<Form, Fail> {
    match byte {
        b'1' => Ok(Form::Any),
        b'0' => Ok(Form::Never),
        b'&' => Ok(Form::Both(last_two(alloc, behind)?)),
        b'|' => Ok(Form::Either(last_two(alloc, behind)?)),
        b'z' => Ok(name(alloc, b"zz")?),
        letter => Ok(name(alloc, &[letter])?),
    }
}

/// The form of a text.
pub(crate) fn form(alloc: Global, text: &str) -> Result<Form, Fail> {
    let mut forms = Items::new(alloc);
    for byte in text.as_bytes().iter().rev() {
        let form = form_at(alloc, *byte, &mut forms)?;
        forms.push(form)?;
    }
    match forms.pop() {
        Some(form) => Ok(form),
        None => Err("no form".into()),
    }
}

/// The names A, B, and so on.
pub(crate) fn letters(alloc: Global, count: usize) -> Result<Names, AllocError> {
    let mut names = Items::new(alloc);
    for letter in b"ABCDEF".iter().take(count) {
        names.push(Items::from_slice(alloc, &[*letter])?)?;
    }
    Ok(names)
}

/// The formula of a form over the names A, B and so on.
pub(crate) fn over(alloc: Global, count: usize, form: &Form) -> Result<Formula, Fail> {
    let names = letters(alloc, count)?;
    if names.as_slice().len() > 6 {
        return Err("too many names".into());
    }
    Ok(Formula::of(alloc, form, &names)?)
}

/// The formula of a text over the names A, B and so on.
pub(crate) fn formula(alloc: Global, count: usize, text: &str) -> Result<Formula, Fail> {
    let form = form(alloc, text)?;
    over(alloc, count, &form)
}
