//! Stores, which have a default wherever nothing was written.

ghost use Rattle.std.specs.Prelude.{◌≡◌, OnOk, IfOk, [], replicate, slice_index_or, slice_set};
ghost use Rattle.vd_semantics.specs.Stores.{put};

use std::alloc::{AllocError, Global};
use vd_base::{Items, Words};

/// Writes a word; up to there zeros stand.
pub fn put_word(store: &mut Vec<u32>, at: usize, word: u32) -> Result<(), AllocError>
    ensures { OnOk result (store.new.items ≡ put 0 store.old.items at word) }
{
    while store.len() <= at {
        store.push(0)?;
    }
    store[at] = word;
    Ok(())
}

/// Writes an array; up to there empty ones stand.
pub fn put_array(
    alloc: Global,
    store: &mut Vec<Words>,
    at: usize,
    array: Words,
) -> Result<(), AllocError>
    ensures { OnOk result (store.new.items ≡ put [] store.old.items at array) }
{
    while store.len() <= at {
        store.push(Items::new(alloc))?;
    }
    store[at] = array;
    Ok(())
}

/// Writes one word of an array of a store.
pub fn put_element(
    alloc: Global,
    store: &mut Vec<Words>,
    at: usize,
    index: u32,
    word: u32,
) -> Result<(), AllocError>
    ensures { OnOk result (store.new.items ≡ put [] store.old.items at (slice_set (slice_index_or store.old.items at []) index word)) }
{
    if at < store.len() {
        set_element(&mut store[at], index, word);
        Ok(())
    } else {
        put_array(alloc, store, at, Items::new(alloc))
    }
}

/// Writes one word of an array; out of range nothing is written.
pub(crate) fn set_element(array: &mut Words, index: u32, word: u32)
    ensures { array.new ≡ slice_set array.old index word }
{
    if (index as usize) < array.as_slice().len() {
        array.set(index as usize, word);
    }
}

/// An array as it is made.
pub fn zeros(alloc: Global, size: u32) -> Result<Words, AllocError>
    ensures { IfOk result (λ array. array ≡ replicate size 0) }
{
    let mut array = Vec::new(alloc);
    array.resize(size as usize, 0)?;
    Ok(Items::from_vec(array))
}
