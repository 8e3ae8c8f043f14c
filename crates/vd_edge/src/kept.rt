//! What was read of a file.

use vd_base::{Bytes, Items, Text};

/// What a file held.
#[derive(Drop)]
pub enum Held {
    /// These bytes and no more.
    Whole(Bytes),
    /// More bytes than this; which ones is not known.
    Longer(u32),
}

/// A file as it was read.
#[derive(Drop)]
pub struct Kept {
    pub name: Text,
    pub held: Held,
}

/// A file that is to be read.
#[derive(Drop)]
pub struct Wanted {
    pub name: Text,
    /// The most bytes with which it will be fetched.
    pub most: u32,
}

/// A file that could not be read.
#[derive(Drop)]
pub(crate) struct Unread {
    pub name: Text,
    /// Why, where that is known.
    pub reason: Option<Text>,
}

/// What came of files that were to be read.
#[derive(Drop)]
pub(crate) struct Reading {
    pub kept: Items<Kept>,
    pub unread: Items<Unread>,
}
