//! What labels mean for where words stand: at a valid assignment no principals can change what they may not, nor read it. Nothing is
//! computed here.

mod laws;

pub use laws::{
    authorities_are_exact, guards_are_told_where_they_are_kept, words_stand_where_they_are_kept,
};
