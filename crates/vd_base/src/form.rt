use crate::Name;
use crate::base_lists::Items;

/// A monotone formula over principals, as it is written.
#[derive(PartialEq, Eq, Debug, Drop)]
pub enum Form {
    /// True at every set of principals.
    Any,
    /// True at no set of principals.
    Never,
    /// True at the sets that have this principal.
    Name(Name),
    Both(Items<Form>),
    Either(Items<Form>),
}
