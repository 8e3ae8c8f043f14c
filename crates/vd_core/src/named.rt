//! Whether a source has names.

ghost use Rattle.std.specs.Prelude.{◌↔◌, IsTrue};
ghost use Rattle.vd_core.specs.Named.{HasNames};

use crate::source::Source;
use vd_base::is_name;

/// Whether the principals and the hosts have names, and there is at least one of each, as in every source that was read
/// from a text.
pub fn has_names(source: &Source) -> bool
    ensures { IsTrue result ↔ HasNames source.now }
{
    !source.principals.is_empty()
        && !source.hosts.is_empty()
        && source
            .principals
            .iter()
            .all(|principal| is_name(principal.name.as_slice()))
        && source
            .hosts
            .iter()
            .all(|host| is_name(host.name.name.as_slice()))
}
