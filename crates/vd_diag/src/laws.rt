//! How places are counted. The function here does nothing: its contract is a law.

ghost use Rattle.vd_diag.specs.Begins.{PlacesCountFromOne};

/// The first line of a text has the number 1, and where a line begins the column is 1, as editors count.
pub fn places_count_from_one()
    ensures { PlacesCountFromOne }
{}
