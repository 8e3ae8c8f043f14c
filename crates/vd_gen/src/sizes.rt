//! How large a generated source may be.

ghost use Rattle.std.specs.Prelude.{◌≡◌};
ghost use Rattle.vd_gen.specs.Sizes.{most_coordinates};

/// Coordinates of a point, which has at least one.
pub const COORDINATES: u32 = 100;

/// The limit of the code is that of the definitions.
pub fn sizes_are_stated()
    ensures { COORDINATES ≡ most_coordinates }
{}
