//! What a trial runs on. The function here does nothing: its contract is a law.

ghost use Rattle.vd_cmd_trial.specs.Trial.{PointsAreApart};

/// In each coordinate the first host's input is that of each other host and the number of the coordinate, counted from 0.
pub fn points_are_apart()
    ensures { PointsAreApart }
{}
