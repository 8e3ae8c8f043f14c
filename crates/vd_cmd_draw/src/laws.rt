//! What `draw` and `reveals` say where they end well. The functions here do nothing: their contracts are laws.

ghost use Rattle.vd_cmd_draw.specs.RevealsTelling.{RevealsTell};
ghost use Rattle.vd_cmd_draw.specs.Telling.{DrawingsTell};

/// Where the plan of `draw` ends well, it prints the drawing of the choice of protocols for the source, and the costs of its
/// rows add up to the cost of the choice.
pub fn drawings_tell()
    ensures { DrawingsTell }
{}

/// Where the plan of `reveals` ends well, it prints the lines of the hosts that are asked for at the choice of protocols for the
/// source.
pub fn reveals_tell()
    ensures { RevealsTell }
{}
