//! What is true of the lines that are printed. The functions here do nothing: their contracts are laws.

ghost use Rattle.vd_cmd_needs.specs.ReadBack.{KindsAreTold, SizesAreDealt};

/// The words of the line of sizes, put behind the word `deal`, are read as the command that deals these sizes, whatever the key
/// and the prefix are.
pub fn sizes_are_dealt()
    ensures { SizesAreDealt }
{}

/// The line of a host names it, and behind each kind's name stands how many items of this kind it takes. The line of two hosts
/// names both, and behind each kind's name stands how many they share.
pub fn kinds_are_told()
    ensures { KindsAreTold }
{}
