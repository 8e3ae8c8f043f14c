//! All hosts of a source as children of one machine: the source's outputs are what is reported. Nothing is computed here.

ghost use Rattle.vd_distributed.specs.Children.{ChildrenTellTheSource};

/// Where `run` ends with status 0, and each of its children is a run of its host over links on which what comes is a prefix of
/// what was sent there, the report has each host as ended with the source's outputs to it, and with no others.
pub fn children_tell_the_source()
    ensures { ChildrenTellTheSource }
{}
