ghost use Rattle.vd_world.specs.Supplies.{FilesAreValid};
ghost use Rattle.vd_world.specs.Told.{ProgramsTell, SourcesTell};

/// The inputs and a consistent deal of all hosts, each list followed by zeros, are a valid deal with these inputs.
pub fn files_are_valid()
    ensures { FilesAreValid }
{}

/// Under every schedule each host has printed a prefix of the outputs of the program, or of the source, to it, and sent a prefix of what
/// the joint run sends; all of it, where all hosts have ended.
pub fn sources_tell()
    ensures programs { ProgramsTell }
    ensures sources { SourcesTell }
{}
