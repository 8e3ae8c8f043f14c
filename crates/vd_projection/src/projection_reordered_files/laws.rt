ghost use Rattle.vd_projection.specs.ProjectionReorderedFilesStored.{EarlyProgramsAreReadBack, EarlyProgramsStandInFiles, EarlyTextsAreShort};

/// The program of a host in an order that waits less, with the names of all hosts and the digest of a plan, has a text of the grammar of
/// host files, and no instruction of it breaks a range. So what is read of the text is that program, and its code is the host's part of
/// the joint code. Where the names of the hosts take no more bytes than a source may have, the text is not longer than a host's file may
/// be.
pub fn early_programs_are_read_back()
    ensures files { EarlyProgramsStandInFiles }
    ensures read { EarlyProgramsAreReadBack }
    ensures short { EarlyTextsAreShort }
{}
