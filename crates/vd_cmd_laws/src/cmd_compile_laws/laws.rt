ghost use Rattle.vd_cmd_laws.specs.Compiled.{CompiledFilesAreReadBack, CompiledFilesAreShort, CompiledFilesCanBeRead};
ghost use Rattle.vd_cmd_laws.specs.Sizes.{HostNamesFit};

use vd_core::Program;

/// Each file that `compile` stores is read as the program of its host: with the names of all hosts, its number and the plan, which is
/// the same in all files, and with the host's part of the joint code of the program at the chosen protocols. It is not longer than a
/// host's file may be, whatever text the program comes from.
pub fn compiled_files_are_read_back()
    ensures read { CompiledFilesAreReadBack }
    ensures short { CompiledFilesAreShort }
{}

/// Of every text that spells a source of which this is the let-normal form: what `compile` stores of it at its choice is a file for
/// each host, of the host's name and short enough to be read, which is read as the program of that host. That its numbers and the
/// counts of its loops are words is a fact of their types.
pub fn compiled_files_can_be_read(program: &Program)
    ensures { CompiledFilesCanBeRead program.now }
{
    let _form = program.form();
}

/// The names of the hosts of a source, each with one byte before it, take no more bytes than the text of the source has.
pub fn host_names_fit()
    ensures { HostNamesFit }
{}
