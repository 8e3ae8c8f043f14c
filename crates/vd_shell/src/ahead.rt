//! Which files a command line is to read.

ghost use Rattle.std.specs.Prelude.{◌≡◌, ◌∷◌, ◌++◌, [], IfOk, IfErr, OnOk};
ghost use Rattle.vd_cmd.specs.Commands.{form_of};
ghost use Rattle.vd_edge.specs.KeptFiles.{IsReadAhead};
ghost use Rattle.vd_shell.specs.Ahead.{deals_of, key_files, wanted_by, wanted_of};
ghost use Rattle.vd_shell.specs.NamedAhead.{NamedFilesAreAhead};

use std::alloc::{AllocError, Global};
use vd_base::limits::{
    CERTIFICATE_BYTES, DEAL_BYTES, HOST_FILE_BYTES, HOSTS, INPUTS_BYTES, SCHEDULE_BYTES,
    SOURCE_BYTES,
};
use vd_base::{Items, Text, Texts};
use vd_cmd::{
    Command, CommandFault, ExcuseWords, FilesCommand, KeySource, ReplayWords, read_words,
};
use vd_cmd_plan::file_name;
use vd_edge::{Directory, KeptFiles, RealFiles, Wanted};
use vd_outside::{FetchFault, Files};

/// As many bytes as a key has.
const KEY_BYTES: u32 = 32;

/// A file with a name of the command line.
fn one(alloc: Global, name: Text, most: u32) -> Result<Items<Wanted>, AllocError>
    ensures { IfOk result (λ files. files ≡ record { name = name; most = most } ∷ []) }
{
    let mut files = Items::new(alloc);
    files.push(Wanted { name, most })?;
    Ok(files)
}

/// A source, and another file.
fn source_and(
    alloc: Global,
    source: Text,
    name: Text,
    most: u32,
) -> Result<Items<Wanted>, AllocError>
    ensures { IfOk result (λ files. files ≡ record { name = source; most = SOURCE_BYTES } ∷ record { name = name; most = most } ∷ []) }
{
    let mut files = one(alloc, source, SOURCE_BYTES)?;
    files.push(Wanted { name, most })?;
    Ok(files)
}

/// The deals of as many hosts as a source may have.
fn deals(alloc: Global, prefix: &Text, files: &mut Items<Wanted>) -> Result<(), AllocError>
    ensures { OnOk result (files.new ≡ files.old ++ deals_of prefix.now) }
{
    for number in 0..HOSTS {
        let name = file_name(alloc, prefix.as_str(), number as usize, ".deal")?;
        files.push(Wanted {
            name,
            most: DEAL_BYTES,
        })?;
    }
    Ok(())
}

/// The files of `replay`.
fn replayed(alloc: Global, words: ReplayWords) -> Result<Items<Wanted>, AllocError>
    ensures { IfOk result (λ files. files ≡ wanted_of (Command.OnFiles (FilesCommand.Replay words))) }
{
    let ReplayWords {
        source,
        inputs,
        prefix,
        schedule,
        messages: _,
        budget: _,
    } = words;
    let mut files = source_and(alloc, source, inputs, INPUTS_BYTES)?;
    deals(alloc, &prefix, &mut files)?;
    files.push(Wanted {
        name: schedule,
        most: SCHEDULE_BYTES,
    })?;
    Ok(files)
}

/// The files of `excuse`.
fn excused(alloc: Global, words: ExcuseWords) -> Result<Items<Wanted>, AllocError>
    ensures { IfOk result (λ files. files ≡ wanted_of (Command.OnFiles (FilesCommand.Excuse words))) }
{
    let ExcuseWords {
        source,
        inputs,
        second,
        prefix,
        host: _,
        out: _,
        budget: _,
    } = words;
    let mut files = source_and(alloc, source, inputs, INPUTS_BYTES)?;
    files.push(Wanted {
        name: second,
        most: INPUTS_BYTES,
    })?;
    deals(alloc, &prefix, &mut files)?;
    Ok(files)
}

/// A host's program, its inputs and its deal.
fn of_host(
    alloc: Global,
    program: Text,
    inputs: Text,
    deal: Text,
) -> Result<Items<Wanted>, AllocError>
    ensures { IfOk result (λ files. files ≡ record { name = program; most = HOST_FILE_BYTES }
        ∷ record { name = inputs; most = INPUTS_BYTES } ∷ record { name = deal; most = DEAL_BYTES } ∷ []) }
{
    let mut files = one(alloc, program, HOST_FILE_BYTES)?;
    files.push(Wanted {
        name: inputs,
        most: INPUTS_BYTES,
    })?;
    files.push(Wanted {
        name: deal,
        most: DEAL_BYTES,
    })?;
    Ok(files)
}

/// The file of a key of 32 bytes, where it is read.
fn of_key(alloc: Global, key: KeySource) -> Result<Items<Wanted>, AllocError>
    ensures { IfOk result (λ files. files ≡ key_files key) }
{
    match key {
        KeySource::InFile(name) => one(alloc, name, KEY_BYTES),
        KeySource::Drawn => Ok(Items::new(alloc)),
    }
}

/// The files that a command on files may fetch, with the most bytes of each. Of deals they are those of as many hosts as a source
/// may have.
fn files_on(alloc: Global, command: FilesCommand) -> Result<Items<Wanted>, AllocError>
    ensures { IfOk result (λ files. files ≡ wanted_of (Command.OnFiles command)) }
{
    match command {
        FilesCommand::Clear(source, inputs) => source_and(alloc, source, inputs, INPUTS_BYTES),
        FilesCommand::Certify(source, certificate) => {
            source_and(alloc, source, certificate, CERTIFICATE_BYTES)
        }
        FilesCommand::Labels(source) => one(alloc, source, SOURCE_BYTES),
        FilesCommand::Choose(source, _) => one(alloc, source, SOURCE_BYTES),
        FilesCommand::Draw(source, _) => one(alloc, source, SOURCE_BYTES),
        FilesCommand::Compile(source, _, _) => one(alloc, source, SOURCE_BYTES),
        FilesCommand::Depends(source, _) => one(alloc, source, SOURCE_BYTES),
        FilesCommand::Influences(source, _) => one(alloc, source, SOURCE_BYTES),
        FilesCommand::Reveals(words) => one(alloc, words.source, SOURCE_BYTES),
        FilesCommand::Needs(words) => one(alloc, words.file, HOST_FILE_BYTES),
        FilesCommand::Column(words) => one(alloc, words.file, INPUTS_BYTES),
        FilesCommand::Report(words) => source_and(alloc, words.source, words.file, INPUTS_BYTES),
        FilesCommand::Replay(words) => replayed(alloc, words),
        FilesCommand::Excuse(words) => excused(alloc, words),
        FilesCommand::Deal(..) | FilesCommand::Gen(_) | FilesCommand::Trial(_) => {
            Ok(Items::new(alloc))
        }
    }
}

/// The same of any command.
fn files_of(alloc: Global, command: Command) -> Result<Items<Wanted>, AllocError>
    ensures { IfOk result (λ files. files ≡ wanted_of command) }
{
    match command {
        Command::OnFiles(command) => files_on(alloc, command),
        Command::KeyDeal(words) => of_key(alloc, words.key),
        Command::Early(words) => one(alloc, words.source, SOURCE_BYTES),
        Command::Host(words) => of_host(alloc, words.program, words.inputs, words.deal),
        Command::Check(words) => of_host(alloc, words.program, words.inputs, words.deal),
        Command::Run(words) => one(alloc, words.source, SOURCE_BYTES),
    }
}

/// The files of a command whose words were read.
fn files_of_read(alloc: Global, command: Command) -> Result<Items<Wanted>, CommandFault>
    ensures files { IfOk result (λ files. files ≡ wanted_of command) }
    ensures memory { IfErr result (λ fault. fault ≡ CommandFault.Memory) }
{
    let files = files_of(alloc, command)?;
    Ok(files)
}

/// The files that a command line may fetch; none where its words have no form.
fn files_of_words(alloc: Global, words: &Texts) -> Result<Items<Wanted>, CommandFault>
    ensures files { IfOk result (λ files. files ≡ wanted_by (form_of words.now)) }
    ensures memory { IfErr result (λ fault. fault ≡ CommandFault.Memory) }
{
    match read_words(alloc, words) {
        Ok(command) => files_of_read(alloc, command),
        Err(CommandFault::Usage) => Ok(Items::new(alloc)),
        Err(CommandFault::Memory) => Err(CommandFault::Memory),
    }
}

/// Reads the files that a command line may fetch, each once. It is refused only where there is no memory for what is read.
pub fn read_ahead<D: Directory + Drop>(
    alloc: Global,
    words: &Texts,
    files: RealFiles<D>,
) -> Result<KeptFiles<D>, FetchFault>
    ensures read { IfOk result (λ kept. IsReadAhead (wanted_by (form_of words.now)) (D.fails_at files.directory)
        (files.faults, kept.files.faults) D.tells (D.holds files.directory) (⟦<KeptFiles<D> as Files>⟧.view kept)) }
    ensures memory { IfErr result (λ fault. fault ≡ FetchFault.Memory) }
{
    match files_of_words(alloc, words) {
        Ok(wanted) => KeptFiles::read(files, alloc, wanted.as_slice()),
        Err(_) => Err(FetchFault::Memory),
    }
}

/// Of each command the files are read ahead that its words name and that it reads, and the deals of its hosts.
pub fn named_files_are_ahead()
    ensures { NamedFilesAreAhead }
{}
