//! The command `report`.

ghost use Rattle.std.specs.Prelude.{◌≡◌, [], IfOk};
ghost use Rattle.vd_cmd_data.specs.Reporting.{ExecutesBytes, ExecutesFile, ExecutesProgram, ExecutesReport, ReportsTell, named_words, printed_as, readings_in};
ghost use Rattle.vd_cmd_data.specs.RunsRead.{RunsAreRead};
ghost use Rattle.vd_cmd_data.specs.WaysNamed.{WaysAreNamed};
ghost use Rattle.vd_cmd_plan.specs.Plans.{Checks, Computes, ended};

use crate::outputs::{outputs_count, outputs_of};
use crate::printed::printed_words;
use crate::readings::{Reading, readings_of};
use crate::report_text::{json_text, lines_text};
use std::alloc::{AllocError, Global};
use vd_base::limits::INPUTS_BYTES;
use vd_base::{Bytes, HostId, Items};
use vd_cmd::ReportWords;
use vd_cmd_choice::{SourceProgram, load_source_program};
use vd_cmd_depends::host_named;
use vd_cmd_plan::{Answer, Status, load};
use vd_outside::Files;

/// The words with their names, in the form that is asked for.
fn printed_as(alloc: Global, words: &ReportWords, readings: &[Reading]) -> Result<Bytes, AllocError>
    ensures { IfOk result (λ text. text ≡ printed_as words.now readings.now) }
{
    if words.json {
        json_text(alloc, words.host.as_str(), readings)
    } else {
        lines_text(alloc, readings)
    }
}

/// The answer that prints them.
fn report_answer(alloc: Global, words: &ReportWords, readings: &[Reading]) -> Result<Answer, Status>
    ensures { Computes (ended [] (printed_as words.now readings.now)) result }
{
    let printed = printed_as(alloc, words, readings)?;
    Ok(Answer {
        status: Status::Ended,
        stores: Items::new(alloc),
        printed,
    })
}

/// The words that a host of a program printed, each with its name.
fn named_words(
    alloc: Global,
    file: &str,
    loaded: &SourceProgram,
    host: HostId,
    told: &[u32],
) -> Result<Items<Reading>, Status>
    ensures { Checks (named_words file.now loaded.now host told.now) result }
{
    let form = loaded.program.form();
    let places = outputs_of(alloc, loaded.text.as_slice(), form, host)?;
    readings_of(
        alloc,
        file,
        outputs_count(form, host),
        places.as_slice(),
        told,
    )
}

/// The same, by the bytes of a file.
fn readings_in(
    alloc: Global,
    words: &ReportWords,
    loaded: &SourceProgram,
    host: HostId,
    bytes: &[u8],
) -> Result<Items<Reading>, Status>
    ensures { Checks (readings_in words.now loaded.now host bytes.now) result }
{
    let file = words.file.as_str();
    let told = printed_words(alloc, file, words.host.as_str(), bytes)?;
    named_words(alloc, file, loaded, host, told.as_slice())
}

/// What `report` does with the bytes of its file.
fn report_bytes(
    alloc: Global,
    words: &ReportWords,
    loaded: &SourceProgram,
    host: HostId,
    bytes: &[u8],
) -> Result<Answer, Status>
    ensures { ExecutesBytes words.now loaded.now host bytes.now result }
{
    let readings = readings_in(alloc, words, loaded, host, bytes)?;
    report_answer(alloc, words, readings.as_slice())
}

/// What `report` does for a host of a program.
fn report_file<F: Files>(
    alloc: Global,
    files: &mut F,
    words: &ReportWords,
    loaded: &SourceProgram,
    host: HostId,
) -> Result<Answer, Status>
    ensures { ExecutesFile words.now loaded.now host (F.view files.old) (F.view files.new) result }
{
    let bytes = load(alloc, files, words.file.as_str(), INPUTS_BYTES)?;
    report_bytes(alloc, words, loaded, host, bytes.as_slice())
}

/// What `report` does with a program: it looks for the host first.
fn report_program<F: Files>(
    alloc: Global,
    files: &mut F,
    words: &ReportWords,
    loaded: &SourceProgram,
) -> Result<Answer, Status>
    ensures { ExecutesProgram words.now loaded.now (F.view files.old) (F.view files.new) result }
{
    let hosts = &loaded.program.form().hosts;
    let host = host_named(alloc, hosts, words.host.as_str())?;
    report_file(alloc, files, words, loaded, host)
}

/// The command `report`: prints the words that a host of a source has printed, each with the name of its output.
pub fn report<F: Files>(alloc: Global, files: &mut F, words: &ReportWords) -> Result<Answer, Status>
    ensures { ExecutesReport words.now (F.view files.old) (F.view files.new) result }
{
    let loaded = load_source_program(alloc, files, words.source.as_str())?;
    report_program(alloc, files, words, &loaded)
}

/// Where the plan of `report` ends well, it prints the words of the file, each with the names of the outputs that can have told it.
pub fn reports_tell()
    ensures { ReportsTell }
{}

/// What `host` prints, and the line of a host that has ended in the report of a replay, are read back as the words of that host.
pub fn runs_are_read()
    ensures { RunsAreRead }
{}

/// Whatever way the branches of a program go, each word that a host is told then has its output among those by which `report` names it.
pub fn ways_are_named()
    ensures { WaysAreNamed }
{}
