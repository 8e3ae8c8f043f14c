//! The command that the words of a command line are.

ghost use Rattle.std.specs.Prelude.{◌≡◌, [], ◌∷◌, None, Some, IfSome, MatchOption};
ghost use Rattle.vd_cmd.specs.Commands.{Reads, AreWithin, IsWait, column_form_of, column_with, compile_with, counts_in, deal_in, excuse_form_of, fixed_form_of, form_of, host_form_of, key_file, limited_form_of, listed_form_of, needs_with, other_form_of, replay_with, reveals_with, unhosted_form_of};
ghost use Rattle.vd_cmd.specs.declared.command.KeySource.TheVariants.{InFile};

use crate::command::{Command, CommandFault, FilesCommand, HostWords, NeedsKind};
use crate::forms::{
    certify_of, check_of, choose_of, clear_of, column_of, compile_of, copies, deal_drawn,
    deal_from_file, deal_of, depends_of, draw_of, early_of, excuse_of, gen_of, influences_of,
    needs_of, replay_of, report_of, reveals_all, reveals_one, run_of, trial_of,
};
use crate::numbers::number_within;
use std::alloc::Global;
use vd_base::limits::{DEAL_ITEMS, HOSTS, SEARCH_BUDGET};
use vd_base::{Text, Texts, is_name};
use vd_gen::COORDINATES;
use vd_tape::Counts;

/// The least first port of a run.
const FIRST_PORT: u32 = 1024;

/// The greatest first port of a run: those behind it serve all pairs of hosts.
const LAST_PORT: u32 = 65_520;

/// The longest limit of a wait for another host: a week in seconds.
const LONGEST_WAIT: u32 = 604_800;

/// How much is dealt, if these are numbers of hosts, of own words and of items of each kind.
fn read_counts(hosts: &Text, own: &Text, muls: &Text, ands: &Text, pairs: &Text) -> Option<Counts>
    ensures counts { result ≡ counts_in hosts.now own.now muls.now ands.now pairs.now }
    ensures within { IfSome result AreWithin }
{
    let most = u64::from(DEAL_ITEMS);
    Some(Counts {
        hosts: number_within(1, u64::from(HOSTS), hosts)? as u8,
        own: number_within(0, most, own)? as u32,
        muls: number_within(0, most, muls)? as u32,
        ands: number_within(0, most, ands)? as u32,
        pairs: number_within(0, most, pairs)? as u32,
    })
}

/// The name of the file that a key stands in, where a word is `@` and such a name.
fn key_file(word: &str) -> Option<&str>
    ensures { MatchOption result (key_file word.now ≡ None) (λ name. key_file word.now ≡ Some (InFile name.now)) }
{
    word.strip_prefix('@')
}

/// The command `compile` with one word more: `early`, or a budget.
fn compile_with(
    alloc: Global,
    source: &Text,
    prefix: &Text,
    other: &Text,
) -> Result<Command, CommandFault>
    ensures { Reads (compile_with source.now prefix.now other.now) result }
{
    let most = u64::from(SEARCH_BUDGET);
    if other.as_str() == "early" {
        early_of(alloc, source, prefix, Some(most))
    } else {
        compile_of(alloc, source, prefix, number_within(1, most, other))
    }
}

/// The command `needs` with one word more: `each`, or a budget.
fn needs_with(alloc: Global, file: &Text, other: &Text) -> Result<Command, CommandFault>
    ensures { Reads (needs_with file.now other.now) result }
{
    let most = u64::from(SEARCH_BUDGET);
    if other.as_str() == "each" {
        needs_of(alloc, file, NeedsKind::Each, Some(most))
    } else {
        needs_of(alloc, file, NeedsKind::Sizes, number_within(1, most, other))
    }
}

/// The command `reveals` with one word more: a budget, where it is a number, or the name of a host.
fn reveals_with(alloc: Global, source: &Text, other: &Text) -> Result<Command, CommandFault>
    ensures { Reads (reveals_with source.now other.now) result }
{
    let most = u64::from(SEARCH_BUDGET);
    if number_within(0, u64::MAX, other).is_some() {
        reveals_all(alloc, source, number_within(1, most, other))
    } else {
        reveals_one(alloc, source, other, Some(most))
    }
}

/// The command `replay` with one word more: `messages`, or a budget.
fn replay_with(
    alloc: Global,
    source: &Text,
    inputs: &Text,
    prefix: &Text,
    schedule: &Text,
    other: &Text,
) -> Result<Command, CommandFault>
    ensures { Reads (replay_with source.now inputs.now prefix.now schedule.now other.now) result }
{
    let most = u64::from(SEARCH_BUDGET);
    if other.as_str() == "messages" {
        replay_of(alloc, source, inputs, prefix, schedule, true, Some(most))
    } else {
        let budget = number_within(1, most, other);
        replay_of(alloc, source, inputs, prefix, schedule, false, budget)
    }
}

/// The command that two words are.
fn two_words(alloc: Global, word: &Text, argument: &Text) -> Result<Command, CommandFault>
    ensures { Reads (fixed_form_of (word.now ∷ argument.now ∷ [])) result }
{
    if word.as_str() == "labels" {
        Ok(Command::OnFiles(FilesCommand::Labels(Text::copy_of(alloc, argument.as_str())?)))
    } else if word.as_str() == "choose" {
        choose_of(alloc, argument, Some(u64::from(SEARCH_BUDGET)))
    } else if word.as_str() == "draw" {
        draw_of(alloc, argument, Some(u64::from(SEARCH_BUDGET)))
    } else if word.as_str() == "reveals" {
        reveals_all(alloc, argument, Some(u64::from(SEARCH_BUDGET)))
    } else if word.as_str() == "needs" {
        needs_of(
            alloc,
            argument,
            NeedsKind::Sizes,
            Some(u64::from(SEARCH_BUDGET)),
        )
    } else if word.as_str() == "rounds" {
        needs_of(
            alloc,
            argument,
            NeedsKind::Rounds,
            Some(u64::from(SEARCH_BUDGET)),
        )
    } else if word.as_str() == "gen" {
        gen_of(number_within(1, u64::from(COORDINATES), argument))
    } else if word.as_str() == "trial" {
        trial_of(number_within(1, u64::from(COORDINATES), argument))
    } else {
        Err(CommandFault::Usage)
    }
}

/// The command that three words are.
fn three_words(
    alloc: Global,
    word: &Text,
    source: &Text,
    other: &Text,
) -> Result<Command, CommandFault>
    ensures { Reads (fixed_form_of (word.now ∷ source.now ∷ other.now ∷ [])) result }
{
    let most = u64::from(SEARCH_BUDGET);
    if word.as_str() == "clear" {
        clear_of(alloc, source, other)
    } else if word.as_str() == "certify" {
        certify_of(alloc, source, other)
    } else if word.as_str() == "depends" {
        depends_of(alloc, source, other)
    } else if word.as_str() == "influences" {
        influences_of(alloc, source, other)
    } else if word.as_str() == "choose" {
        choose_of(alloc, source, number_within(1, most, other))
    } else if word.as_str() == "draw" {
        draw_of(alloc, source, number_within(1, most, other))
    } else if word.as_str() == "reveals" {
        reveals_with(alloc, source, other)
    } else if word.as_str() == "compile" {
        compile_of(alloc, source, other, Some(most))
    } else if word.as_str() == "needs" {
        needs_with(alloc, source, other)
    } else if word.as_str() == "rounds" {
        needs_of(
            alloc,
            source,
            NeedsKind::Rounds,
            number_within(1, most, other),
        )
    } else {
        Err(CommandFault::Usage)
    }
}

/// The command that four words are.
fn four_words(
    alloc: Global,
    word: &Text,
    first: &Text,
    second: &Text,
    third: &Text,
) -> Result<Command, CommandFault>
    ensures { Reads (fixed_form_of (word.now ∷ first.now ∷ second.now ∷ third.now ∷ [])) result }
{
    if word.as_str() == "compile" {
        compile_with(alloc, first, second, third)
    } else if word.as_str() == "check" {
        check_of(alloc, first, second, third)
    } else if word.as_str() == "needs" && second.as_str() == "each" {
        let budget = number_within(1, u64::from(SEARCH_BUDGET), third);
        needs_of(alloc, first, NeedsKind::Each, budget)
    } else if word.as_str() == "reveals" {
        let budget = number_within(1, u64::from(SEARCH_BUDGET), third);
        reveals_one(alloc, first, second, budget)
    } else if word.as_str() == "report" {
        report_of(alloc, first, second, third, false)
    } else {
        Err(CommandFault::Usage)
    }
}

/// The command `deal` with the numbers that these texts are, if they are numbers that it takes, and a key: a number, or where one of 32
/// bytes comes from.
fn read_deal(
    alloc: Global,
    hosts: &Text,
    own: &Text,
    muls: &Text,
    ands: &Text,
    pairs: &Text,
    key: &Text,
    prefix: &Text,
) -> Result<Command, CommandFault>
    ensures { Reads (deal_in hosts.now own.now muls.now ands.now pairs.now key.now prefix.now) result }
{
    let counts = read_counts(hosts, own, muls, ands, pairs);
    if key.as_str() == "draw" {
        return deal_drawn(alloc, counts, prefix);
    }
    match key_file(key.as_str()) {
        Some(name) => deal_from_file(alloc, counts, name, prefix),
        None => deal_of(alloc, counts, number_within(0, u64::MAX, key), prefix),
    }
}

/// The command `host` with this limit and these words behind it: three files, and any number of addresses.
fn read_host(alloc: Global, limit: Option<u32>, words: &[Text]) -> Result<Command, CommandFault>
    requires { IfSome limit IsWait }
    ensures { Reads (host_form_of limit words.now) result }
{
    match words {
        [program, inputs, deal, addresses @ ..] => Ok(Command::Host(HostWords {
            program: Text::copy_of(alloc, program.as_str())?,
            inputs: Text::copy_of(alloc, inputs.as_str())?,
            deal: Text::copy_of(alloc, deal.as_str())?,
            addresses: copies(alloc, addresses)?,
            limit,
        })),
        _ => Err(CommandFault::Usage),
    }
}

/// The command `host-within` with these words behind it: its limit in seconds, and those of `host`.
#[tactic(auto, unfolding(crate::specs::Commands::limited_form_of))]
fn read_host_within(alloc: Global, words: &[Text]) -> Result<Command, CommandFault>
    ensures { Reads (limited_form_of words.now) result }
{
    let [seconds, behind @ ..] = words else {
        return Err(CommandFault::Usage);
    };
    match number_within(1, u64::from(LONGEST_WAIT), seconds) {
        Some(limit) => read_host(alloc, Some(limit as u32), behind),
        None => Err(CommandFault::Usage),
    }
}

/// The command `excuse` with these words behind it: six, and a budget if there is one.
fn read_excuse(alloc: Global, words: &[Text]) -> Result<Command, CommandFault>
    ensures { Reads (excuse_form_of words.now) result }
{
    let most = u64::from(SEARCH_BUDGET);
    match words {
        [source, inputs, second, prefix, host, out] => excuse_of(
            alloc,
            source,
            inputs,
            second,
            prefix,
            host,
            out,
            Some(most),
        ),
        [source, inputs, second, prefix, host, out, budget] => excuse_of(
            alloc,
            source,
            inputs,
            second,
            prefix,
            host,
            out,
            number_within(1, most, budget),
        ),
        _ => Err(CommandFault::Usage),
    }
}

/// The command that five words are.
fn five_words(
    alloc: Global,
    word: &Text,
    source: &Text,
    inputs: &Text,
    prefix: &Text,
    schedule: &Text,
) -> Result<Command, CommandFault>
    ensures { Reads (fixed_form_of (word.now ∷ source.now ∷ inputs.now ∷ prefix.now ∷ schedule.now ∷ [])) result }
{
    let most = u64::from(SEARCH_BUDGET);
    if word.as_str() == "replay" {
        replay_of(alloc, source, inputs, prefix, schedule, false, Some(most))
    } else if word.as_str() == "compile" && prefix.as_str() == "early" {
        early_of(alloc, source, inputs, number_within(1, most, schedule))
    } else if word.as_str() == "report" && schedule.as_str() == "json" {
        report_of(alloc, source, inputs, prefix, true)
    } else {
        Err(CommandFault::Usage)
    }
}

/// The command that six words are.
fn six_words(
    alloc: Global,
    word: &Text,
    source: &Text,
    inputs: &Text,
    prefix: &Text,
    fourth: &Text,
    last: &Text,
) -> Result<Command, CommandFault>
    ensures { Reads (fixed_form_of (word.now ∷ source.now ∷ inputs.now ∷ prefix.now ∷ fourth.now ∷ last.now ∷ [])) result }
{
    if word.as_str() == "replay" {
        replay_with(alloc, source, inputs, prefix, fourth, last)
    } else if word.as_str() == "run" {
        let port = number_within(u64::from(FIRST_PORT), u64::from(LAST_PORT), last);
        run_of(alloc, source, inputs, prefix, fourth, port)
    } else {
        Err(CommandFault::Usage)
    }
}

/// The command that seven words are.
fn seven_words(
    alloc: Global,
    word: &Text,
    source: &Text,
    inputs: &Text,
    prefix: &Text,
    schedule: &Text,
    messages: &Text,
    budget: &Text,
) -> Result<Command, CommandFault>
    ensures { Reads (fixed_form_of
        (word.now ∷ source.now ∷ inputs.now ∷ prefix.now ∷ schedule.now ∷ messages.now ∷ budget.now ∷ [])) result }
{
    if word.as_str() == "replay" && messages.as_str() == "messages" {
        let budget = number_within(1, u64::from(SEARCH_BUDGET), budget);
        replay_of(alloc, source, inputs, prefix, schedule, true, budget)
    } else {
        Err(CommandFault::Usage)
    }
}

/// The command that eight words are.
fn eight_words(
    alloc: Global,
    word: &Text,
    hosts: &Text,
    own: &Text,
    muls: &Text,
    ands: &Text,
    pairs: &Text,
    key: &Text,
    prefix: &Text,
) -> Result<Command, CommandFault>
    ensures { Reads (fixed_form_of
        (word.now ∷ hosts.now ∷ own.now ∷ muls.now ∷ ands.now ∷ pairs.now ∷ key.now ∷ prefix.now ∷ [])) result }
{
    if word.as_str() == "deal" {
        read_deal(alloc, hosts, own, muls, ands, pairs, key, prefix)
    } else {
        Err(CommandFault::Usage)
    }
}

/// The command that words are, of those with a fixed number of words.
fn read_fixed(alloc: Global, words: &[Text]) -> Result<Command, CommandFault>
    ensures { Reads (fixed_form_of words.now) result }
{
    match words {
        [word, argument] => two_words(alloc, word, argument),
        [word, source, other] => three_words(alloc, word, source, other),
        [word, first, second, third] => four_words(alloc, word, first, second, third),
        [word, source, inputs, prefix, schedule] => {
            five_words(alloc, word, source, inputs, prefix, schedule)
        }
        [word, source, inputs, prefix, fourth, last] => {
            six_words(alloc, word, source, inputs, prefix, fourth, last)
        }
        [word, source, inputs, prefix, schedule, messages, budget] => {
            seven_words(
                alloc, word, source, inputs, prefix, schedule, messages, budget,
            )
        }
        [word, hosts, own, muls, ands, pairs, key, prefix] => {
            eight_words(alloc, word, hosts, own, muls, ands, pairs, key, prefix)
        }
        _ => Err(CommandFault::Usage),
    }
}

/// The command `column` of a host, which is a name, a file, and one name of a column or more.
fn column_with(
    alloc: Global,
    host: &Text,
    file: &Text,
    columns: &[Text],
) -> Result<Command, CommandFault>
    ensures { Reads (column_with host.now file.now columns.now) result }
{
    if is_name(host.as_str().as_bytes()) && !columns.is_empty() {
        column_of(alloc, host, file, columns)
    } else {
        Err(CommandFault::Usage)
    }
}

/// The command `column` with these words behind it.
fn read_column(alloc: Global, words: &[Text]) -> Result<Command, CommandFault>
    ensures { Reads (column_form_of words.now) result }
{
    match words {
        [host, file, columns @ ..] => column_with(alloc, host, file, columns),
        _ => Err(CommandFault::Usage),
    }
}

/// The command of words that are not those of `excuse`, and run no host by themselves.
fn read_listed(alloc: Global, words: &[Text]) -> Result<Command, CommandFault>
    ensures { Reads (listed_form_of words.now) result }
{
    match words {
        [word, rest @ ..] if word.as_str() == "column" => read_column(alloc, rest),
        words => read_fixed(alloc, words),
    }
}

/// The command of words that run no host by themselves.
fn read_unhosted(alloc: Global, words: &[Text]) -> Result<Command, CommandFault>
    ensures { Reads (unhosted_form_of words.now) result }
{
    match words {
        [word, rest @ ..] if word.as_str() == "excuse" => read_excuse(alloc, rest),
        words => read_listed(alloc, words),
    }
}

/// The command of words that do not run a host without a limit.
fn read_other(alloc: Global, words: &[Text]) -> Result<Command, CommandFault>
    ensures { Reads (other_form_of words.now) result }
{
    match words {
        [word, rest @ ..] if word.as_str() == "host-within" => read_host_within(alloc, rest),
        words => read_unhosted(alloc, words),
    }
}

/// The command that the words of a command line are.
pub fn read_words(alloc: Global, words: &Texts) -> Result<Command, CommandFault>
    ensures { Reads (form_of words.now) result }
{
    match words.as_slice() {
        [word, rest @ ..] if word.as_str() == "host" => read_host(alloc, None, rest),
        words => read_other(alloc, words),
    }
}
