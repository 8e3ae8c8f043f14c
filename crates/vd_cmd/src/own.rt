//! What the program says of itself.

ghost use Rattle.std.specs.Prelude.{◌≡◌};
ghost use Rattle.std.specs.Option.{option_map};
ghost use Rattle.vd_cmd.specs.Own.{help_of, help_of_certify, help_of_check, help_of_choose, help_of_clear, help_of_column, help_of_compile, help_of_deal, help_of_depends, help_of_draw, help_of_excuse, help_of_gen, help_of_host, help_of_host_within, help_of_influences, help_of_labels, help_of_needs, help_of_replay, help_of_report, help_of_reveals, help_of_rounds, help_of_run, help_of_trial, help_text, help_to_run, help_to_trust, help_to_try, is_either, own_text_of, version_text};

use vd_base::Texts;

/// The text of `--help`.
const HELP: &str =
    "1. check:   viaduct labels SOURCE says whether a secret goes where it may not; viaduct clear SOURCE INPUTS runs it in clear
2. choose:  viaduct choose SOURCE prints the cheapest cryptography; viaduct compile SOURCE PREFIX stores each host's program
3. deal:    viaduct needs SOURCE prints five numbers; viaduct deal with these, draw and PREFIX stores a deal for each host
4. run:     viaduct host PREFIX.i.host INPUTS PREFIX.i.deal ADDR.. runs host i on its own machine

Viaduct reads one program over several hosts' secrets: it runs it in clear, finds its least labels, and chooses
the cheapest protocols for it. It makes the programs of all hosts, and runs them: under any schedule in one process,
each host on its own machine, or all hosts as processes on one machine. It makes the dealer's files of correlated
words, and says whose inputs a host's outputs depend on.

To write a source:
  viaduct clear SOURCE INPUTS   run SOURCE in clear on one machine, and print each host's words
  viaduct labels SOURCE         print the least label of each slot of SOURCE's let-normal form
  viaduct choose SOURCE [BUDGET]
                                print the cheapest protocol of each slot, and store SOURCE.cert, which shows that;
                                the search opens at most BUDGET prefixes, 1 to 200000
  viaduct draw SOURCE [BUDGET]  print the choice of choose as a drawing, an SVG file: where each value is computed, what
                                goes between hosts and how, and what it costs

To run it:
  viaduct compile SOURCE PREFIX [early] [BUDGET]
                                print the cheapest protocols, as choose does, and store the program of each host i
                                as PREFIX.i.host; with early, in an order in which hosts wait for fewer rounds, and
                                which all hosts of a run must have
  viaduct needs FILE [each] [BUDGET]
                                print the five numbers with which deal makes enough for the source FILE; with each,
                                how many inputs and items each host and each two hosts take at most; where FILE is
                                the program of a host, how many that host takes
  viaduct rounds FILE [BUDGET]  print what a run of the source FILE costs, before anything is dealt: how many packets, words
                                and bytes go from each host to each other one; where FILE is the program of a host,
                                what goes out from that host
  viaduct column HOST FILE NAME[*FACTOR] ..
                                print the section of HOST in an inputs file: of each row of the CSV file FILE, which has
                                a header, the words of these columns, each times its FACTOR
  viaduct deal HOSTS OWN MULS ANDS PAIRS KEY PREFIX
                                store PREFIX.i.deal for each host i: OWN own words, and with each other host
                                MULS and ANDS products and PAIRS pairs, all made from the number KEY; or, where KEY is
                                draw, or @ and the name of a file of 32 bytes, from a key that is drawn or read, for a
                                run whose links are sealed
  viaduct check PROGRAM INPUTS DEAL
                                look at the files of a host before it is run, and mark nothing: print its plan, how many
                                inputs and items it takes at most and how many there are, and whether DEAL was used
  viaduct host PROGRAM INPUTS DEAL ADDR..
                                run the host whose program the file PROGRAM is, over sockets, with its own part of
                                INPUTS and its deal; there is one ADDR for each other host, in host order, where the
                                earlier host of the two listens; print listening, then each word, then ended; links
                                are sealed, and DEAL is used once, where the dealer's KEY was draw or a file, and
                                else neither encrypted nor authenticated: put them into a tunnel
  viaduct host-within SECONDS PROGRAM INPUTS DEAL ADDR..
                                run a host as host does, with no wait for another one longer than SECONDS, 1 to 604800
  viaduct report SOURCE HOST FILE [json]
                                print the words of HOST with their names, one a line, or with json as one JSON object;
                                FILE has what host printed there, or the report of replay or run

To trust it:
  viaduct certify SOURCE CERT   print what the certificate CERT shows: the least cost, or that there is none
  viaduct reveals SOURCE [HOST] [BUDGET]
                                print a line for each word that comes to HOST, or to each host, in clear at the choice of
                                choose: where it is made, its name, where it comes from, how often at most, and what for
  viaduct depends SOURCE HOSTS  print the hosts whose inputs can bear on the outputs to HOSTS, a name or several with
                                commas between them, outside of what is declassified to each of these
  viaduct influences SOURCE HOST
                                print the hosts whose inputs can bear on HOST's outputs at all, and then those
                                of them whose inputs can do so through endorsements alone
  viaduct excuse SOURCE INPUTS INPUTS2 PREFIX HOST OUT [BUDGET]
                                where HOST cannot tell INPUTS2 from INPUTS, store deals OUT.i.deal under which INPUTS2
                                look to it as INPUTS do under PREFIX.i.deal, and print what the other host sends it

To try it on one machine:
  viaduct replay SOURCE INPUTS PREFIX SCHEDULE [messages] [BUDGET]
                                run the programs of all hosts on INPUTS and the deals PREFIX.i.deal in one process,
                                step by step as SCHEDULE says, and print how each host stands and what it printed;
                                with messages also the words that were sent on each link
  viaduct run SOURCE INPUTS PREFIX SELF PORT
                                compile SOURCE as compile does, and run each host i on this machine as a process of
                                the program SELF, on INPUTS and the deal PREFIX.i.deal; the hosts meet at the ports
                                from PORT on, 1024 to 65520; print what each host printed
  viaduct gen N                 print a source of N coordinates, 1 to 100: whether two hosts' points are near
  viaduct trial N               choose protocols for the source of gen and replay it, on inputs and a deal of its own, and
                                print the cost of the choice and how each host stands

Of the program itself:
  viaduct COMMAND --help, -h    print what stands here of COMMAND alone
  viaduct --help, -h            print this text
  viaduct --version, -V         print the version

SOURCE, INPUTS, CERT, SCHEDULE, PROGRAM and DEAL are files. A run that does not end well writes a line that begins
'viaduct: ' to standard error, and ends with the status that belongs to it. At a terminal, and elsewhere where the
variable VIADUCT_REASONS is set, more lines say where in a file the fault is, or why the system refused a file, a
program or a link.

statuses:
  0   the run ended well
  1   there was no memory left
  2   wrong usage: the words fit no command
  3   a file could not be read
  4   a file or the output could not be written
  5   a file is too long
  6   the text of SOURCE is wrong
  7   a name, a kind or a size of SOURCE is wrong
  8   in SOURCE something goes where it may not
  9   no choice of protocols is valid for SOURCE
  10  the search needs more than BUDGET prefixes
  11  the text of INPUTS is wrong
  12  the text of a deal is wrong
  13  the text of SCHEDULE is wrong
  14  the text of PROGRAM is wrong
  15  the text of CERT is wrong
  16  an item of the deals breaks its identity
  17  CERT is not accepted
  18  a link to another host failed
  19  a peer sent an unexpected byte
  20  two words that must be equal differ
  21  a peer's program was compiled from another source or choice
  22  a host other than the expected one connected
  23  INPUTS has too few numbers
  24  DEAL has too few items
  25  a link ended before all words had come
  26  the process of a host did not end well
  27  no host of SOURCE has the name HOST
  28  SOURCE does not have exactly two hosts
  29  the choice of protocols for SOURCE has a commitment
  31  a run takes more dealt items than there are
  32  HOST can tell INPUTS2 from INPUTS
  33  DEAL was used before
  34  the file of a key has fewer than 32 bytes
  35  the table in FILE does not give words
  36  FILE does not tell what HOST printed
";

/// The text of `--version`.
const VERSION: &str = "viaduct 0.2.0\n";

#[tactic(auto, unfolding(crate::specs::Own::help_text))]
fn help() -> &'static str
    ensures { result.now ≡ help_text }
{
    HELP
}

#[tactic(auto, unfolding(crate::specs::Own::version_text))]
fn version() -> &'static str
    ensures { result.now ≡ version_text }
{
    VERSION
}

/// Whether a word is the one or the other.
fn is_either(word: &str, long: &str, short: &str) -> bool
    ensures { result ≡ is_either word.now long.now short.now }
{
    word == long || word == short
}

#[tactic(auto, unfolding(crate::specs::Own::help_of_clear))]
fn help_of_clear() -> &'static str
    ensures { result.now ≡ help_of_clear }
{
    "viaduct clear SOURCE INPUTS
  run SOURCE in clear on one machine, and print each host's words
"
}

#[tactic(auto, unfolding(crate::specs::Own::help_of_labels))]
fn help_of_labels() -> &'static str
    ensures { result.now ≡ help_of_labels }
{
    "viaduct labels SOURCE
  print the least label of each slot of SOURCE's let-normal form
"
}

#[tactic(auto, unfolding(crate::specs::Own::help_of_choose))]
fn help_of_choose() -> &'static str
    ensures { result.now ≡ help_of_choose }
{
    "viaduct choose SOURCE [BUDGET]
  print the cheapest protocol of each slot, and store SOURCE.cert, which shows that;
  the search opens at most BUDGET prefixes, 1 to 200000
"
}

#[tactic(auto, unfolding(crate::specs::Own::help_of_draw))]
fn help_of_draw() -> &'static str
    ensures { result.now ≡ help_of_draw }
{
    "viaduct draw SOURCE [BUDGET]
  print the choice of choose as a drawing, an SVG file: where each value is computed, what
  goes between hosts and how, and what it costs
"
}

#[tactic(auto, unfolding(crate::specs::Own::help_of_compile))]
fn help_of_compile() -> &'static str
    ensures { result.now ≡ help_of_compile }
{
    "viaduct compile SOURCE PREFIX [early] [BUDGET]
  print the cheapest protocols, as choose does, and store the program of each host i
  as PREFIX.i.host; with early, in an order in which hosts wait for fewer rounds, and
  which all hosts of a run must have
"
}

#[tactic(auto, unfolding(crate::specs::Own::help_of_needs))]
fn help_of_needs() -> &'static str
    ensures { result.now ≡ help_of_needs }
{
    "viaduct needs FILE [each] [BUDGET]
  print the five numbers with which deal makes enough for the source FILE; with each,
  how many inputs and items each host and each two hosts take at most; where FILE is
  the program of a host, how many that host takes
"
}

#[tactic(auto, unfolding(crate::specs::Own::help_of_rounds))]
fn help_of_rounds() -> &'static str
    ensures { result.now ≡ help_of_rounds }
{
    "viaduct rounds FILE [BUDGET]
  print what a run of the source FILE costs, before anything is dealt: how many packets, words
  and bytes go from each host to each other one; where FILE is the program of a host,
  what goes out from that host
"
}

#[tactic(auto, unfolding(crate::specs::Own::help_of_report))]
fn help_of_report() -> &'static str
    ensures { result.now ≡ help_of_report }
{
    "viaduct report SOURCE HOST FILE [json]
  print the words of HOST with their names, one a line, or with json as one JSON object;
  FILE has what host printed there, or the report of replay or run
"
}

#[tactic(auto, unfolding(crate::specs::Own::help_of_column))]
fn help_of_column() -> &'static str
    ensures { result.now ≡ help_of_column }
{
    "viaduct column HOST FILE NAME[*FACTOR] ..
  print the section of HOST in an inputs file: of each row of the CSV file FILE, which has
  a header, the words of these columns, each times its FACTOR
"
}

#[tactic(auto, unfolding(crate::specs::Own::help_of_deal))]
fn help_of_deal() -> &'static str
    ensures { result.now ≡ help_of_deal }
{
    "viaduct deal HOSTS OWN MULS ANDS PAIRS KEY PREFIX
  store PREFIX.i.deal for each host i: OWN own words, and with each other host
  MULS and ANDS products and PAIRS pairs, all made from the number KEY; or, where KEY is
  draw, or @ and the name of a file of 32 bytes, from a key that is drawn or read, for a
  run whose links are sealed
"
}

#[tactic(auto, unfolding(crate::specs::Own::help_of_check))]
fn help_of_check() -> &'static str
    ensures { result.now ≡ help_of_check }
{
    "viaduct check PROGRAM INPUTS DEAL
  look at the files of a host before it is run, and mark nothing: print its plan, how many
  inputs and items it takes at most and how many there are, and whether DEAL was used
"
}

#[tactic(auto, unfolding(crate::specs::Own::help_of_host))]
fn help_of_host() -> &'static str
    ensures { result.now ≡ help_of_host }
{
    "viaduct host PROGRAM INPUTS DEAL ADDR..
  run the host whose program the file PROGRAM is, over sockets, with its own part of
  INPUTS and its deal; there is one ADDR for each other host, in host order, where the
  earlier host of the two listens; print listening, then each word, then ended; links
  are sealed, and DEAL is used once, where the dealer's KEY was draw or a file, and
  else neither encrypted nor authenticated: put them into a tunnel
"
}

#[tactic(auto, unfolding(crate::specs::Own::help_of_host_within))]
fn help_of_host_within() -> &'static str
    ensures { result.now ≡ help_of_host_within }
{
    "viaduct host-within SECONDS PROGRAM INPUTS DEAL ADDR..
  run a host as host does, with no wait for another one longer than SECONDS, 1 to 604800
"
}

#[tactic(auto, unfolding(crate::specs::Own::help_of_certify))]
fn help_of_certify() -> &'static str
    ensures { result.now ≡ help_of_certify }
{
    "viaduct certify SOURCE CERT
  print what the certificate CERT shows: the least cost, or that there is none
"
}

#[tactic(auto, unfolding(crate::specs::Own::help_of_reveals))]
fn help_of_reveals() -> &'static str
    ensures { result.now ≡ help_of_reveals }
{
    "viaduct reveals SOURCE [HOST] [BUDGET]
  print a line for each word that comes to HOST, or to each host, in clear at the choice of
  choose: where it is made, its name, where it comes from, how often at most, and what for
"
}

#[tactic(auto, unfolding(crate::specs::Own::help_of_depends))]
fn help_of_depends() -> &'static str
    ensures { result.now ≡ help_of_depends }
{
    "viaduct depends SOURCE HOSTS
  print the hosts whose inputs can bear on the outputs to HOSTS, a name or several with
  commas between them, outside of what is declassified to each of these
"
}

#[tactic(auto, unfolding(crate::specs::Own::help_of_influences))]
fn help_of_influences() -> &'static str
    ensures { result.now ≡ help_of_influences }
{
    "viaduct influences SOURCE HOST
  print the hosts whose inputs can bear on HOST's outputs at all, and then those
  of them whose inputs can do so through endorsements alone
"
}

#[tactic(auto, unfolding(crate::specs::Own::help_of_excuse))]
fn help_of_excuse() -> &'static str
    ensures { result.now ≡ help_of_excuse }
{
    "viaduct excuse SOURCE INPUTS INPUTS2 PREFIX HOST OUT [BUDGET]
  where HOST cannot tell INPUTS2 from INPUTS, store deals OUT.i.deal under which INPUTS2
  look to it as INPUTS do under PREFIX.i.deal, and print what the other host sends it
"
}

#[tactic(auto, unfolding(crate::specs::Own::help_of_replay))]
fn help_of_replay() -> &'static str
    ensures { result.now ≡ help_of_replay }
{
    "viaduct replay SOURCE INPUTS PREFIX SCHEDULE [messages] [BUDGET]
  run the programs of all hosts on INPUTS and the deals PREFIX.i.deal in one process,
  step by step as SCHEDULE says, and print how each host stands and what it printed;
  with messages also the words that were sent on each link
"
}

#[tactic(auto, unfolding(crate::specs::Own::help_of_run))]
fn help_of_run() -> &'static str
    ensures { result.now ≡ help_of_run }
{
    "viaduct run SOURCE INPUTS PREFIX SELF PORT
  compile SOURCE as compile does, and run each host i on this machine as a process of
  the program SELF, on INPUTS and the deal PREFIX.i.deal; the hosts meet at the ports
  from PORT on, 1024 to 65520; print what each host printed
"
}

#[tactic(auto, unfolding(crate::specs::Own::help_of_gen))]
fn help_of_gen() -> &'static str
    ensures { result.now ≡ help_of_gen }
{
    "viaduct gen N
  print a source of N coordinates, 1 to 100: whether two hosts' points are near
"
}

#[tactic(auto, unfolding(crate::specs::Own::help_of_trial))]
fn help_of_trial() -> &'static str
    ensures { result.now ≡ help_of_trial }
{
    "viaduct trial N
  choose protocols for the source of gen and replay it, on inputs and a deal of its own, and
  print the cost of the choice and how each host stands
"
}

/// The form of a command with which a source is tried on one machine, and what it does.
#[tactic(auto, unfolding(crate::specs::Own::help_to_try))]
fn help_to_try(word: &str) -> Option<&'static str>
    ensures { option_map (λ text. text.now) result ≡ help_to_try word.now }
{
    if word == "replay" {
        Some(help_of_replay())
    } else if word == "run" {
        Some(help_of_run())
    } else if word == "gen" {
        Some(help_of_gen())
    } else if word == "trial" {
        Some(help_of_trial())
    } else {
        None
    }
}

/// The same, also of a command with which what a source does is shown to others.
#[tactic(auto, unfolding(crate::specs::Own::help_to_trust))]
fn help_to_trust(word: &str) -> Option<&'static str>
    ensures { option_map (λ text. text.now) result ≡ help_to_trust word.now }
{
    if word == "certify" {
        Some(help_of_certify())
    } else if word == "reveals" {
        Some(help_of_reveals())
    } else if word == "depends" {
        Some(help_of_depends())
    } else if word == "influences" {
        Some(help_of_influences())
    } else if word == "excuse" {
        Some(help_of_excuse())
    } else {
        help_to_try(word)
    }
}

/// The same, also of a command with which hosts are run on machines of their own.
#[tactic(auto, unfolding(crate::specs::Own::help_to_run))]
fn help_to_run(word: &str) -> Option<&'static str>
    ensures { option_map (λ text. text.now) result ≡ help_to_run word.now }
{
    if word == "compile" {
        Some(help_of_compile())
    } else if word == "needs" {
        Some(help_of_needs())
    } else if word == "rounds" {
        Some(help_of_rounds())
    } else if word == "column" {
        Some(help_of_column())
    } else if word == "deal" {
        Some(help_of_deal())
    } else if word == "check" {
        Some(help_of_check())
    } else if word == "host" {
        Some(help_of_host())
    } else if word == "host-within" {
        Some(help_of_host_within())
    } else if word == "report" {
        Some(help_of_report())
    } else {
        help_to_trust(word)
    }
}

/// The form of a command, and what it does.
#[tactic(auto, unfolding(crate::specs::Own::help_of))]
fn help_of(word: &str) -> Option<&'static str>
    ensures { option_map (λ text. text.now) result ≡ help_of word.now }
{
    if word == "clear" {
        Some(help_of_clear())
    } else if word == "labels" {
        Some(help_of_labels())
    } else if word == "choose" {
        Some(help_of_choose())
    } else if word == "draw" {
        Some(help_of_draw())
    } else {
        help_to_run(word)
    }
}

/// What words ask the program to say of itself: `--help` or `-h`, alone or behind a command, and `--version` or `-V` alone.
pub fn own_text(words: &Texts) -> Option<&'static str>
    ensures { option_map (λ text. text.now) result ≡ own_text_of words.now }
{
    match words.as_slice() {
        [word] if is_either(word.as_str(), "--help", "-h") => Some(help()),
        [word] if is_either(word.as_str(), "--version", "-V") => Some(version()),
        [command, word] if is_either(word.as_str(), "--help", "-h") => help_of(command.as_str()),
        _ => None,
    }
}
