//! Child programs that a shell plays.

ghost use Rattle.std.specs.Prelude.{◌≡◌, ◌<◌, ◌≤◌};

use std::alloc::{AllocError, Global};
use std::io::{self, Write};
use std::process::{Processes, SystemProcess};
use std::time::Clock;
use vd_base::{CallFault, Texts};
use vd_edge_processes::RealSpawner;
use vd_outside::Spawner;

/// The words by which a shell does this.
fn shell_words(alloc: Global, command: &str) -> Result<Texts, AllocError> {
    let mut words = Texts::new(alloc);
    words.push("-c")?;
    words.push(command)?;
    Ok(words)
}

/// How many lines a child writes, and how long the first one is.
fn child_lines<S: Spawner>(spawner: &mut S, child: u32) -> Result<(u32, usize), CallFault>
    requires { child < (S.view spawner.old).given }
    ensures { (S.view spawner.new).given ≡ (S.view spawner.old).given }
{
    let mut count = 0u32;
    let mut first = 0usize;
    for _ in 0..100_000 {
        match spawner.line(child)? {
            Some(line) => {
                if count == 0 {
                    first = line.as_slice().len();
                }
                count = count.saturating_add(1);
            }
            None => break,
        }
    }
    Ok((count, first))
}

/// What a program writes that runs with these words, and its status.
fn run_child<S: Spawner>(
    spawner: &mut S,
    program: &str,
    words: &Texts,
) -> Result<((u32, usize), u32), CallFault>
    requires { (S.view spawner.old).given < u32.MAX }
{
    let child = spawner.start(program, words)?;
    let lines = child_lines(spawner, child)?;
    let status = spawner.finish(child)?;
    Ok((lines, status))
}

/// What becomes of a child: what it writes, and its status.
type ChildOutcome = (Result<(u32, usize), CallFault>, Result<u32, CallFault>);

/// What becomes of a child.
fn child_outcome<S: Spawner>(spawner: &mut S, child: u32) -> ChildOutcome
    requires { child < (S.view spawner.old).given }
    ensures { (S.view spawner.new).given ≡ (S.view spawner.old).given }
{
    let lines = child_lines(spawner, child);
    (lines, spawner.finish(child))
}

/// What becomes of one of two children, and then of the other. Where the lines of the first fail, there is no more.
fn run_two_children<S: Spawner>(
    spawner: &mut S,
    first: &Texts,
    second: &Texts,
) -> Result<(ChildOutcome, ChildOutcome), CallFault>
    requires { (S.view spawner.old).given ≤ 4294967000 }
{
    let one = spawner.start("/bin/sh", first)?;
    let other = spawner.start("/bin/sh", second)?;
    let lines = child_lines(spawner, one)?;
    let status = spawner.finish(one);
    Ok(((Ok(lines), status), child_outcome(spawner, other)))
}

/// Prints what becomes of a program that runs with these words.
fn print_child<W: Write, R: Processes<Started = SystemProcess> + Clock + Drop>(
    to: &mut W,
    rt: R,
    alloc: Global,
    program: &str,
    words: &Texts,
) -> io::Result<()> {
    let mut spawner = RealSpawner::new(rt, alloc, 7);
    let came = run_child(&mut spawner, program, words);
    writeln!(to, "{came:?}, {} faults", spawner.faults())
}

/// Prints what becomes of a shell that does this.
fn print_command<W: Write, R: Processes<Started = SystemProcess> + Clock + Clone + Drop>(
    to: &mut W,
    rt: &R,
    alloc: Global,
    command: &str,
) -> io::Result<()> {
    write!(to, "{command}: ")?;
    let words = shell_words(alloc, command)?;
    print_child(to, rt.clone()?, alloc, "/bin/sh", &words)
}

/// Prints what becomes of a program that is not there.
fn print_missing<W: Write, R: Processes<Started = SystemProcess> + Clock + Clone + Drop>(
    to: &mut W,
    rt: &R,
    alloc: Global,
) -> io::Result<()> {
    write!(to, "no program: ")?;
    let words = Texts::new(alloc);
    print_child(to, rt.clone()?, alloc, "/no/such/program", &words)
}

/// Prints what becomes of shells with these words side by side, and which of them was the first to end with a fault.
fn print_two_children<W: Write, R: Processes<Started = SystemProcess> + Clock + Drop>(
    to: &mut W,
    rt: R,
    alloc: Global,
    first: &Texts,
    second: &Texts,
) -> io::Result<()> {
    let mut spawner = RealSpawner::new(rt, alloc, 7);
    let came = run_two_children(&mut spawner, first, second);
    let failed = spawner.first_failure();
    writeln!(
        to,
        "{came:?}, {} faults, first {failed:?}",
        spawner.faults()
    )
}

/// Prints what becomes of two shells that do this side by side.
fn print_command_pair<W: Write, R: Processes<Started = SystemProcess> + Clock + Clone + Drop>(
    to: &mut W,
    rt: &R,
    alloc: Global,
    first: &str,
    second: &str,
) -> io::Result<()> {
    write!(to, "{first} beside {second}: ")?;
    let first = shell_words(alloc, first)?;
    let second = shell_words(alloc, second)?;
    print_two_children(to, rt.clone()?, alloc, &first, &second)
}

/// The commands of a shell whose lines and statuses are read.
const COMMANDS: [&str; 7] = [
    "echo four; exit 3",
    "printf four",
    "printf %064d 7; echo; exit 3",
    "printf %065d 7; echo; exit 3",
    "printf 'one\\n\\ntwo'",
    "read line; echo \"$line.\"",
    "kill -9 $$",
];

/// Commands of shells that run side by side: one writes more than a pipe holds while the other is read; one writes more than a
/// host does; one ends with a fault while the other is silent; the status of one comes of that of the other.
const PAIRS: [(&str, &str); 4] = [
    ("sleep 1; echo a; exit 3", "seq 30000; exit 4"),
    ("sleep 1; echo a; exit 3", "yes 2> /dev/null; exit 7"),
    ("exec sleep 60", "exit 5"),
    ("exit 25", "exit 18"),
];

/// Prints what becomes of children that a shell plays, and of a program that is not there.
pub(crate) fn print_children<
    W: Write,
    R: Processes<Started = SystemProcess> + Clock + Clone + Drop,
>(to: &mut W, rt: &R, alloc: Global) -> io::Result<()> {
    for command in COMMANDS {
        print_command(to, rt, alloc, command)?;
    }
    print_missing(to, rt, alloc)?;
    for (first, second) in PAIRS {
        print_command_pair(to, rt, alloc, first, second)?;
    }
    Ok(())
}
