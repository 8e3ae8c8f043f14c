//! Programs that run over links print what the source prints. Nothing is computed here: the clauses are laws.

ghost use Rattle.vd_distributed.specs.Ending.{RunningHostsEnd};
ghost use Rattle.vd_distributed.specs.Running.{RunningHostsTellTheSource};

/// All hosts of a program that has a source's outputs, each run by itself from the program that `compile` stores for it, or from one
/// that was hastened, over links on which what comes is a prefix of what was sent there, write the source's outputs to them: `listening`, a
/// prefix of the decimal lines of these words, and where a host ends all of them, and `ended`. None has the status of a wrong byte, of
/// words that differ, of another program or of another host. Nothing is asked of times, or of the order in which anything happens.
pub fn running_hosts_tell_the_source()
    ensures { RunningHostsTellTheSource }
{}

/// Such hosts all end well where inputs and items suffice, nothing outside fails, and all that one sends to another comes there: one
/// that finds the end of a link has gone on as far as what was sent to it lets it. So they are never all waiting, in their greetings
/// or behind them, for bytes that nobody will send.
pub fn running_hosts_end()
    ensures { RunningHostsEnd }
{}
