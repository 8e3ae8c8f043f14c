//! The form of a command.

ghost use Rattle.std.specs.Prelude.{◌≡◌};
ghost use Rattle.vd_diag.specs.Usage as usage;

use crate::tables::in_table;

const USAGES: [(&[u8], &[u8]); 22] = [
    (b"clear", b"usage: viaduct clear SOURCE INPUTS\n"),
    (b"labels", b"usage: viaduct labels SOURCE\n"),
    (b"choose", b"usage: viaduct choose SOURCE [BUDGET]\n"),
    (b"draw", b"usage: viaduct draw SOURCE [BUDGET]\n"),
    (
        b"reveals",
        b"usage: viaduct reveals SOURCE [HOST] [BUDGET]\n",
    ),
    (b"certify", b"usage: viaduct certify SOURCE CERT\n"),
    (
        b"compile",
        b"usage: viaduct compile SOURCE PREFIX [early] [BUDGET]\n",
    ),
    (b"needs", b"usage: viaduct needs FILE [each] [BUDGET]\n"),
    (b"rounds", b"usage: viaduct rounds FILE [BUDGET]\n"),
    (
        b"column",
        b"usage: viaduct column HOST FILE NAME[*FACTOR] ..\n",
    ),
    (
        b"deal",
        b"usage: viaduct deal HOSTS OWN MULS ANDS PAIRS KEY PREFIX\n",
    ),
    (
        b"replay",
        b"usage: viaduct replay SOURCE INPUTS PREFIX SCHEDULE [messages] [BUDGET]\n",
    ),
    (b"check", b"usage: viaduct check PROGRAM INPUTS DEAL\n"),
    (b"host", b"usage: viaduct host PROGRAM INPUTS DEAL ADDR..\n"),
    (
        b"host-within",
        b"usage: viaduct host-within SECONDS PROGRAM INPUTS DEAL ADDR..\n",
    ),
    (
        b"report",
        b"usage: viaduct report SOURCE HOST FILE [json]\n",
    ),
    (
        b"run",
        b"usage: viaduct run SOURCE INPUTS PREFIX SELF PORT\n",
    ),
    (
        b"excuse",
        b"usage: viaduct excuse SOURCE INPUTS INPUTS2 PREFIX HOST OUT [BUDGET]\n",
    ),
    (b"depends", b"usage: viaduct depends SOURCE HOSTS\n"),
    (b"influences", b"usage: viaduct influences SOURCE HOST\n"),
    (b"gen", b"usage: viaduct gen N\n"),
    (b"trial", b"usage: viaduct trial N\n"),
];

/// The line that tells the form of the command that a first word means.
#[tactic(auto, unfolding(crate::specs::Usage::usage_table, crate::specs::Usage::all_usages))]
pub fn usage_of(word: &[u8]) -> &'static [u8]
    ensures { result.now ≡ usage.usage_of word.now }
{
    in_table(
        &USAGES,
        word,
        b"usage: viaduct COMMAND WORD..; viaduct --help lists the commands\n",
    )
}
