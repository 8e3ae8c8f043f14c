//! The reader of schedules.

ghost use Rattle.std.specs.Prelude.{◌≡◌, ℕ, ◌≤◌, ◌∷◌, [], ◌++◌, List, length, IfOk, IfErr, OnOk, MatchResult};
ghost use Rattle.vd_report.specs.declared.token.TokenKind.TheVariants as token_kind;
ghost use Rattle.vd_report.specs.declared.schedule.Schedule.{Schedule};
ghost use Rattle.vd_base.specs.declared.ids.HostId.{HostId};
ghost use Rattle.vd_report.specs.Outcome.{IsFaultOf, Accepts, Refuses, FirstWrong};
ghost use Rattle.vd_report.specs.Schedule.{IsEntry, go, stop, entry_step, last_step, schedule_read};
ghost use Rattle.vd_report.specs.ScheduleText.{GivesSchedule, IsScheduleText, SchedulesFollowGrammar};

use crate::fault::{ReadFault, offset};
use crate::hosts::host_of;
use crate::token::{Token, TokenKind, next_token};
use std::alloc::Global;
use vd_base::limits::{HOSTS, SCHEDULE_ENTRIES};
use vd_base::{HostId, Items, Names};

/// In which order hosts step.
#[derive(Drop)]
pub struct Schedule {
    /// The hosts that step in turn, one step each where they can.
    pub entries: Items<HostId>,
    /// Whether rounds over all hosts follow, until none can step.
    pub all: bool,
}

/// The schedule that a file gives.
pub fn read_schedule(alloc: Global, bytes: &[u8], hosts: &Names) -> Result<Schedule, ReadFault>
    requires { length hosts.now ≤ HOSTS }
    ensures given { Accepts result (GivesSchedule hosts.now bytes.now) }
    ensures refused { Refuses result (FirstWrong IsScheduleText hosts.now bytes.now) }
    ensures ok { IfOk result (λ schedule. schedule_read hosts.now bytes.now ≡ Ok schedule) }
    ensures err { IfErr result (λ fault. IsFaultOf (schedule_read hosts.now bytes.now) fault) }
{
    read_entries(alloc, bytes, hosts)
}

/// The schedule, read entry by entry.
fn read_entries(alloc: Global, bytes: &[u8], hosts: &Names) -> Result<Schedule, ReadFault>
    requires { length hosts.now ≤ HOSTS }
    ensures ok { IfOk result (λ schedule. schedule_read hosts.now bytes.now ≡ Ok schedule) }
    ensures err { IfErr result (λ fault. IsFaultOf (schedule_read hosts.now bytes.now) fault) }
{
    let mut entries = Items::new(alloc);
    let mut at = 0;
    'entries: loop {
        let token = next_token(bytes, at);
        match token.kind {
            TokenKind::End => return Ok(Schedule {
                entries,
                all: false,
            }),
            TokenKind::All => {
                let last = next_token(bytes, token.end);
                expect_end(last)?;
                return Ok(Schedule { entries, all: true });
            }
            _ => {
                let host = entry_host(bytes, hosts, &entries, token)?;
                entries.push(host)?;
                at = token.end;
            }
        }
    }
}

/// The host that a token names as the next entry.
fn entry_host(
    bytes: &[u8],
    hosts: &Names,
    entries: &Items<HostId>,
    token: Token,
) -> Result<HostId, ReadFault>
    requires start { token.start ≤ token.end }
    requires end { token.end ≤ length bytes.now }
    requires few_hosts { length hosts.now ≤ HOSTS }
    requires entry { IsEntry token }
    ensures { MatchResult result
        (λ host. entry_step hosts.now bytes.now entries.now token ≡ go (entries.now ++ host ∷ []))
        (λ fault. entry_step hosts.now bytes.now entries.now token ≡ stop (Err fault)) }
{
    let TokenKind::Name = token.kind else {
        return Err(ReadFault::Text(offset(token.start)));
    };
    if entries.as_slice().len() >= SCHEDULE_ENTRIES as usize {
        return Err(ReadFault::Text(offset(token.start)));
    }
    match host_of(hosts, &bytes[token.start..token.end]) {
        Some(host) => Ok(HostId(host as u8)),
        None => Err(ReadFault::UnknownHost(offset(token.start))),
    }
}

/// Refuses a token that is not the end.
fn expect_end(token: Token) -> Result<(), ReadFault>
    ensures ok { OnOk result (token.kind ≡ token_kind.End) }
    ensures err { IfErr result (λ fault. (entries : List HostId) → last_step entries token ≡ Err fault) }
{
    match token.kind {
        TokenKind::End => Ok(()),
        _ => Err(ReadFault::Text(offset(token.start))),
    }
}

/// Each schedule file either is a text of the grammar, and gives its schedule, or has one first token that cannot stand there, and the fault of that token.
pub fn schedules_follow_the_grammar()
    ensures { (hosts : List (List ℕ)) (bytes : List ℕ) → SchedulesFollowGrammar hosts bytes }
{}
