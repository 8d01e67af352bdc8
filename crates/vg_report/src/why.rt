// Why a member is live.
ghost use Rattle.std.specs.Prelude.{◌≡◌, ◌++◌, IfOk, IfSome, MatchOption, None, OnOk, Some};
ghost use Rattle.vg_live.specs.Sets.{reason_of};
ghost use Rattle.vg_report.specs.Chains.{Chain, Falls, IsNext, IsWhy};
ghost use Rattle.vg_report.specs.Texts.{dead_line, from_text, reason_line};

use crate::members::put_member;
use itoa::Buffer;
use std::alloc::Global;
use vg_base::{Names, NoMemory, Row};
use vg_core::{Member, Program, Tables};
use vg_live::{LiveSet, Reason};

/// A member, and why it is live.
#[derive(Clone, Copy, Debug, PartialEq, Eq)]
pub struct Link {
    pub member: Member,
    pub reason: Reason,
}

/// The chain of the kept reasons of a member, a line each, or the line that it is dead.
pub fn why_text(
    alloc: Global,
    live: &LiveSet,
    member: Member,
    program: &Program,
    names: &Names,
) -> Result<Row<u8>, NoMemory>
    requires { Falls live.now }
    ensures { IfOk result (IsWhy names.now program.now.tables live.now member) }
{
    match live.reason(member) {
        Some(reason) => chain_text(alloc, live, Link { member, reason }, &program.tables, names),
        None => dead_text(alloc, member, &program.tables, names),
    }
}

// The line of a dead member.
fn dead_text(
    alloc: Global,
    member: Member,
    tables: &Tables,
    names: &Names,
) -> Result<Row<u8>, NoMemory>
    ensures { IfOk result (λ text. text ≡ dead_line names.now tables.now member) }
{
    let mut text = Row::from_slice(alloc, b"dead ")?;
    put_member(&mut text, tables, names, member)?;
    text.append(b"\n")?;
    Ok(text)
}

// The lines of the kept reasons.
fn chain_text(
    alloc: Global,
    live: &LiveSet,
    first: Link,
    tables: &Tables,
    names: &Names,
) -> Result<Row<u8>, NoMemory>
    requires falls { Falls live.now }
    requires kept { reason_of live.now first.member ≡ Some first.reason }
    ensures { IfOk result (Chain names.now tables.now live.now first.member) }
{
    let mut text = Row::new(alloc);
    let mut link = first;
    loop {
        put_line(&mut text, tables, names, link)?;
        match next_link(live, link) {
            Some(next) => link = next,
            None => return Ok(text),
        }
    }
}

// The member that a member is live by, with its reason.
fn next_link(live: &LiveSet, link: Link) -> Option<Link>
    requires falls { Falls live.now }
    requires kept { reason_of live.now link.member ≡ Some link.reason }
    ensures { MatchOption result (link.reason.from ≡ None) (IsNext live.now link.reason) }
{
    match link.reason.from {
        Some(member) => match live.reason(member) {
            Some(reason) => Some(Link { member, reason }),
            // What a live member is live by is live.
            None => unreachable!(),
        },
        None => None,
    }
}

// Puts the line of a reason behind a text.
fn put_line(text: &mut Row<u8>, tables: &Tables, names: &Names, link: Link) -> Result<(), NoMemory>
    ensures { OnOk result (text.new ≡ text.old ++ reason_line names.now tables.now link.member link.reason) }
{
    put_member(text, tables, names, link.member)?;
    text.append(b" by ")?;
    text.append(Buffer::new().format(link.reason.rule).as_bytes())?;
    put_from(text, tables, names, link.reason.from)?;
    text.append(b"\n")
}

// Puts the member that one is live by, where there is one.
fn put_from(
    text: &mut Row<u8>,
    tables: &Tables,
    names: &Names,
    from: Option<Member>,
) -> Result<(), NoMemory>
    ensures { OnOk result (text.new ≡ text.old ++ from_text names.now tables.now from) }
{
    match from {
        Some(member) => {
            text.append(b" from ")?;
            put_member(text, tables, names, member)
        }
        None => Ok(()),
    }
}
