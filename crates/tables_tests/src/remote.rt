//! Remote commands and terminals as a plan has them, what they are answered, and which plans fit.

use gem_remote::{Ackc10, CommandPlan, ParamPlan, Remote, RemotePlan};
use gl_base::Row;
use secs_items::{Item, Kind, check, encode_into};
use std::alloc::Global;
use std::test::Fail;

// Each of these tells whether memory was there.
fn put_text(alloc: Global, items: &mut Row<Item>, characters: &[u8]) -> bool {
    let Ok(text) = Row::of(alloc, characters) else {
        return false;
    };
    items.push(Item::A(text)).is_ok()
}

fn put_param(
    alloc: Global,
    params: &mut Row<ParamPlan>,
    name: &[u8],
    kind: Kind,
    values: Row<Item>,
) -> bool {
    let Ok(name) = Row::of(alloc, name) else {
        return false;
    };
    params.push(ParamPlan { name, kind, values }).is_ok()
}

fn put_command(
    alloc: Global,
    plan: &mut RemotePlan,
    name: &[u8],
    later: bool,
    params: Row<ParamPlan>,
) -> bool {
    let Ok(name) = Row::of(alloc, name) else {
        return false;
    };
    plan.commands
        .push(CommandPlan {
            name,
            later,
            params,
        })
        .is_ok()
}

// START with SPEED, a U4, and MODE, which is FAST or SLOW.
fn put_start(alloc: Global, plan: &mut RemotePlan) -> bool {
    let mut modes = Row::new(alloc);
    let mut params = Row::new(alloc);
    let listed = put_text(alloc, &mut modes, b"FAST") && put_text(alloc, &mut modes, b"SLOW");
    let with_mode = put_param(alloc, &mut params, b"MODE", Kind::A, modes);
    let with_speed = put_param(alloc, &mut params, b"SPEED", Kind::U4, Row::new(alloc));
    put_command(alloc, plan, b"START", false, params) && listed && with_mode && with_speed
}

// A plan without commands.
fn empty(alloc: Global, terminals: u8) -> RemotePlan {
    RemotePlan {
        commands: Row::new(alloc),
        terminals,
    }
}

// START, PURGE for later, and one terminal.
fn planned(alloc: Global) -> Option<Remote> {
    let mut plan = empty(alloc, 1);
    if !put_start(alloc, &mut plan)
        || !put_command(alloc, &mut plan, b"PURGE", true, Row::new(alloc))
    {
        return None;
    }
    remote_of(alloc, &plan)
}

fn remote_of(alloc: Global, plan: &RemotePlan) -> Option<Remote> {
    if !plan.fits() {
        return None;
    }
    Remote::new(alloc, plan).ok()
}

// Whether the command is local, its name, its parameters and the body of S2F42.
type Case = (bool, &'static [u8], &'static [u8], &'static [u8]);

// SPEED as a text; then as a U4; MODE as one of its values, as none of them, an unknown parameter, and a right one.
static CASES: [Case; 8] = [
    (
        false,
        b"START",
        b"\x01\x01\x01\x02A\x05SPEEDA\x01X",
        b"\x01\x02!\x01\x03\x01\x01\x01\x02A\x05SPEED!\x01\x03",
    ),
    (false, b"STOP", b"\x01\x00", b"\x01\x02!\x01\x01\x01\x00"),
    (
        true,
        b"START",
        b"\x01\x01\x01\x02A\x05SPEEDA\x01X",
        b"\x01\x02!\x01\x02\x01\x00",
    ),
    (
        false,
        b"STOP",
        b"\x01\x01\x01\x02A\x00\x01\x00",
        b"\x01\x02!\x01\x01\x01\x00",
    ),
    (
        false,
        b"START",
        b"\x01\x01\x01\x02A\x05SPEED\xB1\x04\x00\x00\x00\x05",
        b"\x01\x02!\x01\x00\x01\x00",
    ),
    (false, b"PURGE", b"\x01\x00", b"\x01\x02!\x01\x04\x01\x00"),
    (
        false,
        b"PURGE",
        b"\x01\x01\x01\x02A\x00\x01\x00",
        b"\x01\x02!\x01\x03\x01\x01\x01\x02A\x00!\x01\x01",
    ),
    (
        false,
        b"START",
        b"\x01\x04\x01\x02A\x04MODEA\x04SLOW\x01\x02A\x04MODEA\x01X\x01\x02A\x04SPED\x01\x00\x01\x02A\x05SPEED\xB1\x00",
        b"\x01\x02!\x01\x03\x01\x02\x01\x02A\x04MODE!\x01\x02\x01\x02A\x04SPED!\x01\x01",
    ),
];

// Whether the command is answered so.
fn is_answered(alloc: Global, remote: &Remote, case: &Case) -> bool {
    let (local, name, params, reply) = *case;
    let Ok(params) = check(params) else {
        return false;
    };
    let Ok(answer) = remote.command(alloc, local, name, &params) else {
        return false;
    };
    let Ok(len) = remote.reply_len(alloc, local, name, &params) else {
        return false;
    };
    let mut spelling = Row::new(alloc);
    encode_into(&answer.reply, &mut spelling).is_ok()
        && spelling.as_slice() == reply
        && len == reply.len()
        && spelling.as_slice().get(4).copied() == Some(answer.hcack)
}

#[test]
fn commands_are_answered_by_the_plan(rt: HostRuntime) -> Result<(), Fail> {
    let remote = planned(rt.alloc()).ok_or("no plan")?;
    for case in &CASES {
        assert!(rt; is_answered(rt.alloc(), &remote, case), "{case:?}");
    }
    assert_eq!(rt; remote.display(0), Ackc10::Accepted);
    assert_eq!(rt; remote.display(1), Ackc10::NoTerminal);
    Ok(())
}

// Whether a plan fits that has PURGE once or twice, and so many commands of other names.
fn fits(alloc: Global, others: u16, twice: bool) -> Option<bool> {
    let mut plan = empty(alloc, 0);
    let mut is_made = put_command(alloc, &mut plan, b"PURGE", true, Row::new(alloc));
    for number in 0..others {
        is_made = put_command(
            alloc,
            &mut plan,
            &number.to_be_bytes(),
            false,
            Row::new(alloc),
        ) && is_made;
    }
    if twice {
        is_made = put_command(alloc, &mut plan, b"PURGE", false, Row::new(alloc)) && is_made;
    }
    if is_made { Some(plan.fits()) } else { None }
}

#[test]
fn plans_fit_within_their_limits(rt: HostRuntime) {
    assert_eq!(rt; fits(rt.alloc(), 255, false), Some(true));
    assert_eq!(rt; fits(rt.alloc(), 256, false), Some(false));
    assert_eq!(rt; fits(rt.alloc(), 1, true), Some(false));
}
