//! What the tables answer to messages of the host, and what these leave in them.

use equipment_tables::{Answer, EquipmentPlan, Tables, request_of};
use gem_alarms::AlarmPlan;
use gem_remote::{CommandPlan, ParamPlan, RemotePlan};
use gem_shapes::{Request, RuleEntry};
use gem_states::ControlState;
use gem_vars::{VariablePlan, VarsPlan};
use gl_base::{NoMemory, Row};
use line_end::{LinePlan, Times};
use secs_items::{BodyCheck, Item, Kind};
use std::alloc::Global;
use std::test::Fail;

// Variable 1, which is a 5.
fn planned_vars(alloc: Global) -> Result<VarsPlan, NoMemory> {
    let mut variables = Row::new(alloc);
    variables.push(VariablePlan {
        vid: 1,
        name: Row::of(alloc, b"")?,
        units: Row::of(alloc, b"")?,
        value: Item::U4(Row::of(alloc, &[5])?),
    })?;
    Ok(VarsPlan {
        variables,
        constants: Row::new(alloc),
        built_in: [10, 1, 1, 0],
    })
}

// Alarm 3, enabled, of category 5.
fn planned_alarms(alloc: Global) -> Result<Row<AlarmPlan>, NoMemory> {
    let mut alarms = Row::new(alloc);
    alarms.push(AlarmPlan {
        alid: 3,
        category: 5,
        text: Row::of(alloc, b"HOT")?,
        enabled: true,
    })?;
    Ok(alarms)
}

// START with SPEED, a U4, and one terminal.
fn planned_remote(alloc: Global) -> Result<RemotePlan, NoMemory> {
    let mut params = Row::new(alloc);
    params.push(ParamPlan {
        name: Row::of(alloc, b"SPEED")?,
        kind: Kind::U4,
        values: Row::new(alloc),
    })?;
    let mut commands = Row::new(alloc);
    commands.push(CommandPlan {
        name: Row::of(alloc, b"START")?,
        later: false,
        params,
    })?;
    Ok(RemotePlan {
        commands,
        terminals: 1,
    })
}

// S5F1 is spooled.
fn planned_rule(alloc: Global) -> Result<Row<RuleEntry>, NoMemory> {
    let mut spooled = Row::new(alloc);
    spooled.push(RuleEntry {
        stream: 5,
        functions: Row::of(alloc, &[1])?,
    })?;
    Ok(spooled)
}

// All of these, and event 7.
fn planned(alloc: Global) -> Result<EquipmentPlan, NoMemory> {
    Ok(EquipmentPlan {
        line: LinePlan {
            device: 0,
            times: Times {
                t1: 500,
                t2: 10_000,
                rty: 3,
            },
            t3: 45_000,
            t4: 45_000,
            max_body: 244,
        },
        mdln: Row::of(alloc, b"GEMLINE")?,
        softrev: Row::of(alloc, b"1")?,
        enable: true,
        control: ControlState::Remote,
        spooled: planned_rule(alloc)?,
        vars: planned_vars(alloc)?,
        events: Row::of(alloc, &[7])?,
        alarms: planned_alarms(alloc)?,
        remote: planned_remote(alloc)?,
    })
}

fn tables_of(alloc: Global) -> Option<Tables> {
    let plan = planned(alloc).ok()?;
    if !plan.fits() {
        return None;
    }
    Tables::new(alloc, &plan).ok()
}

// A message of the host: its stream, its function and its body; the body of the answer, or what stands for it; and how
// many lines are noted.
enum Wanted {
    Body(&'static [u8]),
    TooLong,
    Elsewhere,
    Broken,
}

type Case = (u8, u8, &'static [u8], Wanted, usize);

fn is_wanted(answer: &Answer, wanted: &Wanted) -> bool {
    match (answer, wanted) {
        (Answer::Body(body), Wanted::Body(bytes)) => body.as_slice() == *bytes,
        (Answer::TooLong, Wanted::TooLong) => true,
        _ => false,
    }
}

fn goes(alloc: Global, tables: &mut Tables, case: &Case) -> bool {
    let (stream, function, body, wanted, lines) = case;
    let mut notes = Row::new(alloc);
    let mut check = BodyCheck::new();
    if check.fed() > 1_000 || body.len() > 1_000 {
        return false;
    }
    check.feed(body);
    match request_of(alloc, *stream, *function, body, &check) {
        Ok(Some(Request::OfTables(request))) => match tables.answer(
            alloc, &request, false, 244, &mut notes,
        ) {
            Ok(answer) => is_wanted(&answer, wanted) && notes.len() == *lines,
            Err(NoMemory) => false,
        },
        Ok(Some(_)) => matches!(wanted, Wanted::Elsewhere),
        Ok(None) => matches!(wanted, Wanted::Broken),
        Err(NoMemory) => false,
    }
}

// The place of the first case that doesn't go as it is wanted, or how many there are.
fn first_wrong(alloc: Global, cases: &[Case]) -> usize {
    let Some(mut tables) = tables_of(alloc) else {
        return 0;
    };
    for i in 0..cases.len() {
        if !goes(alloc, &mut tables, &cases[i]) {
            return i;
        }
    }
    cases.len()
}

static VALUES: [Case; 8] = [
    (
        1,
        1,
        b"",
        Wanted::Body(b"\x01\x02\x41\x07GEMLINE\x41\x011"),
        0,
    ),
    (
        1,
        3,
        b"\x01\x02\xB1\x04\0\0\0\x01\xA5\x01\x63",
        Wanted::Body(b"\x01\x02\xB1\x04\0\0\0\x05\x01\0"),
        0,
    ),
    (
        1,
        11,
        b"\x01\x01\xA5\x01\x01",
        Wanted::Body(b"\x01\x01\x01\x03\xB1\x04\0\0\0\x01\x41\0\x41\0"),
        0,
    ),
    (
        2,
        15,
        b"\x01\x01\x01\x02\xB1\x04\0\0\0\x03\x25\x01\0",
        Wanted::Body(b"\x21\x01\0"),
        0,
    ),
    (
        2,
        13,
        b"\x01\x01\xB1\x04\0\0\0\x03",
        Wanted::Body(b"\x01\x01\xB1\x04\0\0\0\0"),
        0,
    ),
    (
        2,
        15,
        b"\x01\x01\x01\x02\xA5\x01\x63\xA5\x01\0",
        Wanted::Body(b"\x21\x01\x01"),
        0,
    ),
    (
        2,
        15,
        b"\x01\x01\x01\x02\xA5\x01\x03\xA5\x01\x02",
        Wanted::Body(b"\x21\x01\x03"),
        0,
    ),
    (
        2,
        29,
        b"\x01\x01\xA5\x01\x03",
        Wanted::Body(
            b"\x01\x01\x01\x06\xB1\x04\0\0\0\x03\x41\x0EOverWriteSpool\xB1\x04\0\0\0\0\
            \xB1\x04\0\0\0\x01\xB1\x04\0\0\0\x01\x41\0",
        ),
        0,
    ),
];

#[test]
fn values_are_answered(rt: HostRuntime) -> Result<(), Fail> {
    assert!(rt; first_wrong(rt.alloc(), &VALUES) == 8);
    Ok(())
}

static REPORTS: [Case; 8] = [
    (
        2,
        39,
        b"\x01\x02\xA5\x01\0\xA9\x02\x01\0",
        Wanted::Body(b"\x21\x01\0"),
        0,
    ),
    (
        2,
        33,
        b"\x01\x02\xA5\x01\0\x01\x01\x01\x02\xA5\x01\x0A\x01\x01\xA5\x01\x01",
        Wanted::Body(b"\x21\x01\0"),
        0,
    ),
    (
        2,
        33,
        b"\x01\x02\xA5\x01\0\x01\x01\x01\x02\xA5\x01\x0A\x01\x01\xA5\x01\x01",
        Wanted::Body(b"\x21\x01\x03"),
        0,
    ),
    (
        2,
        35,
        b"\x01\x02\xA5\x01\0\x01\x01\x01\x02\xA5\x01\x07\x01\x01\xA5\x01\x0A",
        Wanted::Body(b"\x21\x01\0"),
        0,
    ),
    (
        2,
        35,
        b"\x01\x02\xA5\x01\0\x01\x01\x01\x02\xA5\x01\x08\x01\x01\xA5\x01\x0A",
        Wanted::Body(b"\x21\x01\x04"),
        0,
    ),
    (
        6,
        15,
        b"\xA5\x01\x07",
        Wanted::Body(
            b"\x01\x03\xB1\x04\0\0\0\0\xB1\x04\0\0\0\x07\x01\x01\x01\x02\xB1\x04\0\0\0\x0A\x01\x01\xB1\x04\0\0\0\x05",
        ),
        0,
    ),
    (
        6,
        19,
        b"\xA5\x01\x0A",
        Wanted::Body(b"\x01\x01\xB1\x04\0\0\0\x05"),
        0,
    ),
    (6, 19, b"\xA5\x01\x0B", Wanted::Body(b"\x01\0"), 0),
];

#[test]
fn reports_are_answered(rt: HostRuntime) -> Result<(), Fail> {
    assert!(rt; first_wrong(rt.alloc(), &REPORTS) == 8);
    Ok(())
}

static ALARMS: [Case; 8] = [
    (
        2,
        37,
        b"\x01\x02\x25\x01\xFF\x01\x01\xA5\x01\x07",
        Wanted::Body(b"\x21\x01\0"),
        0,
    ),
    (
        2,
        37,
        b"\x01\x02\x25\x01\xFF\x01\x01\xA5\x01\x08",
        Wanted::Body(b"\x21\x01\x01"),
        0,
    ),
    (
        5,
        5,
        b"\xA5\x01\x04",
        Wanted::Body(b"\x01\x01\x01\x03\x21\0\xB1\x04\0\0\0\x04\x41\0"),
        0,
    ),
    (
        5,
        7,
        b"",
        Wanted::Body(b"\x01\x01\x01\x03\x21\x01\x05\xB1\x04\0\0\0\x03\x41\x03HOT"),
        0,
    ),
    (
        5,
        3,
        b"\x01\x02\x21\x01\0\xA5\x01\x03",
        Wanted::Body(b"\x21\x01\0"),
        0,
    ),
    (
        5,
        3,
        b"\x01\x02\x21\x01\x80\xA5\x01\x04",
        Wanted::Body(b"\x21\x01\x01"),
        0,
    ),
    (5, 7, b"", Wanted::Body(b"\x01\0"), 0),
    (1, 3, b"\xA5\x01\x01", Wanted::Broken, 0),
];

#[test]
fn alarms_are_answered(rt: HostRuntime) -> Result<(), Fail> {
    assert!(rt; first_wrong(rt.alloc(), &ALARMS) == 8);
    Ok(())
}

static COMMANDS: [Case; 9] = [
    (
        2,
        41,
        b"\x01\x02\x41\x05START\x01\0",
        Wanted::Body(b"\x01\x02\x21\x01\0\x01\0"),
        1,
    ),
    (
        2,
        41,
        b"\x01\x02\x41\x04STOP\x01\0",
        Wanted::Body(b"\x01\x02\x21\x01\x01\x01\0"),
        0,
    ),
    (
        2,
        41,
        b"\x01\x02\x41\x05START\x01\x01\x01\x02\x41\x05SPEED\x01\0",
        Wanted::Body(b"\x01\x02\x21\x01\x03\x01\x01\x01\x02\x41\x05SPEED\x21\x01\x03"),
        0,
    ),
    (
        10,
        3,
        b"\x01\x02\x21\x01\0\x41\x02HI",
        Wanted::Body(b"\x21\x01\0"),
        1,
    ),
    (
        10,
        3,
        b"\x01\x02\x21\x01\x01\x41\x02HI",
        Wanted::Body(b"\x21\x01\x02"),
        0,
    ),
    (
        10,
        5,
        b"\x01\x02\x21\x01\0\x01\x02\x41\x02HI\x41\0",
        Wanted::Body(b"\x21\x01\0"),
        2,
    ),
    (2, 43, b"\xA5\x01\x05", Wanted::Broken, 0),
    (6, 23, b"\xA5\x01\x01", Wanted::Elsewhere, 0),
    (
        2,
        23,
        b"\x01\x05\xA5\x01\x01\x41\0\xA5\x01\x02\xA5\x01\x02\x01\0",
        Wanted::Elsewhere,
        0,
    ),
];

#[test]
fn commands_and_texts_are_answered(rt: HostRuntime) -> Result<(), Fail> {
    assert!(rt; first_wrong(rt.alloc(), &COMMANDS) == 9);
    Ok(())
}

// What a message leaves: whether S5F1, S6F11 and S10F1 are spooled; whether the spool may become active, and takes the
// place of the oldest message where it is full; and how many messages go to the host at one request.
type Spooling = ([bool; 3], [bool; 2], u32);

fn is_left(tables: &Tables, left: &Spooling) -> bool {
    let (spooled, does, most) = left;
    tables.covers(5, 1) == spooled[0]
        && tables.covers(6, 11) == spooled[1]
        && tables.covers(10, 1) == spooled[2]
        && tables.may_spool() == does[0]
        && tables.overwrites() == does[1]
        && tables.most_transmitted() == *most
}

// The place of the first message that doesn't go as it is wanted, or how many there are.
fn first_wrong_left(alloc: Global, cases: &[(Case, Spooling)]) -> usize {
    let Some(mut tables) = tables_of(alloc) else {
        return 0;
    };
    for i in 0..cases.len() {
        let (case, left) = &cases[i];
        if !goes(alloc, &mut tables, case) || !is_left(&tables, left) {
            return i;
        }
    }
    cases.len()
}

// S1F1, which leaves all as planned; an S2F43 that is accepted, and one that is refused beside a good entry; the
// constants; and an S2F43 without entries.
static SPOOLING: [(Case, Spooling); 5] = [
    (
        (
            1,
            1,
            b"",
            Wanted::Body(b"\x01\x02\x41\x07GEMLINE\x41\x011"),
            0,
        ),
        ([true, false, false], [true, true], 0),
    ),
    (
        (
            2,
            43,
            b"\x01\x01\x01\x02\xA5\x01\x06\x01\x01\xA5\x01\x0B",
            Wanted::Body(b"\x01\x02\x21\x01\0\x01\0"),
            0,
        ),
        ([false, true, false], [true, true], 0),
    ),
    (
        (
            2,
            43,
            b"\x01\x02\x01\x02\xA5\x01\x0A\x01\0\x01\x02\xA5\x01\x06\x01\x01\xA5\x01\x0C",
            Wanted::Body(
                b"\x01\x02\x21\x01\x01\x01\x01\x01\x03\xA5\x01\x06\x21\x01\x04\x01\x01\xA5\x01\x0C",
            ),
            0,
        ),
        ([false, true, false], [true, true], 0),
    ),
    (
        (
            2,
            15,
            b"\x01\x03\x01\x02\xA5\x01\x02\xA5\x01\0\x01\x02\xA5\x01\x03\xA5\x01\0\x01\x02\xA5\x01\x04\xA5\x01\x07",
            Wanted::Body(b"\x21\x01\0"),
            0,
        ),
        ([false, true, false], [false, false], 7),
    ),
    (
        (
            2,
            43,
            b"\x01\0",
            Wanted::Body(b"\x01\x02\x21\x01\0\x01\0"),
            0,
        ),
        ([false, false, false], [false, false], 7),
    ),
];

#[test]
fn spooling_is_set(rt: HostRuntime) -> Result<(), Fail> {
    assert!(rt; first_wrong_left(rt.alloc(), &SPOOLING) == 5);
    Ok(())
}
