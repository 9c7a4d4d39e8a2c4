//! The world of a tool and its host: what schedules and rounds come to.

use crate::replay_and_make::{FIRST_MESSAGE, behind_first};
use equipment_node::EquipmentEnd;
use equipment_tables::{EquipmentPlan, HostPlan};
use gem_remote::RemotePlan;
use gem_states::ControlState;
use gem_vars::{VariablePlan, VarsPlan};
use gl_base::{MemSink, Row};
use host_node::Host;
use line_end::{LinePlan, Phase, Times};
use line_schedule::read_schedule;
use line_world::{Plans, RunEnd, World, make, run};
use message_end::End;
use secs_items::Item;
use spool_rule::RuleEntry;
use std::alloc::Global;
use std::test::Fail;

/// A line with this device, T2 and RTY.
fn line(device: u16, t2: u32, rty: u8) -> LinePlan {
    LinePlan {
        device,
        times: Times { t1: 500, t2, rty },
        t3: 45_000,
        t4: 45_000,
        max_body: 1_048_576,
    }
}

/// A tool without data at its end of a line, and a host at an end of this other line.
fn plans(alloc: Global, line: LinePlan, host: LinePlan) -> Option<Plans> {
    Some(Plans {
        equipment: EquipmentPlan {
            line,
            mdln: Row::of(alloc, b"GEMLINE").ok()?,
            softrev: Row::of(alloc, b"1").ok()?,
            enable: true,
            control: ControlState::Remote,
            spooled: Row::new(alloc),
            vars: VarsPlan {
                variables: Row::new(alloc),
                constants: Row::new(alloc),
                built_in: [10, 1, 1, 0],
            },
            events: Row::new(alloc),
            alarms: Row::new(alloc),
            remote: RemotePlan {
                commands: Row::new(alloc),
                terminals: 1,
            },
        },
        host: HostPlan {
            line: host,
            enable: true,
        },
        slots: 16,
    })
}

/// What is left at the end of a run: no world, or what the equipment's line is about and when the equipment acts next,
/// and the same of the host.
type Left = Option<(Phase, Option<u64>, Phase, Option<u64>)>;

fn left_of(world: &Option<World<EquipmentEnd, Host>>) -> Left {
    let world = world.as_ref()?;
    let equipment = world.equipment().equipment()?;
    Some((
        equipment.phase(),
        equipment.deadline(),
        world.host().phase(),
        world.host().deadline(),
    ))
}

/// How a run of a schedule ended, where the plans and the schedule are good ones, and what is left.
fn end_of_run(
    alloc: Global,
    plans: &Plans,
    schedule: &[u8],
    out: &mut MemSink,
) -> Option<(RunEnd, Left)> {
    if !plans.fits() {
        return None;
    }
    let Ok(schedule) = read_schedule(alloc, schedule) else {
        return None;
    };
    let (end, world) = run(alloc, plans, &schedule, out);
    Some((end, left_of(&world)))
}

/// A schedule, how its run ends, what is left, and the trace.
type Case<'a> = (&'static [u8], RunEnd, Left, &'a str);

/// Whether a schedule is carried out so over these lines, into a sink with so much room.
fn goes(alloc: Global, equipment: LinePlan, host: LinePlan, room: usize, case: &Case) -> bool {
    match (plans(alloc, equipment, host), MemSink::new(alloc, room)) {
        (Some(plans), Ok(mut out)) => {
            end_of_run(alloc, &plans, case.0, &mut out) == Some((case.1, case.2))
                && out.bytes() == case.3.as_bytes()
        }
        _ => false,
    }
}

/// Neither end has anything to do.
const BOTH_IDLE: Left = Some((Phase::Idle, None, Phase::Idle, None));

/// The equipment establishes the communication.
static ESTABLISHED: Case<'static> = (b"settle", RunEnd::Whole, BOTH_IDLE, FIRST_MESSAGE);

/// Nothing befalls them, so the equipment waits for an answer to its ENQ.
static NOTHING: Case<'static> = (
    b"",
    RunEnd::Whole,
    Some((Phase::AwaitEot, Some(10_000), Phase::Idle, None)),
    "0 E start len=0 base=0\n\
        0 H start\n\
        0 E comms WAIT-CRA\n\
        0 E sent S1F13 W 00000000 0102410747454D4C494E45410131\n\
        0 E tx 05\n\
        0 end\n",
);

#[test]
fn communication_is_established(rt: HostRuntime) {
    let line = line(0, 10_000, 3);
    assert!(rt; goes(rt.alloc(), line, line, 10_000, &ESTABLISHED));
    assert!(rt; goes(rt.alloc(), line, line, 10_000, &NOTHING));
}

/// After these the host takes an ENQ inside a frame, whose sum begins so, as the equipment's asking, and the rest of
/// some frames as one whose sum is right. The frame of device 31FE has the sum 057D.
const SLIPPED: &[u8] = b"to H 1\nwait 200\nto H 1\nwait 200\nto H 1\nwait 200\nto H 1\nwait 200\n\
    to H 1\nwait 200\nto H 1\nwait 200\nto H 1\nwait 0\nto E 1\nwait 199\n\
    to E 1\nto E 1\nwait 1\nto E 1\nwait 200\nwait 200\nwait 200\nwait 200\n\
    wait 200\nwait 200\nwait 200\nwait 200\nwait 200\nwait 200\nwait 200\nwait 200\n\
    to E 1\nto E 1\nto E 1\nto E 1\nto E 1\nto E 1\nto E 1\nto H 10000\n";

const SLIP: &[u8] =
    b"3800 H slip 0 7D0518B1FE810D8001000000000102410747454D4C494E45410131057D0505050505050505050505050518\
    B1FE810D8001000000000102410747454D4C494E45410131057D0518B1FE810D8001000000000102410747454D4C494E4541\
    0131057D0518B1FE810D8001000000000102410747454D4C494E45410131057D0518B1\n";

/// Whether a run ends at the slip, and its trace with it.
fn ends_at_the_slip(alloc: Global, line: LinePlan) -> bool {
    match (plans(alloc, line, line), MemSink::new(alloc, 10_000)) {
        (Some(plans), Ok(mut out)) => {
            end_of_run(alloc, &plans, SLIPPED, &mut out) == Some((RunEnd::Slip, None))
                && out.bytes().ends_with(SLIP)
        }
        _ => false,
    }
}

#[test]
fn a_slip_ends_the_trace(rt: HostRuntime) {
    assert!(rt; ends_at_the_slip(rt.alloc(), line(0x31FE, 200, 31)));
}

/// The host is of another device, so that no block is one for it.
static FOREIGN: Case<'static> = (
    b"settle",
    RunEnd::Whole,
    Some((Phase::Idle, Some(45_000), Phase::Idle, None)),
    "0 E start len=0 base=0\n\
        0 H start\n\
        0 E comms WAIT-CRA\n\
        0 E sent S1F13 W 00000000 0102410747454D4C494E45410131\n\
        0 E tx 05\n\
        0 H tx 04\n\
        0 E tx 188000810D8001000000000102410747454D4C494E45410131044E\n\
        0 H foreign 8000810D800100000000\n\
        0 H tx 06\n\
        0 end\n",
);

#[test]
fn ends_of_two_lines(rt: HostRuntime) {
    let equipment = line(0, 10_000, 3);
    assert!(rt; goes(rt.alloc(), equipment, line(1, 10_000, 3), 10_000, &FOREIGN));
}

/// The host takes shorter messages than the equipment, so that a reply which goes out is too long for it: its question
/// ends as when no reply comes.
const ASKS_FOR_MANY: &[u8] = b"settle\n\
        host send S1F11 W <L <U1 1> <U1 2> <U1 3> <U1 4> <U1 5> <U1 6> <U1 7> \
        <U1 8> <U1 9> <U1 10> <U1 11> <U1 12> <U1 13> <U1 14> \
        <U1 15> <U1 16> <U1 17> <U1 18> <U1 19> <U1 20> <U1 21>>\n\
        settle";

/// Behind the first message.
const TOO_LONG: &str =
    "0 H sent S1F11 W 00000000 0115A50101A50102A50103A50104A50105A50106A50107A50108A50109A5010AA5010BA5\
        010CA5010DA5010EA5010FA50110A50111A50112A50113A50114A50115\n\
        0 H tx 05\n\
        0 E tx 04\n\
        0 H tx 4B0000810B8001000000000115A50101A50102A50103A50104A50105A50106A50107A50108A50109A5010AA5010\
        BA5010CA5010DA5010EA5010FA50110A50111A50112A50113A50114A501150FA8\n\
        0 E rx S1F11 W 00000000 0115A50101A50102A50103A50104A50105A50106A50107A50108A50109A5010AA5010BA501\
        0CA5010DA5010EA5010FA50110A50111A50112A50113A50114A50115\n\
        0 E sent S1F12 00000000 01150103B10400000001410041000103B10400000002410041000103B10400000003410041\
        000103B10400000004410041000103B10400000005410041000103B10400000006410041000103B1040000000741004100\
        0103B10400000008410041000103B10400000009410041000103B1040000000A410041000103B1040000000B4100410001\
        03B1040000000C410041000103B1040000000D410041000103B1040000000E410041000103B1040000000F410041000103\
        B10400000010410041000103B10400000011410041000103B10400000012410041000103B10400000013410041000103B1\
        0400000014410041000103B1040000001541004100\n\
        0 E tx 0605\n\
        0 H tx 04\n\
        0 E tx FE8000010C00010000000001150103B10400000001410041000103B10400000002410041000103B104000000034\
        10041000103B10400000004410041000103B10400000005410041000103B10400000006410041000103B10400000007410\
        041000103B10400000008410041000103B10400000009410041000103B1040000000A410041000103B1040000000B41004\
        1000103B1040000000C410041000103B1040000000D410041000103B1040000000E410041000103B1040000000F4100410\
        00103B10400000010410041000103B10400000011410041000103B10400000012410041000103B10400000013410041000\
        103B104000000144100410001031A16\n\
        0 H tx 06\n\
        0 E tx 05\n\
        0 H tx 04\n\
        0 E tx 148000010C800200000000B1040000001541004100025B\n\
        0 H toolong 8000010C800200000000\n\
        0 H t3 S1F11 W 00000000\n\
        0 H tx 06\n\
        0 end\n";

#[test]
fn a_reply_is_too_long_for_the_host(rt: HostRuntime) -> Result<(), Fail> {
    let equipment = line(0, 10_000, 3);
    let mut host = equipment;
    host.max_body = 244;
    let trace = behind_first(rt.alloc(), TOO_LONG)?;
    let case = (ASKS_FOR_MANY, RunEnd::Whole, BOTH_IDLE, trace.as_str());
    assert!(rt; goes(rt.alloc(), equipment, host, 10_000, &case));
    Ok(())
}

/// Nothing has gone out where there is no room.
static NO_ROOM: Case<'static> = (b"settle", RunEnd::WriteFailed, None, "");

#[test]
fn a_sink_without_room_ends_the_run(rt: HostRuntime) {
    let line = line(0, 10_000, 3);
    assert!(rt; goes(rt.alloc(), line, line, 10, &NO_ROOM));
}

/// A tool with one variable and one event, whose messages are spooled where the host is away.
fn made_plans(alloc: Global) -> Option<Plans> {
    let line = line(0, 10_000, 3);
    let mut plans = plans(alloc, line, line)?;
    let variable = VariablePlan {
        vid: 1,
        name: Row::new(alloc),
        units: Row::new(alloc),
        value: Item::number(alloc, 0).ok()?,
    };
    plans.equipment.vars.variables.push(variable).ok()?;
    plans.equipment.events.push(1).ok()?;
    let names: [(u8, u8); 3] = [(5, 1), (6, 11), (10, 1)];
    for (stream, function) in names {
        let entry = RuleEntry {
            stream,
            functions: Row::of(alloc, &[function]).ok()?,
        };
        plans.equipment.spooled.push(entry).ok()?;
    }
    Some(plans)
}

/// Whether so many rounds are made so, into a sink with so much room.
fn makes(alloc: Global, rounds: u32, room: usize, end: RunEnd, summary: &[u8]) -> bool {
    match (made_plans(alloc), MemSink::new(alloc, room)) {
        (Some(plans), Ok(mut out)) => {
            plans.fits() && make(alloc, &plans, rounds, &mut out) == end && out.bytes() == summary
        }
        _ => false,
    }
}

/// The report of the only round is lost with the power.
#[test]
fn a_round_loses_power(rt: HostRuntime) {
    let summary = b"rounds 1\nrx E 8 H 8\nreports 0\nstored 0\ngone 0\nstarts 2\n";
    assert!(rt; makes(rt.alloc(), 1, 1_000, RunEnd::Whole, summary));
}

/// A character is lost, and goes out once more.
#[test]
fn two_rounds_report(rt: HostRuntime) {
    let summary = b"rounds 2\nrx E 6 H 6\nreports 2\nstored 0\ngone 0\nstarts 1\n";
    assert!(rt; makes(rt.alloc(), 2, 1_000, RunEnd::Whole, summary));
    assert!(rt; makes(rt.alloc(), 2, 10, RunEnd::WriteFailed, b""));
}
