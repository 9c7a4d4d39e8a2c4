//! Alarms as they are set, enabled and listed, and which plans of them fit.

use crate::spelled::is_spelled;
use gem_alarms::{Ackc5, AlarmPlan, AlarmStep, Alarms};
use gl_base::{NoMemory, Row};
use std::alloc::Global;
use std::test::Fail;

fn planned(
    alloc: Global,
    alid: u32,
    category: u8,
    text: &[u8],
    enabled: bool,
) -> Result<AlarmPlan, NoMemory> {
    Ok(AlarmPlan {
        alid,
        category,
        text: Row::of(alloc, text)?,
        enabled,
    })
}

// An alarm that isn't enabled at first.
const OTHER: u32 = 4_294_967_295;

// Alarm 7, enabled, and the other, which isn't.
fn two(alloc: Global) -> Result<Row<AlarmPlan>, NoMemory> {
    let mut plan = Row::new(alloc);
    plan.push(planned(alloc, 7, 3, b"PRESSURE", true)?)?;
    plan.push(planned(alloc, OTHER, 127, b"", false)?)?;
    Ok(plan)
}

// The alarms of a plan that fits.
fn alarms_of(alloc: Global, plan: Result<Row<AlarmPlan>, NoMemory>) -> Option<Alarms> {
    let plan = plan.ok()?;
    if !AlarmPlan::all_fit(plan.as_slice()) {
        return None;
    }
    Alarms::new(alloc, plan.as_slice()).ok()
}

const PRESSURE_SET: [u8; 21] = [
    0x01, 0x03, 0x21, 0x01, 0x83, 0xB1, 0x04, 0x00, 0x00, 0x00, 0x07, 0x41, 0x08, 0x50, 0x52, 0x45,
    0x53, 0x53, 0x55, 0x52, 0x45,
];

// Whether the commands are answered so.
fn changes(alarms: &mut Alarms, steps: &[(u32, bool, AlarmStep)]) -> bool {
    for (alid, set, answer) in steps {
        if alarms.change(*alid, *set) != *answer {
            return false;
        }
    }
    true
}

// Whether the requests are answered so, and the list of enabled alarms is then so long.
fn enables(alarms: &mut Alarms, steps: &[(Option<u32>, bool, Ackc5, usize)]) -> bool {
    for (alid, on, answer, len) in steps {
        if alarms.enable(*alid, *on) != *answer || alarms.enabled_list_len() != *len {
            return false;
        }
    }
    true
}

#[test]
fn an_alarm_is_set_once(rt: HostRuntime) -> Result<(), Fail> {
    let mut alarms = alarms_of(rt.alloc(), two(rt.alloc())).ok_or("no plan")?;
    let first = [(7, true, AlarmStep::Changed { enabled: true })];
    let then = [
        (7, true, AlarmStep::Same),
        (9, true, AlarmStep::Unknown),
        (7, false, AlarmStep::Changed { enabled: true }),
        (OTHER, false, AlarmStep::Same),
        (OTHER, true, AlarmStep::Changed { enabled: false }),
    ];
    assert!(rt; changes(&mut alarms, &first));
    assert!(rt; is_spelled(rt.alloc(), alarms.body(rt.alloc(), 7), &PRESSURE_SET));
    assert!(rt; changes(&mut alarms, &then));
    Ok(())
}

#[test]
fn enables_one_or_all(rt: HostRuntime) -> Result<(), Fail> {
    let mut alarms = alarms_of(rt.alloc(), two(rt.alloc())).ok_or("no plan")?;
    let steps = [
        (Some(9), true, Ackc5::Unknown(9), 23),
        (Some(7), false, Ackc5::Done, 2),
        (None, true, Ackc5::Done, 36),
        (Some(OTHER), false, Ackc5::Done, 23),
    ];
    let set = [(7, true, AlarmStep::Changed { enabled: true })];
    let mut wanted = [0; 23];
    wanted[..2].copy_from_slice(&[0x01, 0x01]);
    wanted[2..].copy_from_slice(&PRESSURE_SET);
    assert!(rt; enables(&mut alarms, &steps) && changes(&mut alarms, &set));
    assert!(rt; is_spelled(rt.alloc(), alarms.enabled_list(rt.alloc()), &wanted));
    Ok(())
}

#[test]
fn lists_those_asked_for(rt: HostRuntime) -> Result<(), Fail> {
    let alarms = alarms_of(rt.alloc(), two(rt.alloc())).ok_or("no plan")?;
    let unknown = [
        0x01, 0x01, 0x01, 0x03, 0x21, 0x00, 0xB1, 0x04, 0x00, 0x00, 0x00, 0x09, 0x41, 0x00,
    ];
    let all = [
        0x01, 0x02, 0x01, 0x03, 0x21, 0x01, 0x03, 0xB1, 0x04, 0x00, 0x00, 0x00, 0x07, 0x41, 0x08,
        0x50, 0x52, 0x45, 0x53, 0x53, 0x55, 0x52, 0x45, 0x01, 0x03, 0x21, 0x01, 0x7F, 0xB1, 0x04,
        0xFF, 0xFF, 0xFF, 0xFF, 0x41, 0x00,
    ];
    assert!(rt; is_spelled(rt.alloc(), alarms.list(rt.alloc(), &[9]), &unknown));
    assert!(rt; is_spelled(rt.alloc(), alarms.list(rt.alloc(), &[]), &all));
    assert!(rt; is_spelled(rt.alloc(), alarms.list(rt.alloc(), &[7, OTHER]), &all));
    let lengths = [
        alarms.list_len(&[9]),
        alarms.list_len(&[]),
        alarms.list_len(&[7, OTHER]),
    ];
    assert!(rt; lengths == [14, 36, 36], "{lengths:?}");
    Ok(())
}

fn fits(plan: Result<AlarmPlan, NoMemory>) -> bool {
    plan.is_ok_and(|plan| plan.fits())
}

// A plan of the same alarm twice.
fn twice(alloc: Global) -> Result<Row<AlarmPlan>, NoMemory> {
    let mut plan = two(alloc)?;
    plan.push(planned(alloc, 7, 0, b"", true)?)?;
    Ok(plan)
}

#[test]
fn plans_fit_within_their_ranges(rt: HostRuntime) -> Result<(), Fail> {
    let alloc = rt.alloc();
    assert!(rt; fits(planned(alloc, 0, 127, &[0x7F; 40], true)));
    assert!(rt; !fits(planned(alloc, 0, 128, b"", true)));
    assert!(rt; !fits(planned(alloc, 0, 0, &[0x20; 41], true)));
    assert!(rt; !fits(planned(alloc, 0, 0, &[0x20, 0x80], true)));
    assert!(rt; alarms_of(alloc, twice(alloc)).is_none());
    Ok(())
}
