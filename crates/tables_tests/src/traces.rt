//! How S2F23 is answered, which of several refusals comes first, and which S6F1 the steps behind it bring.

use gem_trace::{Tiaack, TraceRequest, Traces};
use gem_vars::{VariablePlan, Vars, VarsPlan};
use gl_base::{NoMemory, Row};
use secs_items::{Item, encode_into};
use std::alloc::Global;
use std::test::Fail;

// Variable 1 alone, the number 7.
fn planned(alloc: Global) -> Result<VarsPlan, NoMemory> {
    let mut variables = Row::new(alloc);
    variables.push(VariablePlan {
        vid: 1,
        name: Row::new(alloc),
        units: Row::new(alloc),
        value: Item::number(alloc, 7)?,
    })?;
    Ok(VarsPlan {
        variables,
        constants: Row::new(alloc),
        built_in: [10, 1, 1, 0],
    })
}

fn vars_of(alloc: Global, plan: Result<VarsPlan, NoMemory>) -> Option<Vars> {
    let plan = plan.ok()?;
    if !plan.fits() {
        return None;
    }
    Vars::new(alloc, &plan).ok()
}

// What is asked for: TRID, DSPER, total, group, and so many times one SVID.
type Asked<'a> = (u32, &'a [u8], u32, u32, (u32, usize));

fn request(alloc: Global, asked: &Asked<'_>) -> Result<TraceRequest, NoMemory> {
    let mut svids = Row::new(alloc);
    for _ in 0..asked.4.1 {
        svids.push(asked.4.0)?;
    }
    Ok(TraceRequest {
        trid: asked.0,
        dsper: Row::of(alloc, asked.1)?,
        total: asked.2,
        group: asked.3,
        svids,
    })
}

/// A call, with its answer.
#[derive(Clone, Copy)]
enum Step<'a> {
    /// S2F23 at a moment.
    Set(u32, Asked<'a>, Tiaack),
    /// The tool sets variable 1.
    Value(u32),
    /// The samples at a moment, with the bytes of the S6F1 that are due, one after another.
    Sample(u32, &'a [u8]),
    /// When the next sample is due.
    Due(Option<u64>),
}

fn sets(
    alloc: Global,
    traces: &mut Traces,
    vars: &Vars,
    now: u32,
    asked: &Asked<'_>,
    answer: Tiaack,
) -> bool {
    match request(alloc, asked) {
        Ok(request) => match traces.set(alloc, vars, &request, u64::from(now)) {
            Ok(tiaack) => tiaack == answer,
            Err(NoMemory) => false,
        },
        Err(NoMemory) => false,
    }
}

fn holds(alloc: Global, vars: &mut Vars, value: u32) -> bool {
    match Item::number(alloc, value) {
        Ok(item) => vars.set(alloc, 1, &item).is_ok(),
        Err(NoMemory) => false,
    }
}

fn are_spelled(alloc: Global, bodies: &[Item], bytes: &[u8]) -> bool {
    let mut spelling = Row::new(alloc);
    for body in bodies {
        if encode_into(body, &mut spelling).is_err() {
            return false;
        }
    }
    spelling.as_slice() == bytes
}

fn brings(alloc: Global, traces: &mut Traces, vars: &Vars, now: u32, bytes: &[u8]) -> bool {
    match traces.sample(alloc, vars, u64::from(now)) {
        Ok(bodies) => are_spelled(alloc, bodies.as_slice(), bytes),
        Err(NoMemory) => false,
    }
}

// Whether the step goes so.
fn goes(alloc: Global, traces: &mut Traces, vars: &mut Vars, step: &Step<'_>) -> bool {
    match step {
        Step::Set(now, asked, answer) => sets(alloc, traces, vars, *now, asked, *answer),
        Step::Value(value) => holds(alloc, vars, *value),
        Step::Sample(now, bytes) => brings(alloc, traces, vars, *now, bytes),
        Step::Due(due) => traces.deadline() == *due,
    }
}

// The place of the first step that doesn't go so.
fn first_wrong(alloc: Global, steps: &[Step<'_>]) -> Option<usize> {
    let mut vars = vars_of(alloc, planned(alloc))?;
    let mut traces = Traces::new(alloc);
    for (at, step) in steps.iter().enumerate() {
        if !goes(alloc, &mut traces, &mut vars, step) {
            return Some(at);
        }
    }
    Some(steps.len())
}

#[test]
fn the_first_refusal_decides(rt: HostRuntime) -> Result<(), Fail> {
    let steps = [
        Step::Due(None),
        Step::Set(0, (1, b"", 0, 0, (99, 300)), Tiaack::Done),
        Step::Set(0, (1, b"000060", 2, 3, (99, 300)), Tiaack::BadPeriod),
        Step::Set(0, (1, b"000001", 16, 16, (99, 257)), Tiaack::BadGroup),
        Step::Set(0, (1, b"000001", 1, 1, (99, 257)), Tiaack::TooMany),
        Step::Set(0, (1, b"000001", 2, 2, (99, 256)), Tiaack::Unknown(99)),
        Step::Sample(9_000, b""),
        Step::Due(None),
    ];
    assert!(rt; first_wrong(rt.alloc(), &steps) == Some(steps.len()));
    Ok(())
}

#[test]
fn groups_are_taken_up_to_their_limits(rt: HostRuntime) -> Result<(), Fail> {
    let steps = [
        Step::Set(0, (1, b"000001", 2, 3, (1, 1)), Tiaack::BadGroup),
        Step::Set(0, (1, b"000001", 2, 0, (1, 1)), Tiaack::BadGroup),
        Step::Set(0, (1, b"000001", 4_097, 4_097, (1, 1)), Tiaack::BadGroup),
        Step::Set(
            0,
            (1, b"000001", u32::MAX, u32::MAX, (1, 256)),
            Tiaack::BadGroup,
        ),
        Step::Due(None),
        Step::Set(0, (1, b"000001", 16, 16, (1, 256)), Tiaack::Done),
        Step::Set(0, (2, b"000001", 4_096, 4_096, (1, 1)), Tiaack::Done),
        Step::Set(0, (3, b"000001", u32::MAX, u32::MAX, (1, 0)), Tiaack::Done),
    ];
    assert!(rt; first_wrong(rt.alloc(), &steps) == Some(steps.len()));
    Ok(())
}

#[test]
fn six_digits_are_hours_minutes_and_seconds(rt: HostRuntime) -> Result<(), Fail> {
    let steps = [
        Step::Set(0, (1, b"000060", 2, 2, (1, 1)), Tiaack::BadPeriod),
        Step::Set(0, (1, b"006000", 2, 2, (1, 1)), Tiaack::BadPeriod),
        Step::Set(0, (1, b"000000", 2, 2, (1, 1)), Tiaack::BadPeriod),
        Step::Set(0, (1, b"00000:", 2, 2, (1, 1)), Tiaack::BadPeriod),
        Step::Set(50, (1, b"995959", 2, 2, (1, 1)), Tiaack::Done),
        Step::Due(Some(359_999_050)),
        Step::Set(50, (1, b"010203", 2, 2, (1, 1)), Tiaack::Done),
        Step::Due(Some(3_723_050)),
    ];
    assert!(rt; first_wrong(rt.alloc(), &steps) == Some(steps.len()));
    Ok(())
}

#[test]
fn eight_digits_have_hundredths_too(rt: HostRuntime) -> Result<(), Fail> {
    let steps = [
        Step::Set(0, (1, b"00000009", 2, 2, (1, 1)), Tiaack::BadPeriod),
        Step::Set(0, (1, b"00006000", 2, 2, (1, 1)), Tiaack::BadPeriod),
        Step::Set(0, (1, b"0000100", 2, 2, (1, 1)), Tiaack::BadPeriod),
        Step::Set(0, (1, b"000001000", 2, 2, (1, 1)), Tiaack::BadPeriod),
        Step::Set(50, (1, b"99595999", 2, 2, (1, 1)), Tiaack::Done),
        Step::Due(Some(360_000_040)),
        Step::Set(50, (1, b"00000010", 2, 2, (1, 1)), Tiaack::Done),
        Step::Due(Some(150)),
    ];
    assert!(rt; first_wrong(rt.alloc(), &steps) == Some(steps.len()));
    Ok(())
}

// TRID 1, SMPLN 2, no STIME, and 7 and 9.
const SEVEN_AND_NINE: [u8; 30] = [
    0x01, 0x04, 0xB1, 0x04, 0x00, 0x00, 0x00, 0x01, 0xB1, 0x04, 0x00, 0x00, 0x00, 0x02, 0x41, 0x00,
    0x01, 0x02, 0xB1, 0x04, 0x00, 0x00, 0x00, 0x07, 0xB1, 0x04, 0x00, 0x00, 0x00, 0x09,
];

// TRID 1, SMPLN 3, and 9 alone.
const LAST_NINE: [u8; 24] = [
    0x01, 0x04, 0xB1, 0x04, 0x00, 0x00, 0x00, 0x01, 0xB1, 0x04, 0x00, 0x00, 0x00, 0x03, 0x41, 0x00,
    0x01, 0x01, 0xB1, 0x04, 0x00, 0x00, 0x00, 0x09,
];

// SMPLN 1 of TRID 2, and then of TRID 1, each without values.
const TWO_THEN_ONE: [u8; 36] = [
    0x01, 0x04, 0xB1, 0x04, 0x00, 0x00, 0x00, 0x02, 0xB1, 0x04, 0x00, 0x00, 0x00, 0x01, 0x41, 0x00,
    0x01, 0x00, 0x01, 0x04, 0xB1, 0x04, 0x00, 0x00, 0x00, 0x01, 0xB1, 0x04, 0x00, 0x00, 0x00, 0x01,
    0x41, 0x00, 0x01, 0x00,
];

#[test]
fn a_group_is_sent_with_its_last_sample(rt: HostRuntime) -> Result<(), Fail> {
    let steps = [
        Step::Set(0, (1, b"000001", 2, 2, (1, 1)), Tiaack::Done),
        Step::Sample(1_000, b""),
        Step::Value(9),
        Step::Sample(1_999, b""),
        Step::Due(Some(2_000)),
        Step::Sample(2_000, &SEVEN_AND_NINE),
        Step::Due(None),
        Step::Sample(9_000, b""),
    ];
    assert!(rt; first_wrong(rt.alloc(), &steps) == Some(steps.len()));
    Ok(())
}

#[test]
fn the_last_group_may_be_shorter(rt: HostRuntime) -> Result<(), Fail> {
    let steps = [
        Step::Set(0, (1, b"000001", 3, 2, (1, 1)), Tiaack::Done),
        Step::Sample(1_000, b""),
        Step::Value(9),
        Step::Sample(2_500, &SEVEN_AND_NINE),
        Step::Due(Some(3_500)),
        Step::Sample(3_499, b""),
        Step::Sample(3_500, &LAST_NINE),
        Step::Due(None),
    ];
    assert!(rt; first_wrong(rt.alloc(), &steps) == Some(steps.len()));
    Ok(())
}

#[test]
fn a_trace_set_anew_stands_last(rt: HostRuntime) -> Result<(), Fail> {
    let steps = [
        Step::Set(0, (1, b"000001", 1, 1, (1, 0)), Tiaack::Done),
        Step::Set(0, (2, b"00000010", 1, 1, (1, 0)), Tiaack::Done),
        Step::Set(0, (1, b"000001", 2, 3, (1, 0)), Tiaack::BadGroup),
        Step::Set(0, (1, b"00000020", 1, 1, (1, 0)), Tiaack::Done),
        Step::Sample(1_000, &TWO_THEN_ONE),
        Step::Due(None),
    ];
    assert!(rt; first_wrong(rt.alloc(), &steps) == Some(steps.len()));
    Ok(())
}

#[test]
fn a_total_of_0_ends_a_trace(rt: HostRuntime) -> Result<(), Fail> {
    let steps = [
        Step::Set(0, (1, b"000001", 2, 2, (1, 1)), Tiaack::Done),
        Step::Set(0, (2, b"000002", 2, 2, (1, 1)), Tiaack::Done),
        Step::Sample(1_000, b""),
        Step::Set(1_000, (1, b"", 0, 0, (99, 1)), Tiaack::Done),
        Step::Due(Some(2_000)),
        Step::Sample(2_000, b""),
        Step::Due(Some(4_000)),
    ];
    assert!(rt; first_wrong(rt.alloc(), &steps) == Some(steps.len()));
    Ok(())
}

// Whether 16 traces may run, of TRID 1 to 16.
fn sixteen_run(alloc: Global, traces: &mut Traces, vars: &Vars) -> bool {
    for trid in 1..17 {
        let asked: Asked<'_> = (trid, b"000001", 2, 2, (1, 1));
        if !sets(alloc, traces, vars, 0, &asked, Tiaack::Done) {
            return false;
        }
    }
    true
}

#[test]
fn beside_sixteen_one_may_be_set_anew(rt: HostRuntime) -> Result<(), Fail> {
    let mut vars = vars_of(rt.alloc(), planned(rt.alloc())).ok_or("plan")?;
    let mut traces = Traces::new(rt.alloc());
    let steps = [
        Step::Set(0, (17, b"000001", 2, 2, (1, 1)), Tiaack::NoMore),
        Step::Set(0, (17, b"000001", 2, 2, (99, 1)), Tiaack::Unknown(99)),
        Step::Set(0, (1, b"000002", 2, 2, (1, 1)), Tiaack::Done),
        Step::Set(0, (2, b"", 0, 0, (1, 0)), Tiaack::Done),
        Step::Set(0, (17, b"000001", 2, 2, (1, 1)), Tiaack::Done),
    ];
    assert!(rt; sixteen_run(rt.alloc(), &mut traces, &vars));
    for step in &steps {
        assert!(rt; goes(rt.alloc(), &mut traces, &mut vars, step));
    }
    Ok(())
}
