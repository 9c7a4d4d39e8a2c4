//! The lists of variables and constants that a host is answered, what is set in them, and which plans of them fit.

use crate::spelled::is_spelled;
use gem_vars::{ConstantPlan, Eac, Setting, VariablePlan, Vars, VarsPlan};
use gl_base::{NoMemory, Row};
use secs_items::Item;
use std::alloc::Global;
use std::test::Fail;

fn number(alloc: Global, n: u32) -> Result<Item, NoMemory> {
    Ok(Item::U4(Row::of(alloc, &[n])?))
}

fn bytes(alloc: Global, count: usize) -> Result<Item, NoMemory> {
    Ok(Item::B(Row::of(alloc, &[0; 4_094][..count.min(4_094)])?))
}

// Lists, each in the one before.
fn nested(alloc: Global, depth: usize) -> Result<Item, NoMemory> {
    let mut item = Item::L(Row::new(alloc));
    for _ in 1..depth {
        let mut row = Row::new(alloc);
        row.push(item)?;
        item = Item::L(row);
    }
    Ok(item)
}

fn variable(
    alloc: Global,
    vid: u32,
    name: &[u8],
    units: &[u8],
    value: Item,
) -> Result<VariablePlan, NoMemory> {
    Ok(VariablePlan {
        vid,
        name: Row::of(alloc, name)?,
        units: Row::of(alloc, units)?,
        value,
    })
}

// The ECID, minimum, maximum and value of a constant.
type Limits = (u32, u32, u32, u32);

fn constant(alloc: Global, limits: Limits) -> Result<ConstantPlan, NoMemory> {
    Ok(ConstantPlan {
        ecid: limits.0,
        name: Row::of(alloc, b"SPEED")?,
        units: Row::of(alloc, b"mm")?,
        min: limits.1,
        max: limits.2,
        value: limits.3,
    })
}

const DEFAULTS: [u32; 4] = [10, 1, 1, 0];

// Variable 1, a number without a name, variable 2, a list, and variable 3, bytes; constant 100.
fn planned(alloc: Global) -> Result<VarsPlan, NoMemory> {
    let mut variables = Row::new(alloc);
    variables.push(variable(alloc, 1, b"", b"", number(alloc, 5)?)?)?;
    variables.push(variable(alloc, 2, b"LOT", b"", nested(alloc, 60)?)?)?;
    variables.push(variable(alloc, 3, b"MAP", b"%", bytes(alloc, 4_093)?)?)?;
    let mut constants = Row::new(alloc);
    constants.push(constant(alloc, (100, 1, 9, 3))?)?;
    Ok(VarsPlan {
        variables,
        constants,
        built_in: DEFAULTS,
    })
}

// The variables and constants of a plan that fits.
fn vars_of(alloc: Global, plan: Result<VarsPlan, NoMemory>) -> Option<Vars> {
    let plan = plan.ok()?;
    if !plan.fits() {
        return None;
    }
    Vars::new(alloc, &plan).ok()
}

// What the host asks for of each identifier.
enum Listing {
    StatusValues,
    StatusNames,
    ConstantValues,
    ConstantNames,
}

// Whether a list has this body, and is as long.
fn is_answered(alloc: Global, vars: &Vars, row: &(Listing, &[u32], &[u8])) -> bool {
    let (listing, ids, wanted) = row;
    let body = match listing {
        Listing::StatusValues => vars.status_values(alloc, ids),
        Listing::StatusNames => vars.status_names(alloc, ids),
        Listing::ConstantValues => vars.constant_values(alloc, ids),
        Listing::ConstantNames => vars.constant_names(alloc, ids),
    };
    let len = match listing {
        Listing::StatusValues => vars.status_values_len(ids),
        Listing::StatusNames => vars.status_names_len(ids),
        Listing::ConstantValues => vars.constant_values_len(ids),
        Listing::ConstantNames => vars.constant_names_len(ids),
    };
    is_spelled(alloc, body, wanted) && len == wanted.len()
}

fn are_answered(alloc: Global, vars: &Vars, rows: &[(Listing, &[u32], &[u8])]) -> bool {
    for row in rows {
        if !is_answered(alloc, vars, row) {
            return false;
        }
    }
    true
}

// Whether a setting is answered so.
fn is_set(
    alloc: Global,
    vars: &mut Vars,
    vid: u32,
    value: Result<Item, NoMemory>,
    wanted: Result<(), Setting>,
) -> bool {
    match (value, wanted) {
        (Ok(value), Ok(())) => vars.set(alloc, vid, &value).is_ok(),
        (Ok(value), Err(wanted)) => match vars.set(alloc, vid, &value) {
            Ok(()) => false,
            Err(refusal) => refusal == wanted,
        },
        (Err(NoMemory), _) => false,
    }
}

// Whether S2F15 is answered so, and constant 100 has then this value.
fn are_set(vars: &mut Vars, list: &[(u32, u32)], answer: Eac, value: u32) -> bool {
    vars.set_constants(list) == answer && vars.constant(100) == Some(value)
}

static WORKED: [(Listing, &[u32], &[u8]); 5] = [
    (
        Listing::StatusValues,
        &[1, 99],
        &[0x01, 0x02, 0xB1, 0x04, 0x00, 0x00, 0x00, 0x05, 0x01, 0x00],
    ),
    (
        Listing::StatusNames,
        &[1],
        &[
            0x01, 0x01, 0x01, 0x03, 0xB1, 0x04, 0x00, 0x00, 0x00, 0x01, 0x41, 0x00, 0x41, 0x00,
        ],
    ),
    (
        Listing::ConstantValues,
        &[1],
        &[0x01, 0x01, 0xB1, 0x04, 0x00, 0x00, 0x00, 0x0A],
    ),
    (
        Listing::ConstantNames,
        &[555],
        &[
            0x01, 0x01, 0x01, 0x06, 0xB1, 0x04, 0x00, 0x00, 0x02, 0x2B, 0x41, 0x00, 0x41, 0x00,
            0x41, 0x00, 0x41, 0x00, 0x41, 0x00,
        ],
    ),
    (
        Listing::ConstantNames,
        &[100],
        &[
            0x01, 0x01, 0x01, 0x06, 0xB1, 0x04, 0x00, 0x00, 0x00, 0x64, 0x41, 0x05, 0x53, 0x50,
            0x45, 0x45, 0x44, 0xB1, 0x04, 0x00, 0x00, 0x00, 0x01, 0xB1, 0x04, 0x00, 0x00, 0x00,
            0x09, 0xB1, 0x04, 0x00, 0x00, 0x00, 0x03, 0x41, 0x02, 0x6D, 0x6D,
        ],
    ),
];

#[test]
fn lists_are_answered(rt: HostRuntime) -> Result<(), Fail> {
    let vars = vars_of(rt.alloc(), planned(rt.alloc())).ok_or("no plan")?;
    assert!(rt; are_answered(rt.alloc(), &vars, &WORKED));
    Ok(())
}

static ALL: [(Listing, &[u32], &[u8]); 2] = [
    (
        Listing::ConstantValues,
        &[],
        &[
            0x01, 0x05, 0xB1, 0x04, 0x00, 0x00, 0x00, 0x0A, 0xB1, 0x04, 0x00, 0x00, 0x00, 0x01,
            0xB1, 0x04, 0x00, 0x00, 0x00, 0x01, 0xB1, 0x04, 0x00, 0x00, 0x00, 0x00, 0xB1, 0x04,
            0x00, 0x00, 0x00, 0x03,
        ],
    ),
    (
        Listing::StatusNames,
        &[],
        &[
            0x01, 0x03, 0x01, 0x03, 0xB1, 0x04, 0x00, 0x00, 0x00, 0x01, 0x41, 0x00, 0x41, 0x00,
            0x01, 0x03, 0xB1, 0x04, 0x00, 0x00, 0x00, 0x02, 0x41, 0x03, 0x4C, 0x4F, 0x54, 0x41,
            0x00, 0x01, 0x03, 0xB1, 0x04, 0x00, 0x00, 0x00, 0x03, 0x41, 0x03, 0x4D, 0x41, 0x50,
            0x41, 0x01, 0x25,
        ],
    ),
];

#[test]
fn all_are_listed_as_planned(rt: HostRuntime) -> Result<(), Fail> {
    let vars = vars_of(rt.alloc(), planned(rt.alloc())).ok_or("no plan")?;
    assert!(rt; are_answered(rt.alloc(), &vars, &ALL));
    Ok(())
}

// Whether a variable has this number.
fn has_number(vars: &Vars, vid: u32, wanted: u32) -> bool {
    match vars.value(vid) {
        Some(Item::U4(numbers)) => numbers.as_slice() == [wanted].as_slice(),
        _ => false,
    }
}

#[test]
fn settings_are_refused_in_their_order(rt: HostRuntime) -> Result<(), Fail> {
    let alloc = rt.alloc();
    let mut vars = vars_of(alloc, planned(alloc)).ok_or("no plan")?;
    assert!(rt;
        is_set(
            alloc,
            &mut vars,
            99,
            nested(alloc, 61),
            Err(Setting::Unknown(99))
        )
    );
    assert!(rt;
        is_set(
            alloc,
            &mut vars,
            1,
            nested(alloc, 61),
            Err(Setting::Kind(1))
        )
    );
    assert!(rt;
        is_set(
            alloc,
            &mut vars,
            2,
            nested(alloc, 61),
            Err(Setting::TooLong(2))
        )
    );
    assert!(rt;
        is_set(
            alloc,
            &mut vars,
            3,
            bytes(alloc, 4_094),
            Err(Setting::TooLong(3))
        )
    );
    assert!(rt; is_set(alloc, &mut vars, 1, number(alloc, 7), Ok(())));
    assert!(rt; has_number(&vars, 1, 7) && vars.value(99).is_none());
    Ok(())
}

#[test]
fn the_first_bad_entry_decides(rt: HostRuntime) -> Result<(), Fail> {
    let mut vars = vars_of(rt.alloc(), planned(rt.alloc())).ok_or("no plan")?;
    assert!(rt; are_set(&mut vars, &[(100, 5), (555, 1)], Eac::Unknown(555), 3));
    assert!(rt;
        are_set(
            &mut vars,
            &[(100, 5), (1, 0), (555, 1)],
            Eac::OutOfRange(1),
            3
        )
    );
    assert!(rt; are_set(&mut vars, &[(100, 10)], Eac::OutOfRange(100), 3));
    assert!(rt; are_set(&mut vars, &[(100, 5), (2, 0), (100, 9)], Eac::Done, 9));
    assert!(rt; vars.constant(2) == Some(0) && vars.constant(555).is_none());
    Ok(())
}

// A plan of these variables and constants.
fn plan_of(
    alloc: Global,
    vids: &[u32],
    limits: &[Limits],
    built_in: [u32; 4],
) -> Result<VarsPlan, NoMemory> {
    let mut variables = Row::new(alloc);
    for vid in vids {
        variables.push(variable(alloc, *vid, b"", b"", number(alloc, 0)?)?)?;
    }
    let mut constants = Row::new(alloc);
    for limits in limits {
        constants.push(constant(alloc, *limits)?)?;
    }
    Ok(VarsPlan {
        variables,
        constants,
        built_in,
    })
}

fn fits(alloc: Global, vids: &[u32], limits: &[Limits], built_in: [u32; 4]) -> bool {
    match plan_of(alloc, vids, limits, built_in) {
        Ok(plan) => plan.fits(),
        Err(NoMemory) => false,
    }
}

#[test]
fn plans_fit_within_their_ranges(rt: HostRuntime) -> Result<(), Fail> {
    let alloc = rt.alloc();
    assert!(rt;
        fits(
            alloc,
            &[1, 2],
            &[(100, 0, u32::MAX, 7)],
            [120, 0, 1, u32::MAX]
        )
    );
    assert!(rt; !fits(alloc, &[1, 2, 1], &[], DEFAULTS));
    assert!(rt; !fits(alloc, &[1], &[(99, 0, 9, 3)], DEFAULTS));
    assert!(rt; !fits(alloc, &[1], &[(100, 5, 4, 5)], DEFAULTS));
    assert!(rt; !fits(alloc, &[1], &[(100, 0, 9, 3), (100, 0, 9, 3)], DEFAULTS));
    assert!(rt; !fits(alloc, &[], &[], [121, 0, 0, 0]) && !fits(alloc, &[], &[], [0, 0, 0, 0]));
    assert!(rt; !fits(alloc, &[], &[], [1, 2, 0, 0]) && !fits(alloc, &[], &[], [1, 0, 2, 0]));
    Ok(())
}
