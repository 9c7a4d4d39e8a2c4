//! The tool of the tests.

ghost use Rattle.std.specs.Prelude.{◌≡◌, true};

use crate::played_host::nothing_yet;
use disk_base::MemDisk;
use equipment_node::Equipment;
use equipment_tables::EquipmentPlan;
use gem_alarms::AlarmPlan;
use gem_recipes::RecipeKeeper;
use gem_remote::{CommandPlan, ParamPlan, RemotePlan};
use gem_shapes::RuleEntry;
use gem_spool::GemSpool;
use gem_states::ControlState;
use gem_vars::{VariablePlan, VarsPlan};
use gl_base::Row;
use line_end::{LinePlan, Times};
use message_flow::StepOut;
use secs_items::{Item, Kind};
use spool_file::area_end;
use spool_slots::Raw;
use std::alloc::Global;

fn copied(alloc: Global, text: &[u8]) -> Option<Row<u8>> {
    Row::of(alloc, text).ok()
}

/// HOST OFF-LINE, with variable 1, event 1, alarm 7 and the command START; alarms are spooled.
fn plan(alloc: Global) -> Option<EquipmentPlan> {
    let mut variables = Row::new(alloc);
    variables
        .push(VariablePlan {
            vid: 1,
            name: Row::new(alloc),
            units: Row::new(alloc),
            value: Item::number(alloc, 0).ok()?,
        })
        .ok()?;
    let mut alarms = Row::new(alloc);
    alarms
        .push(AlarmPlan {
            alid: 7,
            category: 3,
            text: copied(alloc, b"PRESSURE")?,
            enabled: true,
        })
        .ok()?;
    let mut params = Row::new(alloc);
    params
        .push(ParamPlan {
            name: copied(alloc, b"SPEED")?,
            kind: Kind::U4,
            values: Row::new(alloc),
        })
        .ok()?;
    let mut commands = Row::new(alloc);
    commands
        .push(CommandPlan {
            name: copied(alloc, b"START")?,
            later: false,
            params,
        })
        .ok()?;
    let mut spooled = Row::new(alloc);
    spooled
        .push(RuleEntry {
            stream: 5,
            functions: Row::of(alloc, &[1]).ok()?,
        })
        .ok()?;
    Some(EquipmentPlan {
        line: LinePlan {
            device: 0,
            times: Times {
                t1: 500,
                t2: 10_000,
                rty: 3,
            },
            t3: 45_000,
            t4: 45_000,
            max_body: 400,
        },
        mdln: copied(alloc, b"GEMLINE")?,
        softrev: copied(alloc, b"1")?,
        enable: true,
        control: ControlState::HostOffline,
        spooled,
        vars: VarsPlan {
            variables,
            constants: Row::new(alloc),
            built_in: [10, 1, 1, 0],
        },
        events: Row::of(alloc, &[1]).ok()?,
        alarms,
        remote: RemotePlan {
            commands,
            terminals: 1,
        },
    })
}

/// A spool of so many slots.
pub(crate) fn formatted(alloc: Global, slots: u32) -> Option<GemSpool<MemDisk>> {
    let Ok(disk) = MemDisk::new(alloc, area_end(slots), 4_096, 1 << 20) else {
        return None;
    };
    match Raw::new(disk).format(slots) {
        Ok(spool) => Some(GemSpool::new(spool)),
        Err(_) => None,
    }
}

/// A start of it with a keeper of recipes, and what that notes.
pub(crate) fn starts<K: RecipeKeeper + Drop>(
    alloc: Global,
    raw: Raw<MemDisk>,
    keeper: K,
) -> Option<(Equipment<MemDisk, K>, StepOut)>
    requires { K.offers_is keeper ≡ true → K.sound keeper }
{
    let plan = plan(alloc)?;
    if !plan.fits() {
        return None;
    }
    let mut out = nothing_yet(alloc);
    match Equipment::start(alloc, &plan, raw, keeper, 0, &mut out) {
        Ok(equipment) => Some((equipment, out)),
        Err(_) => None,
    }
}
