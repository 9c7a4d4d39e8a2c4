//! Words that a plan file has for control states, spooled primaries and kinds of items.

ghost use Rattle.std.specs.Prelude.{◌≡◌, IfOk};
ghost use Rattle.gem_config.specs.Words.{all_spooled, control_named, kind_named, spooled_named};
ghost use Rattle.equipment_tables.specs.Plan.{function_of};

use gem_shapes::RuleEntry;
use gem_states::ControlState;
use gl_base::{NoMemory, Row};
use secs_items::Kind;
use std::alloc::Global;

pub(crate) fn control_named(name: &str) -> Option<ControlState>
    ensures { result ≡ control_named name.now }
{
    Some(match name {
        "equipment-offline" => ControlState::EquipmentOffline,
        "host-offline" => ControlState::HostOffline,
        "local" => ControlState::Local,
        "remote" => ControlState::Remote,
        _ => return None,
    })
}

pub(crate) fn spooled_named(alloc: Global, name: &str) -> Result<Option<RuleEntry>, NoMemory>
    ensures { IfOk result (λ entry. entry ≡ spooled_named name.now) }
{
    let (stream, function) = match name {
        "S5F1" => (5, 1),
        "S6F11" => (6, 11),
        "S10F1" => (10, 1),
        _ => return Ok(None),
    };
    Ok(Some(function_of(alloc, stream, function)?))
}

/// All primaries that can be spooled.
pub(crate) fn all_spooled(alloc: Global) -> Result<Row<RuleEntry>, NoMemory>
    ensures { IfOk result (λ entries. entries ≡ all_spooled) }
{
    let mut entries = Row::new(alloc);
    entries.push(function_of(alloc, 5, 1)?)?;
    entries.push(function_of(alloc, 6, 11)?)?;
    entries.push(function_of(alloc, 10, 1)?)?;
    Ok(entries)
}

fn function_of(alloc: Global, stream: u8, function: u8) -> Result<RuleEntry, NoMemory>
    ensures { IfOk result (λ entry. entry ≡ function_of stream function) }
{
    Ok(RuleEntry {
        stream,
        functions: Row::of(alloc, &[function])?,
    })
}

pub(crate) fn kind_named(name: &str) -> Option<Kind>
    ensures { result ≡ kind_named name.now }
{
    Some(match name {
        "L" => Kind::L,
        "B" => Kind::B,
        "BOOLEAN" => Kind::Bool,
        "A" => Kind::A,
        "J" => Kind::J,
        "I1" => Kind::I1,
        "I2" => Kind::I2,
        "I4" => Kind::I4,
        "I8" => Kind::I8,
        "U1" => Kind::U1,
        "U2" => Kind::U2,
        "U4" => Kind::U4,
        "U8" => Kind::U8,
        "F4" => Kind::F4,
        "F8" => Kind::F8,
        _ => return None,
    })
}
