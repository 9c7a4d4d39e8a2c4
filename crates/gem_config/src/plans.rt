//! A whole plan file.

ghost use Rattle.std.specs.Prelude.{◌≡◌, ◌≢◌, [], false};
ghost use Rattle.gem_config.specs.declared.fault.ConfigFault.TheVariants as faults;
ghost use Rattle.gem_config.specs.declared.fault.ConfigWhat.TheVariants as syntax;
ghost use Rattle.gem_config.specs.Plans.{IsReadAs, built_in_of, host_enable_in, line_in, plans_from, plans_of, tables_of, tool_in};
ghost use Rattle.gem_config.specs.Reading.{Gives};
ghost use Rattle.toml.specs.View.{table_view};

use crate::fault::{ConfigFault, ConfigWhat};
use crate::rows::{commands, refusal, rows, section};
use crate::sections::{Constants, ToolSection, host_enable_of, line_of, tool_of, worth};
use crate::unknown::least_other;
use equipment_tables::{EquipmentPlan, HostPlan, Plans};
use gem_alarms::AlarmPlan;
use gem_remote::{CommandPlan, RemotePlan};
use gem_vars::{ConstantPlan, VariablePlan, VarsPlan};
use gl_base::Row;
use line_end::LinePlan;
use std::alloc::Global;
use toml::Table;

// The most elements of the sections.
const MOST_VARIABLES: usize = 1_024;

const MOST_CONSTANTS: usize = 256;

const MOST_EVENTS: usize = 1_024;

const MOST_ALARMS: usize = 1_024;

const MOST_COMMANDS: usize = 256;

// The least ECID of a constant that isn't every equipment's.
const FIRST_ECID: u32 = 100;

/// What the sections that are arrays say.
#[derive(Drop)]
pub(crate) struct Tables {
    pub(crate) variables: Row<VariablePlan>,
    pub(crate) constants: Row<ConstantPlan>,
    pub(crate) events: Row<u32>,
    pub(crate) alarms: Row<AlarmPlan>,
    pub(crate) commands: Row<CommandPlan>,
}

/// The plans of both ends that a plan file means. A refusal is the first in the order of the key table; where memory
/// runs out nothing is said of the file.
pub fn read_plans(alloc: Global, text: &[u8]) -> Result<Plans, ConfigFault>
    ensures { IsReadAs text.now result }
{
    let Ok(text) = std::str::from_utf8(text) else {
        return Err(refusal(alloc, "", ConfigWhat::Syntax));
    };
    match toml::table_from_str(alloc, text) {
        Ok(document) => plans_of(alloc, &document),
        Err(fault) => Err(not_toml(alloc, fault.is_memory())),
    }
}

/// The refusal of a text that is no TOML, unless memory ran out.
fn not_toml(alloc: Global, is_memory: bool) -> ConfigFault
    ensures { result ≢ faults.NoMemory → (is_memory ≡ false) × (result ≡ faults.Key [] syntax.Syntax) }
{
    if is_memory {
        return ConfigFault::NoMemory;
    }
    refusal(alloc, "", ConfigWhat::Syntax)
}

#[tactic(auto, unfolding(crate::specs::Plans::plans_of))]
fn plans_of(alloc: Global, document: &Table) -> Result<Plans, ConfigFault>
    ensures { Gives result (plans_of (table_view document.now)) }
{
    let line = line_in(alloc, document)?;
    let tool = tool_in(alloc, document)?;
    let tables = tables_of(alloc, document)?;
    let enable = host_enable_in(alloc, document)?;
    if let Some(key) = least_other(alloc, document)? {
        return Err(ConfigFault::Key {
            key,
            what: ConfigWhat::Unknown,
        });
    }
    Ok(plans_from(line, tool, tables, enable))
}

fn line_in(alloc: Global, document: &Table) -> Result<LinePlan, ConfigFault>
    ensures { Gives result (line_in (table_view document.now)) }
{
    let empty = Table::new(alloc);
    line_of(&section(alloc, document, "line", &empty)?)
}

fn tool_in(alloc: Global, document: &Table) -> Result<ToolSection, ConfigFault>
    ensures { Gives result (tool_in (table_view document.now)) }
{
    let empty = Table::new(alloc);
    tool_of(&section(alloc, document, "equipment", &empty)?)
}

fn host_enable_in(alloc: Global, document: &Table) -> Result<bool, ConfigFault>
    ensures { Gives result (host_enable_in (table_view document.now)) }
{
    let empty = Table::new(alloc);
    host_enable_of(&section(alloc, document, "host", &empty)?)
}

#[tactic(auto, unfolding(crate::specs::Plans::tables_of))]
fn tables_of(alloc: Global, document: &Table) -> Result<Tables, ConfigFault>
    ensures { Gives result (tables_of (table_view document.now)) }
{
    let variables = rows(alloc, document, "variable", MOST_VARIABLES, "vid", 0)?;
    let constants = rows(
        alloc,
        document,
        "constant",
        MOST_CONSTANTS,
        "ecid",
        FIRST_ECID,
    )?;
    let events = rows(alloc, document, "event", MOST_EVENTS, "ceid", 0)?;
    let alarms = rows(alloc, document, "alarm", MOST_ALARMS, "alid", 0)?;
    let commands = commands(alloc, document, "command", MOST_COMMANDS)?;
    Ok(Tables {
        variables,
        constants,
        events,
        alarms,
        commands,
    })
}

fn plans_from(line: LinePlan, tool: ToolSection, tables: Tables, enable: bool) -> Plans
    ensures { result ≡ plans_from line tool tables enable }
{
    let ToolSection {
        identity,
        constants,
        spooled,
        terminals,
    } = tool;
    let slots = constants.slots;
    let built_in = built_in_of(constants);
    Plans {
        slots,
        equipment: EquipmentPlan {
            line,
            mdln: identity.mdln,
            softrev: identity.softrev,
            enable: identity.enable,
            control: identity.control,
            spooled,
            vars: VarsPlan {
                variables: tables.variables,
                constants: tables.constants,
                built_in,
            },
            events: tables.events,
            alarms: tables.alarms,
            remote: RemotePlan {
                commands: tables.commands,
                terminals,
            },
        },
        host: HostPlan { line, enable },
    }
}

/// The values of the constants that every equipment has, by their ECIDs from 1.
fn built_in_of(constants: Constants) -> [u32; 4]
    ensures { result ≡ built_in_of constants }
{
    let enable_spool = worth(constants.enable_spool);
    let overwrite = worth(constants.overwrite);
    [
        constants.delay,
        enable_spool,
        overwrite,
        constants.max_transmit,
    ]
}
