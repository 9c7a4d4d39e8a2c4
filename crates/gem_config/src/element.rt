//! What the elements of a plan file's arrays say, key by key.

ghost use Rattle.std.specs.Prelude.{◌≡◌, ℕ, []};
ghost use Rattle.std.specs.List.{list_any};
ghost use Rattle.gem_remote.specs.Plan.{has_name};
ghost use Rattle.gem_config.specs.Found.{found_view, section_view};
ghost use Rattle.gem_config.specs.Reading.{Gives, Read, SectionView, within};
ghost use Rattle.gem_config.specs.Sections.{alarm_of, command_of, constant_of, event_of, param, variable_of};
ghost use Rattle.gem_config.specs.Values.{item_text, list, needed, optional, word};
ghost use Rattle.gem_config.specs.Words.{kind_named};
ghost use Rattle.toml.specs.View.{table_view, view};

use crate::fault::{ConfigFault, ConfigWhat};
use crate::found::{Found, Section, member};
use crate::words::kind_named;
use gem_alarms::AlarmPlan;
use gem_remote::{CommandPlan, ParamPlan};
use gem_vars::{ConstantPlan, VariablePlan};
use gl_base::Row;
use secs_items::{Item, Kind};
use toml::{Table, Value};

/// What an element that has a number as its identifier is in the plan.
pub(crate) trait Element: Sized + Drop {
    /// What the element says behind its identifier.
    ghost row_of: { ℕ → SectionView → Read Self };

    fn row(id: u32, element: &Section<'_>) -> Result<Self, ConfigFault>
        ensures { Gives result (row_of id (section_view element.now)) };
}

impl Element for VariablePlan {
    ghost row_of = { variable_of };

    #[tactic(auto, unfolding(crate::specs::Sections::variable_of))]
    fn row(vid: u32, variable: &Section<'_>) -> Result<VariablePlan, ConfigFault> {
        let name = variable.at("name").text_or("")?;
        let units = variable.at("units").text_or("")?;
        let value = variable.at("value").value()?;
        Ok(VariablePlan {
            vid,
            name: Row::of(variable.alloc, name.as_bytes())?,
            units: Row::of(variable.alloc, units.as_bytes())?,
            value,
        })
    }
}

impl Element for ConstantPlan {
    ghost row_of = { constant_of };

    #[tactic(auto, unfolding(crate::specs::Sections::constant_of))]
    fn row(ecid: u32, constant: &Section<'_>) -> Result<ConstantPlan, ConfigFault> {
        let name = constant.at("name").text_or("")?;
        let units = constant.at("units").text_or("")?;
        let min = constant.at("min").number_or(0, u32::MAX, 0)?;
        let max = constant.at("max").number_or(0, u32::MAX, u32::MAX)?;
        let value = constant.at("value").number(min, max)?;
        Ok(ConstantPlan {
            ecid,
            name: Row::of(constant.alloc, name.as_bytes())?,
            units: Row::of(constant.alloc, units.as_bytes())?,
            min,
            max,
            value,
        })
    }
}

/// An event is its CEID.
impl Element for u32 {
    ghost row_of = { event_of };

    #[tactic(auto, unfolding(crate::specs::Sections::event_of))]
    fn row(ceid: u32, event: &Section<'_>) -> Result<u32, ConfigFault> {
        event.at("name").text_or("")?;
        Ok(ceid)
    }
}

impl Element for AlarmPlan {
    ghost row_of = { alarm_of };

    #[tactic(auto, unfolding(crate::specs::Sections::alarm_of))]
    fn row(alid: u32, alarm: &Section<'_>) -> Result<AlarmPlan, ConfigFault> {
        let category = alarm.at("category").number_or(0, 127, 0)? as u8;
        let text = alarm.at("text").short_text_or(40, "")?;
        let enabled = alarm.at("enabled").flag_or(true)?;
        Ok(AlarmPlan {
            alid,
            category,
            text: Row::of(alarm.alloc, text.as_bytes())?,
            enabled,
        })
    }
}

// ---- commands

/// The command that stands behind these.
#[tactic(auto, unfolding(crate::specs::Sections::command_of))]
pub(crate) fn command_of(
    before: &[CommandPlan],
    command: &Section<'_>,
) -> Result<CommandPlan, ConfigFault>
    ensures { Gives result (command_of before.now (section_view command.now)) }
{
    let at_name = command.at("name");
    let name = at_name.text()?;
    if is_name_of(before, name.as_bytes()) {
        return Err(at_name.refusal(ConfigWhat::Repeated));
    }
    let later = command.at("later").flag_or(false)?;
    let params = command.at("params").params_or_none()?;
    Ok(CommandPlan {
        name: Row::of(command.alloc, name.as_bytes())?,
        later,
        params,
    })
}

fn is_name_of(commands: &[CommandPlan], name: &[u8]) -> bool
    ensures { result ≡ list_any (has_name name.now) commands.now }
{
    commands
        .iter()
        .any(|command| name == command.name.as_slice())
}

impl<'a> Found<'a> {
    fn params_or_none(&self) -> Result<Row<ParamPlan>, ConfigFault>
        ensures { Gives result (optional [] (list param) (found_view self.now)) }
    {
        match self.value {
            Some(value) => self.params_in(value),
            None => Ok(Row::new(self.alloc)),
        }
    }

    fn params_in(&self, value: &Value) -> Result<Row<ParamPlan>, ConfigFault>
        ensures { Gives result (list param (found_view self.now).key (view value.now)) }
    {
        let Some(list) = value.as_array() else {
            return Err(self.refusal(ConfigWhat::Kind));
        };
        let mut params = Row::new(self.alloc);
        for value in list {
            params.push(self.param_in(value)?)?;
        }
        Ok(params)
    }

    #[tactic(auto, unfolding(crate::specs::Sections::param))]
    fn param_in(&self, value: &Value) -> Result<ParamPlan, ConfigFault>
        ensures { Gives result (param (found_view self.now).key (view value.now)) }
    {
        let Some(members) = value.as_table() else {
            return Err(self.refusal(ConfigWhat::Kind));
        };
        let name = self.inside(members, "name").text()?;
        let kind = self.inside(members, "kind").kind()?;
        let values = self.inside(members, "values").items_or_none()?;
        Ok(ParamPlan {
            name: Row::of(self.alloc, name.as_bytes())?,
            kind,
            values,
        })
    }

    /// What stands at a key inside the value. Refusals name the key of the value.
    fn inside<'v>(&self, members: &'v Table, name: &str) -> Found<'v>
    where
        'a: 'v,
        ensures { found_view result ≡ within (found_view self.now).key (table_view members.now) name.now }
    {
        Found {
            alloc: self.alloc,
            section: self.section,
            key: self.key,
            value: member(members, name),
        }
    }

    fn kind(&self) -> Result<Kind, ConfigFault>
        ensures { Gives result (needed (word kind_named) (found_view self.now)) }
    {
        match self.value {
            Some(value) => self.kind_in(value),
            None => Err(self.refusal(ConfigWhat::Missing)),
        }
    }

    fn kind_in(&self, value: &Value) -> Result<Kind, ConfigFault>
        ensures { Gives result (word kind_named (found_view self.now).key (view value.now)) }
    {
        let text = self.text_in(value)?;
        match kind_named(text) {
            Some(kind) => Ok(kind),
            None => Err(self.refusal(ConfigWhat::Range)),
        }
    }

    fn items_or_none(&self) -> Result<Row<Item>, ConfigFault>
        ensures { Gives result (optional [] (list item_text) (found_view self.now)) }
    {
        match self.value {
            Some(value) => self.items_in(value),
            None => Ok(Row::new(self.alloc)),
        }
    }

    fn items_in(&self, value: &Value) -> Result<Row<Item>, ConfigFault>
        ensures { Gives result (list item_text (found_view self.now).key (view value.now)) }
    {
        let Some(list) = value.as_array() else {
            return Err(self.refusal(ConfigWhat::Kind));
        };
        let mut items = Row::new(self.alloc);
        for value in list {
            items.push(self.item_in(value)?)?;
        }
        Ok(items)
    }
}
