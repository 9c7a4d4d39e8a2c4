//! Sections that are arrays of tables: their form, and their elements one after another.

ghost use Rattle.std.specs.Prelude.{◌≡◌, ◌≢◌, Some, IfOk, not, nat_eq};
ghost use Rattle.std.specs.List.{list_any};
ghost use Rattle.gem_config.specs.declared.fault.ConfigFault.TheVariants as faults;
ghost use Rattle.gem_config.specs.Found.{section_view};
ghost use Rattle.gem_config.specs.Reading.{Gives, GivesBy};
ghost use Rattle.gem_config.specs.Rows.{command_after, commands_in, elements, elements_in, row_after, rows_in, section, section_of};
ghost use Rattle.indexmap.specs.IndexSet.{insert_key};
ghost use Rattle.toml.specs.Data.{no_members};
ghost use Rattle.toml.specs.Text.{are_tables};
ghost use Rattle.toml.specs.View.{items_view, table_view, view};

use crate::element::{Element, command_of};
use crate::fault::{ConfigFault, ConfigWhat};
use crate::found::{Section, member};
use gem_remote::CommandPlan;
use gl_base::{NoMemory, Row};
use indexmap::IndexSet;
use std::alloc::Global;
use toml::{Table, Value};

/// The section, or the element, that a table is.
fn section_of<'a>(
    alloc: Global,
    name: &'a str,
    value: &'a Value,
) -> Result<Section<'a>, ConfigFault>
    ensures { GivesBy section_view result (section_of name.now (view value.now)) }
{
    match value.as_table() {
        Some(members) => Ok(Section {
            alloc,
            name,
            members,
        }),
        None => Err(refusal(alloc, name, ConfigWhat::Kind)),
    }
}

/// A section that is a table. Where it is missing it has no key, as `empty`.
pub(crate) fn section<'a>(
    alloc: Global,
    document: &'a Table,
    name: &'a str,
    empty: &'a Table,
) -> Result<Section<'a>, ConfigFault>
    requires { table_view empty.now ≡ no_members }
    ensures { GivesBy section_view result (section name.now (table_view document.now)) }
{
    match member(document, name) {
        Some(value) => section_of(alloc, name, value),
        None => Ok(Section {
            alloc,
            name,
            members: empty,
        }),
    }
}

/// The elements of a section that is an array of tables, at most so many. Where it is missing there is none.
fn elements<'a>(
    alloc: Global,
    document: &'a Table,
    name: &str,
    most: usize,
) -> Result<&'a [Value], ConfigFault>
    ensures { GivesBy (λ values. items_view values.now) result (elements name.now most (table_view document.now)) }
{
    match member(document, name) {
        Some(value) => elements_in(alloc, value, name, most),
        None => Ok(&[]),
    }
}

#[tactic(auto, using(crate::proofs::Counts::count_of_view))]
fn elements_in<'a>(
    alloc: Global,
    value: &'a Value,
    name: &str,
    most: usize,
) -> Result<&'a [Value], ConfigFault>
    ensures { GivesBy (λ values. items_view values.now) result (elements_in name.now most (Some (view value.now))) }
{
    let Some(values) = value.as_array() else {
        return Err(refusal(alloc, name, ConfigWhat::Kind));
    };
    if !are_tables(values.as_slice()) {
        return Err(refusal(alloc, name, ConfigWhat::Kind));
    }
    if values.len() > most {
        return Err(refusal(alloc, name, ConfigWhat::Range));
    }
    Ok(values.as_slice())
}

fn are_tables(values: &[Value]) -> bool
    ensures { result ≡ are_tables (items_view values.now) }
{
    for value in values {
        if !value.is_table() {
            return false;
        }
    }
    true
}

/// What the elements of a section are in the plan. No two have one identifier, which is `least` or greater.
pub(crate) fn rows<T: Element>(
    alloc: Global,
    document: &Table,
    name: &str,
    most: usize,
    key: &str,
    least: u32,
) -> Result<Row<T>, ConfigFault>
    ensures { Gives result (rows_in T.row_of name.now key.now least most (table_view document.now)) }
{
    let values = elements(alloc, document, name, most)?;
    let mut rows = Row::new(alloc);
    let mut taken = IndexSet::new(alloc);
    for value in values {
        rows.push(row_after(alloc, value, name, key, least, &mut taken)?)?;
    }
    Ok(rows)
}

/// What an element is in the plan. Its identifier is taken from then on.
#[tactic(auto, unfolding(crate::specs::Rows::row_after))]
fn row_after<T: Element>(
    alloc: Global,
    value: &Value,
    name: &str,
    key: &str,
    least: u32,
    taken: &mut IndexSet<u32>,
) -> Result<T, ConfigFault>
    ensures { GivesBy (λ row. (taken.new.keys, row)) result
        (row_after T.row_of name.now key.now least taken.old.keys (view value.now)) }
{
    let element = section_of(alloc, name, value)?;
    let at_key = element.at(key);
    let id = at_key.number(least, u32::MAX)?;
    if !take(taken, id)? {
        return Err(at_key.refusal(ConfigWhat::Repeated));
    }
    T::row(id, &element)
}

/// Takes an identifier; false where it is taken already.
fn take(taken: &mut IndexSet<u32>, id: u32) -> Result<bool, NoMemory>
    ensures fresh { IfOk result (λ fresh. fresh ≡ not (list_any (nat_eq id) taken.old.keys)) }
    ensures keys { IfOk result (λ fresh. taken.new.keys ≡ insert_key nat_eq taken.old.keys id) }
{
    Ok(taken.insert(id)?)
}

/// The commands. No two have one name.
pub(crate) fn commands(
    alloc: Global,
    document: &Table,
    name: &str,
    most: usize,
) -> Result<Row<CommandPlan>, ConfigFault>
    ensures { Gives result (commands_in name.now most (table_view document.now)) }
{
    let values = elements(alloc, document, name, most)?;
    let mut commands = Row::new(alloc);
    for value in values {
        commands.push(command_after(alloc, value, name, commands.as_slice())?)?;
    }
    Ok(commands)
}

#[tactic(auto, unfolding(crate::specs::Rows::command_after))]
fn command_after(
    alloc: Global,
    value: &Value,
    name: &str,
    before: &[CommandPlan],
) -> Result<CommandPlan, ConfigFault>
    ensures { Gives result (command_after name.now before.now (view value.now)) }
{
    command_of(before, &section_of(alloc, name, value)?)
}

/// The refusal of a section as a whole.
pub(crate) fn refusal(alloc: Global, key: &str, what: ConfigWhat) -> ConfigFault
    ensures { result ≢ faults.NoMemory → result ≡ faults.Key key.now what }
{
    match Row::of(alloc, key.as_bytes()) {
        Ok(key) => ConfigFault::Key { key, what },
        Err(NoMemory) => ConfigFault::NoMemory,
    }
}
