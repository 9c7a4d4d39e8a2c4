//! The least key of a plan file that has no meaning.

ghost use Rattle.std.specs.Prelude.{◌≡◌, None, Some, IfOk, option_map};
ghost use Rattle.std.specs.Cmp.Lexicographic.{slice_cmp};
ghost use Rattle.std.specs.Option.{option_and_then};
ghost use Rattle.std.specs.Ordering.{is_lt, nat_cmp};
ghost use Rattle.gem_config.specs.Others.{items_at, items_or_none, least_of, lesser, other_keys, others, others_in_each, others_in_params, others_of, params_of};
ghost use Rattle.toml.specs.Data.{as_array, as_table, get_member};
ghost use Rattle.toml.specs.View.{items_view, table_view, view};

use crate::found::member;
use crate::part::Part;
use gl_base::{NoMemory, Row};
use std::alloc::Global;
use toml::{Table, Value};

/// The least of the keys that have no meaning, as a refusal names it. `None` where each key has one.
#[tactic(auto, using(crate::proofs::Counts::least_behind), unfolding(crate::specs::Others::other_keys))]
pub(crate) fn least_other(alloc: Global, document: &Table) -> Result<Option<Row<u8>>, NoMemory>
    ensures { IfOk result (λ least. least ≡ least_of None (other_keys (table_view document.now))) }
{
    let commands = items_at(document, "command");
    let least = others(alloc, Part::Document, document, None)?;
    let least = others_of(alloc, Part::Line, table_at(document, "line"), least)?;
    let least = others_of(
        alloc,
        Part::Equipment,
        table_at(document, "equipment"),
        least,
    )?;
    let least = others_of(alloc, Part::Host, table_at(document, "host"), least)?;
    let least = others_in_each(alloc, Part::Variable, items_at(document, "variable"), least)?;
    let least = others_in_each(alloc, Part::Constant, items_at(document, "constant"), least)?;
    let least = others_in_each(alloc, Part::Event, items_at(document, "event"), least)?;
    let least = others_in_each(alloc, Part::Alarm, items_at(document, "alarm"), least)?;
    let least = others_in_each(alloc, Part::Command, commands, least)?;
    others_in_params(alloc, commands, least)
}

fn others(
    alloc: Global,
    part: Part,
    members: &Table,
    before: Option<Row<u8>>,
) -> Result<Option<Row<u8>>, NoMemory>
    ensures { IfOk result (λ least. least ≡ least_of before (others part (table_view members.now))) }
{
    let mut least = before;
    'members: for (key, _value) in members.iter() {
        if !part.knows(key.as_str()) {
            least = Some(lesser(least, part.name_of(alloc, key.as_str())?));
        }
    }
    Ok(least)
}

fn others_of(
    alloc: Global,
    part: Part,
    members: Option<&Table>,
    before: Option<Row<u8>>,
) -> Result<Option<Row<u8>>, NoMemory>
    ensures { IfOk result (λ least. least
        ≡ least_of before (others_of part (option_map (λ t. table_view t.now) members.entry))) }
{
    match members {
        Some(members) => others(alloc, part, members, before),
        None => Ok(before),
    }
}

#[tactic(auto, using(crate::proofs::Counts::least_behind))]
fn others_in_each(
    alloc: Global,
    part: Part,
    values: &[Value],
    before: Option<Row<u8>>,
) -> Result<Option<Row<u8>>, NoMemory>
    ensures { IfOk result (λ least. least ≡ least_of before (others_in_each part (items_view values.now))) }
{
    let mut least = before;
    for value in values {
        least = others_of(alloc, part, value.as_table(), least)?;
    }
    Ok(least)
}

#[tactic(auto, using(crate::proofs::Counts::least_behind))]
fn others_in_params(
    alloc: Global,
    commands: &[Value],
    before: Option<Row<u8>>,
) -> Result<Option<Row<u8>>, NoMemory>
    ensures { IfOk result (λ least. least ≡ least_of before (others_in_params (items_view commands.now))) }
{
    let mut least = before;
    for command in commands {
        least = others_in_each(alloc, Part::Param, params_of(command), least)?;
    }
    Ok(least)
}

/// The parameters of a command.
fn params_of(command: &Value) -> &[Value]
    ensures { items_view result.now ≡ params_of (as_table (view command.now)) }
{
    match command.as_table() {
        Some(members) => items_at(members, "params"),
        None => &[],
    }
}

fn table_at<'a>(members: &'a Table, key: &str) -> Option<&'a Table>
    ensures { option_map (λ t. table_view t.now) result
        ≡ option_and_then as_table (get_member key.now (table_view members.now)) }
{
    match member(members, key) {
        Some(value) => value.as_table(),
        None => None,
    }
}

/// The elements of an array, and none where there is no array.
fn items_at<'a>(members: &'a Table, key: &str) -> &'a [Value]
    ensures { items_view result.now ≡ items_at key.now (table_view members.now) }
{
    match member(members, key) {
        Some(value) => items_of(value),
        None => &[],
    }
}

fn items_of(value: &Value) -> &[Value]
    ensures { items_view result.now ≡ items_or_none (as_array (view value.now)) }
{
    match value.as_array() {
        Some(values) => values.as_slice(),
        None => &[],
    }
}

/// The lesser of two names by bytes.
fn lesser(least: Option<Row<u8>>, name: Row<u8>) -> Row<u8>
    ensures { Some result ≡ lesser least name }
{
    let Some(least) = least else {
        return name;
    };
    if is_before(name.as_slice(), least.as_slice()) {
        name
    } else {
        least
    }
}

fn is_before(name: &[u8], other: &[u8]) -> bool
    ensures { result ≡ is_lt (slice_cmp nat_cmp name.now other.now) }
{
    name.cmp(other).is_lt()
}
