//! A section of a plan file, and what stands at its keys.

ghost use Rattle.std.specs.Prelude.{◌≡◌, ◌≢◌, IfOk, option_map};
ghost use Rattle.gem_config.specs.declared.fault.ConfigFault.TheVariants as faults;
ghost use Rattle.gem_config.specs.Found.{found_view, section_view};
ghost use Rattle.gem_config.specs.Reading.{at, key_of};
ghost use Rattle.toml.specs.Data.{get_member};
ghost use Rattle.toml.specs.View.{table_view, view};

use crate::fault::{ConfigFault, ConfigWhat};
use gl_base::{NoMemory, Row};
use std::alloc::Global;
use toml::{Table, Value};

/// A section of the file, or an element of one.
#[derive(Clone, Copy)]
pub(crate) struct Section<'a> {
    pub(crate) alloc: Global,
    pub(crate) name: &'a str,
    pub(crate) members: &'a Table,
}

/// What stands at a key of a section.
#[derive(Clone, Copy)]
pub(crate) struct Found<'a> {
    pub(crate) alloc: Global,
    pub(crate) section: &'a str,
    pub(crate) key: &'a str,
    pub(crate) value: Option<&'a Value>,
}

impl<'a> Section<'a> {
    pub(crate) fn at(&self, key: &'a str) -> Found<'a>
        ensures { found_view result ≡ at (section_view self.now) key.now }
    {
        Found {
            alloc: self.alloc,
            section: self.name,
            key,
            value: member(self.members, key),
        }
    }
}

impl<'a> Found<'a> {
    pub(crate) fn refusal(&self, what: ConfigWhat) -> ConfigFault
        ensures { result ≢ faults.NoMemory → result ≡ faults.Key (found_view self.now).key what }
    {
        match key_of(self.alloc, self.section, self.key) {
            Ok(key) => ConfigFault::Key { key, what },
            Err(NoMemory) => ConfigFault::NoMemory,
        }
    }
}

/// The section, a point and the key.
pub(crate) fn key_of(alloc: Global, section: &str, key: &str) -> Result<Row<u8>, NoMemory>
    ensures { IfOk result (λ row. row ≡ key_of section.now key.now) }
{
    let mut row = Row::of(alloc, section.as_bytes())?;
    row.extend(b".")?;
    row.extend(key.as_bytes())?;
    Ok(row)
}

/// The value at a key.
pub(crate) fn member<'a>(members: &'a Table, key: &str) -> Option<&'a Value>
    ensures { option_map (λ value. view value.now) result ≡ get_member key.now (table_view members.now) }
{
    members.get(key)
}
