//! What stands at a key, read as a value of some kind.

ghost use Rattle.std.specs.Prelude.{◌≡◌, ◌≤◌, IfOk};
ghost use Rattle.std.specs.List.{list_all};
ghost use Rattle.gem_config.specs.Found.{found_view};
ghost use Rattle.gem_config.specs.Reading.{Gives, GivesBy};
ghost use Rattle.gem_config.specs.Values.{flag, in_range, is_ascii, is_short, item_in, item_text, list, needed, number, optional, short_text, text, value_text, word};
ghost use Rattle.gem_config.specs.Words.{all_spooled, control_named, spooled_named};
ghost use Rattle.gem_states.specs.declared.control.ControlState.TheVariants as states;
ghost use Rattle.gem_vars.specs.Settings.{value_fits};
ghost use Rattle.toml.specs.View.{view};

use crate::fault::{ConfigFault, ConfigWhat};
use crate::found::Found;
use crate::words::{all_spooled, control_named, spooled_named};
use gem_shapes::RuleEntry;
use gem_states::ControlState;
use gl_base::{NoMemory, Row};
use secs_items::Item;
use secs_text::{TextFault, read};
use std::alloc::Global;
use toml::Value;

// The most bytes of a variable's value when it is encoded.
const LONGEST_VALUE: usize = 4_096;

// How deep the lists of a variable's value may nest.
const DEEPEST_VALUE: usize = 60;

// ---- keys

impl<'a> Found<'a> {
    /// A number that must be there.
    pub(crate) fn number(&self, least: u32, most: u32) -> Result<u32, ConfigFault>
        ensures read { Gives result (needed (number least most) (found_view self.now)) }
        ensures range { IfOk result (λ n. (least ≤ n) × (n ≤ most)) }
    {
        match self.value {
            Some(value) => self.number_in(value, least, most),
            None => Err(self.refusal(ConfigWhat::Missing)),
        }
    }

    /// A number that may be missing.
    pub(crate) fn number_or(&self, least: u32, most: u32, default: u32) -> Result<u32, ConfigFault>
        requires { (least ≤ default) × (default ≤ most) }
        ensures read { Gives result (optional default (number least most) (found_view self.now)) }
        ensures range { IfOk result (λ n. (least ≤ n) × (n ≤ most)) }
    {
        match self.value {
            Some(value) => self.number_in(value, least, most),
            None => Ok(default),
        }
    }

    pub(crate) fn flag_or(&self, default: bool) -> Result<bool, ConfigFault>
        ensures { Gives result (optional default flag (found_view self.now)) }
    {
        match self.value {
            Some(value) => self.flag_in(value),
            None => Ok(default),
        }
    }

    /// A text that must be there.
    pub(crate) fn text(&self) -> Result<&'a str, ConfigFault>
        ensures { GivesBy (λ s. s.now) result (needed text (found_view self.now)) }
    {
        match self.value {
            Some(value) => self.text_in(value),
            None => Err(self.refusal(ConfigWhat::Missing)),
        }
    }

    /// A text that may be missing.
    pub(crate) fn text_or(&self, default: &'a str) -> Result<&'a str, ConfigFault>
        ensures { GivesBy (λ s. s.now) result (optional default.now text (found_view self.now)) }
    {
        match self.value {
            Some(value) => self.text_in(value),
            None => Ok(default),
        }
    }

    /// A text of at most so many characters, all of ASCII.
    pub(crate) fn short_text_or(
        &self,
        longest: usize,
        default: &'a str,
    ) -> Result<&'a str, ConfigFault>
        ensures { GivesBy (λ s. s.now) result (optional default.now (short_text longest) (found_view self.now)) }
    {
        match self.value {
            Some(value) => self.short_text_in(value, longest),
            None => Ok(default),
        }
    }

    /// The value of a variable, which must be there.
    pub(crate) fn value(&self) -> Result<Item, ConfigFault>
        ensures { Gives result (needed value_text (found_view self.now)) }
    {
        match self.value {
            Some(value) => self.value_in(value),
            None => Err(self.refusal(ConfigWhat::Missing)),
        }
    }

    pub(crate) fn control_or_remote(&self) -> Result<ControlState, ConfigFault>
        ensures { Gives result (optional states.Remote (word control_named) (found_view self.now)) }
    {
        match self.value {
            Some(value) => self.control_in(value),
            None => Ok(ControlState::Remote),
        }
    }

    pub(crate) fn spooled_or_all(&self) -> Result<Row<RuleEntry>, ConfigFault>
        ensures { Gives result (optional all_spooled (list (word spooled_named)) (found_view self.now)) }
    {
        match self.value {
            Some(value) => self.spooled_in(value),
            None => Ok(all_spooled(self.alloc)?),
        }
    }
}

// ---- kinds of values

impl<'a> Found<'a> {
    fn number_in(&self, value: &Value, least: u32, most: u32) -> Result<u32, ConfigFault>
        ensures read { Gives result (number least most (found_view self.now).key (view value.now)) }
        ensures range { IfOk result (λ n. (least ≤ n) × (n ≤ most)) }
    {
        match value.as_integer() {
            Some(number) => self.in_range(number, least, most),
            None => Err(self.refusal(ConfigWhat::Kind)),
        }
    }

    fn in_range(&self, number: i64, least: u32, most: u32) -> Result<u32, ConfigFault>
        ensures read { Gives result (in_range least most (found_view self.now).key number) }
        ensures range { IfOk result (λ n. (least ≤ n) × (n ≤ most)) }
    {
        match u32::try_from(number) {
            Ok(number) if least <= number && number <= most => Ok(number),
            _ => Err(self.refusal(ConfigWhat::Range)),
        }
    }

    fn flag_in(&self, value: &Value) -> Result<bool, ConfigFault>
        ensures { Gives result (flag (found_view self.now).key (view value.now)) }
    {
        match value.as_bool() {
            Some(flag) => Ok(flag),
            None => Err(self.refusal(ConfigWhat::Kind)),
        }
    }

    pub(crate) fn text_in<'v>(&self, value: &'v Value) -> Result<&'v str, ConfigFault>
        ensures { GivesBy (λ s. s.now) result (text (found_view self.now).key (view value.now)) }
    {
        match value.as_str() {
            Some(text) => Ok(text),
            None => Err(self.refusal(ConfigWhat::Kind)),
        }
    }

    fn short_text_in<'v>(&self, value: &'v Value, longest: usize) -> Result<&'v str, ConfigFault>
        ensures { GivesBy (λ s. s.now) result (short_text longest (found_view self.now).key (view value.now)) }
    {
        let text = self.text_in(value)?;
        if !is_short(text.as_bytes(), longest) {
            return Err(self.refusal(ConfigWhat::Range));
        }
        Ok(text)
    }

    /// The item that the text at this key reads as.
    pub(crate) fn item_in(&self, value: &Value) -> Result<Item, ConfigFault>
        ensures { Gives result (item_text (found_view self.now).key (view value.now)) }
    {
        let text = self.text_in(value)?;
        match item_in(self.alloc, text.as_bytes())? {
            Some(item) => Ok(item),
            None => Err(self.refusal(ConfigWhat::Kind)),
        }
    }

    fn value_in(&self, value: &Value) -> Result<Item, ConfigFault>
        ensures { Gives result (value_text (found_view self.now).key (view value.now)) }
    {
        let item = self.item_in(value)?;
        if !value_fits(&item) {
            return Err(self.refusal(ConfigWhat::Range));
        }
        Ok(item)
    }

    fn control_in(&self, value: &Value) -> Result<ControlState, ConfigFault>
        ensures { Gives result (word control_named (found_view self.now).key (view value.now)) }
    {
        let text = self.text_in(value)?;
        match control_named(text) {
            Some(control) => Ok(control),
            None => Err(self.refusal(ConfigWhat::Range)),
        }
    }

    fn spooled_in(&self, value: &Value) -> Result<Row<RuleEntry>, ConfigFault>
        ensures { Gives result (list (word spooled_named) (found_view self.now).key (view value.now)) }
    {
        let Some(names) = value.as_array() else {
            return Err(self.refusal(ConfigWhat::Kind));
        };
        let mut entries = Row::new(self.alloc);
        for name in names {
            entries.push(self.spooled_entry_in(name)?)?;
        }
        Ok(entries)
    }

    fn spooled_entry_in(&self, value: &Value) -> Result<RuleEntry, ConfigFault>
        ensures { Gives result (word spooled_named (found_view self.now).key (view value.now)) }
    {
        let text = self.text_in(value)?;
        match spooled_named(self.alloc, text)? {
            Some(entry) => Ok(entry),
            None => Err(self.refusal(ConfigWhat::Range)),
        }
    }
}

fn is_short(text: &[u8], longest: usize) -> bool
    ensures { result ≡ is_short longest text.now }
{
    text.len() <= longest && is_ascii(text)
}

fn is_ascii(text: &[u8]) -> bool
    ensures { result ≡ list_all is_ascii text.now }
{
    text.iter().all(|character| *character < 128)
}

/// The item that all of the text reads as.
#[tactic(auto, using(crate::proofs::ItemTexts::no_item))]
fn item_in(alloc: Global, text: &[u8]) -> Result<Option<Item>, NoMemory>
    ensures { IfOk result (λ item. item ≡ item_in text.now) }
{
    match read(alloc, text) {
        Ok(item) => Ok(Some(item)),
        Err(TextFault::NoMemory) => Err(NoMemory),
        Err(_) => Ok(None),
    }
}

/// Whether a variable may have the value.
fn value_fits(value: &Item) -> bool
    ensures { result ≡ value_fits value.now }
{
    value.spelled_len() <= LONGEST_VALUE && value.depth() <= DEEPEST_VALUE
}
