//! The body of S2F44.

ghost use Rattle.std.specs.Prelude.{◌≡◌, IfOk, map};
ghost use Rattle.spool_rule.specs.Reply.{byte_item, fault_item, reply_item, reply_with};

use crate::rule::{RuleAnswer, RuleFault};
use gem_shapes::{code_item, pair_item};
use gl_base::{NoMemory, Row};
use secs_items::Item;
use std::alloc::Global;

impl RuleAnswer {
    /// The body of S2F44: RSPACK, 0 or 1, and the entries that are refused, each with STRID, STRACK and its FCNIDs.
    pub fn reply(&self, alloc: Global) -> Result<Item, NoMemory>
        ensures { IfOk result (λ reply. reply ≡ reply_item self.now) }
    {
        match self {
            RuleAnswer::Replaced => reply_with(alloc, 0, Row::new(alloc)),
            RuleAnswer::Rejected(faults) => {
                reply_with(alloc, 1, fault_items(alloc, faults.as_slice())?)
            }
        }
    }
}

fn reply_with(alloc: Global, rspack: u8, faults: Row<Item>) -> Result<Item, NoMemory>
    ensures { IfOk result (λ reply. reply ≡ reply_with rspack faults) }
{
    let code = code_item(alloc, rspack)?;
    pair_item(alloc, code, Item::L(faults))
}

fn fault_items(alloc: Global, faults: &[RuleFault]) -> Result<Row<Item>, NoMemory>
    ensures { IfOk result (λ items. items ≡ map fault_item faults.now) }
{
    let mut items = Row::new(alloc);
    for fault in faults {
        items.push(fault_item(alloc, fault)?)?;
    }
    Ok(items)
}

fn fault_item(alloc: Global, fault: &RuleFault) -> Result<Item, NoMemory>
    ensures { IfOk result (λ made. made ≡ fault_item fault.now) }
{
    let mut parts = Row::new(alloc);
    parts.push(byte_item(alloc, fault.stream)?)?;
    parts.push(code_item(alloc, fault.strack)?)?;
    parts.push(Item::L(function_items(alloc, fault.functions.as_slice())?))?;
    Ok(Item::L(parts))
}

fn function_items(alloc: Global, functions: &[u8]) -> Result<Row<Item>, NoMemory>
    ensures { IfOk result (λ items. items ≡ map byte_item functions.now) }
{
    let mut items = Row::new(alloc);
    for function in functions {
        items.push(byte_item(alloc, *function)?)?;
    }
    Ok(items)
}

// A stream or a function.
fn byte_item(alloc: Global, number: u8) -> Result<Item, NoMemory>
    ensures { IfOk result (λ made. made ≡ byte_item number) }
{
    Ok(Item::U1(Row::of(alloc, &[number])?))
}
