//! The parts of a plan file, with their keys.

ghost use Rattle.std.specs.Prelude.{◌≡◌, IfOk};
ghost use Rattle.gem_config.specs.Others.{knows, name_of};
ghost use Rattle.gem_config.specs.declared.part.Part.TheVariants as part;

use crate::found::key_of;
use gl_base::{NoMemory, Row};
use std::alloc::Global;

/// A part of a plan file that has keys of its own.
#[derive(Clone, Copy)]
pub(crate) enum Part {
    Document,
    Line,
    Equipment,
    Variable,
    Constant,
    Event,
    Alarm,
    Command,
    Param,
    Host,
}

impl Part {
    /// Whether the part has a key of this name.
    pub(crate) fn knows(self, key: &str) -> bool
        ensures { result ≡ knows self key.now }
    {
        match self {
            Part::Document => matches!(
                key,
                "line"
                    | "equipment"
                    | "variable"
                    | "constant"
                    | "event"
                    | "alarm"
                    | "command"
                    | "host"
            ),
            Part::Line => matches!(
                key,
                "device" | "t1" | "t2" | "t3" | "t4" | "rty" | "max_body"
            ),
            Part::Equipment => is_of_equipment(key),
            Part::Variable => matches!(key, "vid" | "name" | "units" | "value"),
            Part::Constant => matches!(key, "ecid" | "name" | "units" | "min" | "max" | "value"),
            Part::Event => matches!(key, "ceid" | "name"),
            Part::Alarm => matches!(key, "alid" | "category" | "text" | "enabled"),
            Part::Command => matches!(key, "name" | "later" | "params"),
            Part::Param => matches!(key, "name" | "kind" | "values"),
            Part::Host => key == "enable",
        }
    }

    /// How a refusal names a key of the part.
    pub(crate) fn name_of(self, alloc: Global, key: &str) -> Result<Row<u8>, NoMemory>
        ensures { IfOk result (λ name. name ≡ name_of self key.now) }
    {
        match self {
            Part::Document => Row::of(alloc, key.as_bytes()),
            Part::Line => key_of(alloc, "line", key),
            Part::Equipment => key_of(alloc, "equipment", key),
            Part::Variable => key_of(alloc, "variable", key),
            Part::Constant => key_of(alloc, "constant", key),
            Part::Event => key_of(alloc, "event", key),
            Part::Alarm => key_of(alloc, "alarm", key),
            Part::Command => key_of(alloc, "command", key),
            Part::Param => Row::of(alloc, b"command.params"),
            Part::Host => key_of(alloc, "host", key),
        }
    }
}

fn is_of_equipment(key: &str) -> bool
    ensures { result ≡ knows part.Equipment key.now }
{
    matches!(
        key,
        "mdln"
            | "softrev"
            | "enable"
            | "control"
            | "slots"
            | "enable_spool"
            | "overwrite"
            | "max_transmit"
            | "delay"
            | "spooled"
            | "terminals"
    )
}
