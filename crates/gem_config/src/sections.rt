//! The sections of a plan file that are tables, key by key.

ghost use Rattle.std.specs.Prelude.{◌≡◌};
ghost use Rattle.gem_config.specs.Found.{section_view};
ghost use Rattle.gem_config.specs.Reading.{Gives};
ghost use Rattle.gem_config.specs.Sections.{constants_of, host_enable_of, identity_of, line_of, tool_of, worth};

use crate::fault::ConfigFault;
use crate::found::Section;
use gem_shapes::RuleEntry;
use gem_states::ControlState;
use gl_base::Row;
use line_end::{LinePlan, Times};

/// What the section of the equipment says.
#[derive(Drop)]
pub(crate) struct ToolSection {
    pub(crate) identity: Identity,
    pub(crate) constants: Constants,
    pub(crate) spooled: Row<RuleEntry>,
    pub(crate) terminals: u8,
}

/// What the tool is, and how it begins.
#[derive(Drop)]
pub(crate) struct Identity {
    pub(crate) mdln: Row<u8>,
    pub(crate) softrev: Row<u8>,
    pub(crate) enable: bool,
    pub(crate) control: ControlState,
}

/// The room of the spool, and the values of the constants that every equipment has, by their ECIDs from 1.
#[derive(Clone, Copy)]
pub(crate) struct Constants {
    pub(crate) slots: u32,
    pub(crate) delay: u32,
    pub(crate) enable_spool: bool,
    pub(crate) overwrite: bool,
    pub(crate) max_transmit: u32,
}

#[tactic(auto, unfolding(crate::specs::Sections::line_of))]
pub(crate) fn line_of(line: &Section<'_>) -> Result<LinePlan, ConfigFault>
    ensures { Gives result (line_of (section_view line.now)) }
{
    let device = line.at("device").number_or(0, 32_767, 0)? as u16;
    let t1 = line.at("t1").number_or(100, 10_000, 500)?;
    let t2 = line.at("t2").number_or(200, 25_000, 10_000)?;
    let t3 = line.at("t3").number_or(1_000, 120_000, 45_000)?;
    let t4 = line.at("t4").number_or(1_000, 120_000, 45_000)?;
    let rty = line.at("rty").number_or(0, 31, 3)? as u8;
    let max_body = line.at("max_body").number_or(244, 7_995_148, 1_048_576)?;
    Ok(LinePlan {
        device,
        times: Times { t1, t2, rty },
        t3,
        t4,
        max_body,
    })
}

#[tactic(auto, unfolding(crate::specs::Sections::tool_of))]
pub(crate) fn tool_of(tool: &Section<'_>) -> Result<ToolSection, ConfigFault>
    ensures { Gives result (tool_of (section_view tool.now)) }
{
    let identity = identity_of(tool)?;
    let constants = constants_of(tool)?;
    let spooled = tool.at("spooled").spooled_or_all()?;
    let terminals = tool.at("terminals").number_or(0, 255, 1)? as u8;
    Ok(ToolSection {
        identity,
        constants,
        spooled,
        terminals,
    })
}

#[tactic(auto, unfolding(crate::specs::Sections::identity_of))]
fn identity_of(tool: &Section<'_>) -> Result<Identity, ConfigFault>
    ensures { Gives result (identity_of (section_view tool.now)) }
{
    let mdln = tool.at("mdln").short_text_or(20, "GEMLINE")?;
    let softrev = tool.at("softrev").short_text_or(20, "1")?;
    let enable = tool.at("enable").flag_or(true)?;
    let control = tool.at("control").control_or_remote()?;
    Ok(Identity {
        mdln: Row::of(tool.alloc, mdln.as_bytes())?,
        softrev: Row::of(tool.alloc, softrev.as_bytes())?,
        enable,
        control,
    })
}

#[tactic(auto, unfolding(crate::specs::Sections::constants_of))]
fn constants_of(tool: &Section<'_>) -> Result<Constants, ConfigFault>
    ensures { Gives result (constants_of (section_view tool.now)) }
{
    let slots = tool.at("slots").number_or(1, 1_024, 16)?;
    let enable_spool = tool.at("enable_spool").flag_or(true)?;
    let overwrite = tool.at("overwrite").flag_or(true)?;
    let max_transmit = tool.at("max_transmit").number_or(0, u32::MAX, 0)?;
    let delay = tool.at("delay").number_or(1, 120, 10)?;
    Ok(Constants {
        slots,
        delay,
        enable_spool,
        overwrite,
        max_transmit,
    })
}

pub(crate) fn host_enable_of(host: &Section<'_>) -> Result<bool, ConfigFault>
    ensures { Gives result (host_enable_of (section_view host.now)) }
{
    host.at("enable").flag_or(true)
}

/// 1 for true, as a constant has it.
pub(crate) fn worth(flag: bool) -> u32
    ensures { result ≡ worth flag }
{
    if flag { 1 } else { 0 }
}
