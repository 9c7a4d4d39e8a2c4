//! What a tool is planned as, and what a world of tool and host is.

ghost use Rattle.std.specs.Prelude.{◌≡◌, ◌↔◌, All, IsTrue, nat_eq};
ghost use Rattle.std.specs.List.{IsDistinct, list_any};
ghost use Rattle.equipment_tables.specs.Plan.{CanBegin, CanBeSpooled, EquipmentPlanFits, EventsFit, IsAscii, IsShortText, PlansFit};

use gem_alarms::AlarmPlan;
use gem_remote::RemotePlan;
use gem_shapes::RuleEntry;
use gem_states::ControlState;
use gem_vars::VarsPlan;
use gl_base::Row;
use line_end::{HostPlan, LinePlan};

// The most events of a plan.
const MOST_EVENTS: usize = 1_024;

// The most characters of MDLN and of SOFTREV.
const LONGEST: usize = 20;

// The most slots of the spool in a world.
const MOST_SLOTS: u32 = 1_024;

/// What a tool is planned as.
#[derive(Debug, Drop)]
pub struct EquipmentPlan {
    pub line: LinePlan,
    /// The model, MDLN of S1F2 and S1F13.
    pub mdln: Row<u8>,
    /// The revision of the software, SOFTREV of S1F2 and S1F13.
    pub softrev: Row<u8>,
    /// Whether communication is enabled from the start.
    pub enable: bool,
    /// The control state at the start.
    pub control: ControlState,
    /// The primaries that are spooled until an S2F43 says others.
    pub spooled: Row<RuleEntry>,
    pub vars: VarsPlan,
    /// The CEIDs of the events.
    pub events: Row<u32>,
    pub alarms: Row<AlarmPlan>,
    pub remote: RemotePlan,
}

impl EquipmentPlan {
    /// Whether each part fits: the line, the variables and constants, the alarms and the commands as their own calls
    /// say; MDLN and SOFTREV with at most 20 characters of ASCII; a control state other than ATTEMPT ON-LINE; entries
    /// of S5F1, S6F11 and S10F1 alone in `spooled`; and at most 1,024 events, no two of one CEID.
    pub fn fits(&self) -> bool
        ensures { IsTrue result ↔ EquipmentPlanFits self.now }
    {
        self.line.fits()
            && is_short_text(self.mdln.as_slice())
            && is_short_text(self.softrev.as_slice())
            && can_begin(self.control)
            && can_be_spooled(self.spooled.as_slice())
            && self.vars.fits()
            && events_fit(self.events.as_slice())
            && AlarmPlan::all_fit(self.alarms.as_slice())
            && self.remote.fits()
    }
}

/// Both ends of a world, and the spool of its equipment.
#[derive(Debug, Drop)]
pub struct Plans {
    pub equipment: EquipmentPlan,
    pub host: HostPlan,
    /// How many messages the spool has room for.
    pub slots: u32,
}

impl Plans {
    /// Whether both ends fit and there are 1 to 1,024 slots.
    pub fn fits(&self) -> bool
        ensures { IsTrue result ↔ PlansFit self.now }
    {
        self.equipment.fits() && self.host.fits() && (1..=MOST_SLOTS).contains(&self.slots)
    }
}

fn is_short_text(text: &[u8]) -> bool
    ensures { IsTrue result ↔ IsShortText text.now }
{
    text.len() <= LONGEST && is_ascii(text)
}

fn is_ascii(text: &[u8]) -> bool
    ensures { IsTrue result ↔ All IsAscii text.now }
{
    for character in text {
        if *character >= 128 {
            return false;
        }
    }
    true
}

fn can_begin(state: ControlState) -> bool
    ensures { IsTrue result ↔ CanBegin state }
{
    !matches!(state, ControlState::Attempt)
}

fn can_be_spooled(entries: &[RuleEntry]) -> bool
    ensures { IsTrue result ↔ All CanBeSpooled entries.now }
{
    for entry in entries {
        if !is_spoolable(entry) {
            return false;
        }
    }
    true
}

fn is_spoolable(entry: &RuleEntry) -> bool
    ensures { IsTrue result ↔ CanBeSpooled entry.now }
{
    let functions = entry.functions.as_slice();
    (entry.stream == 5 && functions == [1].as_slice())
        || (entry.stream == 6 && functions == [11].as_slice())
        || (entry.stream == 10 && functions == [1].as_slice())
}

fn events_fit(ceids: &[u32]) -> bool
    ensures { IsTrue result ↔ EventsFit ceids.now }
{
    ceids.len() <= MOST_EVENTS && are_distinct(ceids)
}

fn are_distinct(ceids: &[u32]) -> bool
    ensures { IsTrue result ↔ IsDistinct nat_eq ceids.now }
{
    for i in 0..ceids.len() {
        if is_one_of(ceids.split_at(i + 1).1, ceids[i]) {
            return false;
        }
    }
    true
}

fn is_one_of(ceids: &[u32], ceid: u32) -> bool
    ensures { result ≡ list_any (nat_eq ceid) ceids.now }
{
    ceids.iter().any(|other| ceid == *other)
}
