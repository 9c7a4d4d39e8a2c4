//! The alarms as they are planned, and which plans fit.

ghost use Rattle.std.specs.Prelude.{◌≡◌, ◌↔◌, All, IsTrue, nat_eq};
ghost use Rattle.std.specs.List.{IsDistinct, list_any};
ghost use Rattle.gem_alarms.specs.Plan.{AlarmFits, AlarmsFit, IsAscii, alids_of, has_alid};

use gl_base::Row;

// The most alarms of a plan.
const MOST: usize = 1_024;

// The most characters of a text.
const LONGEST: usize = 40;

/// An alarm of the plan.
#[derive(Debug, Drop)]
pub struct AlarmPlan {
    pub alid: u32,
    /// The category of ALCD, without the bit that says whether the alarm is set.
    pub category: u8,
    pub text: Row<u8>,
    /// Whether it is enabled at first.
    pub enabled: bool,
}

impl AlarmPlan {
    /// Whether the category is below 128 and the text has at most 40 characters of ASCII.
    pub fn fits(&self) -> bool
        ensures { IsTrue result ↔ AlarmFits self.now }
    {
        self.category < 128 && self.text.len() <= LONGEST && is_ascii(self.text.as_slice())
    }

    /// Whether there are at most 1,024 alarms, each fits, and no two have one ALID.
    pub fn all_fit(plan: &[AlarmPlan]) -> bool
        ensures { IsTrue result ↔ AlarmsFit plan.now }
    {
        plan.len() <= MOST && each_fits(plan) && are_distinct(plan)
    }
}

fn is_ascii(text: &[u8]) -> bool
    ensures { IsTrue result ↔ All IsAscii text.now }
{
    for character in text {
        if *character >= 128 {
            return false;
        }
    }
    true
}

fn each_fits(plan: &[AlarmPlan]) -> bool
    ensures { IsTrue result ↔ All AlarmFits plan.now }
{
    for alarm in plan {
        if !alarm.fits() {
            return false;
        }
    }
    true
}

fn are_distinct(plan: &[AlarmPlan]) -> bool
    ensures { IsTrue result ↔ IsDistinct nat_eq (alids_of plan.now) }
{
    for i in 0..plan.len() {
        if is_one_of(plan.split_at(i + 1).1, plan[i].alid) {
            return false;
        }
    }
    true
}

fn is_one_of(plan: &[AlarmPlan], alid: u32) -> bool
    ensures { result ≡ list_any (has_alid alid) plan.now }
{
    plan.iter().any(|alarm| alid == alarm.alid)
}
