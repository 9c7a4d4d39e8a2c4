//! Which calls of a disk in memory are to fail, so that a fault or a stop can be tried at each of them.

ghost use Rattle.std.specs.Prelude.{◌≡◌};
ghost use Rattle.disk_base.specs.Plan.{next_answer, next_plan, no_faults, refused_plan, stops_next};

use crate::disk::DiskAnswer;

/// Which of the calls to come fail.
#[derive(Clone, Copy, Debug)]
pub struct FaultPlan {
    /// How many calls are left up to one that fails alone, itself counted, and 0 for none.
    pub fail_in: u32,
    /// How many calls are left up to the one from which on all fail, itself counted, and 0 for none.
    pub stop_in: u32,
    /// Whether that one was made.
    pub stopped: bool,
}

impl FaultPlan {
    /// No call is to fail.
    pub fn new() -> FaultPlan
        ensures { result ≡ no_faults }
    {
        FaultPlan {
            fail_in: 0,
            stop_in: 0,
            stopped: false,
        }
    }

    /// Whether the disk is to stop at the next call.
    pub fn stops_next(&self) -> bool
        ensures { result ≡ stops_next self.now }
    {
        !self.stopped && self.stop_in == 1
    }

    /// Takes off a call that isn't made. The stop waits for calls that are made.
    pub fn refuse(&mut self)
        ensures { self.new ≡ refused_plan self.old }
    {
        self.fail_in = self.fail_in.saturating_sub(1);
    }

    /// Takes one call off that is made, and gives its answer.
    pub fn step(&mut self) -> DiskAnswer
        ensures answer { result ≡ next_answer self.old }
        ensures plan { self.new ≡ next_plan self.old }
    {
        let fails = self.stopped || self.fail_in == 1 || self.stop_in == 1;
        self.stopped = self.stopped || self.stop_in == 1;
        self.fail_in = self.fail_in.saturating_sub(1);
        self.stop_in = self.stop_in.saturating_sub(1);
        if fails {
            DiskAnswer::Failed
        } else {
            DiskAnswer::Done
        }
    }
}
