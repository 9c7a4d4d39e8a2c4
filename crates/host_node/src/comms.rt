//! The host's state of communication: how it changes, and the note of a change.

ghost use Rattle.std.specs.Prelude.{◌≡◌, IfOk};
ghost use Rattle.message_end.specs.Core.{EndView};
ghost use Rattle.message_end.specs.Parts.{AreCarried};
ghost use Rattle.host_node.specs.Host.{Kind, comms_name, enabled_comms, failed_comms, first_comms, is_disabled, notes_comms};

use gl_base::NoMemory;
use line_end::HostPlan;
use message_flow::StepOut;
use std::alloc::Global;
use trace_log::{CommsName, comms_note};

/// The host's state of communication.
#[derive(Clone, Copy, Debug, PartialEq, Eq)]
pub enum HostComms {
    /// It drops every message, those that come and those that are to go.
    Disabled,
    /// It sends and answers; no communication has been established since it was enabled, or since a block failed.
    NotCommunicating,
    /// Communication is established.
    Communicating,
}

impl HostComms {
    // At a start.
    pub(crate) fn first(plan: &HostPlan) -> HostComms
        ensures { result ≡ first_comms plan.now }
    {
        if plan.enable {
            HostComms::NotCommunicating
        } else {
            HostComms::Disabled
        }
    }

    // When it is enabled.
    pub(crate) fn enabled(self) -> HostComms
        ensures { result ≡ enabled_comms self }
    {
        match self {
            HostComms::Disabled => HostComms::NotCommunicating,
            HostComms::NotCommunicating => HostComms::NotCommunicating,
            HostComms::Communicating => HostComms::Communicating,
        }
    }

    // When a block could not be sent.
    pub(crate) fn failed(self) -> HostComms
        ensures { result ≡ failed_comms self }
    {
        match self {
            HostComms::Disabled => HostComms::Disabled,
            HostComms::NotCommunicating => HostComms::NotCommunicating,
            HostComms::Communicating => HostComms::NotCommunicating,
        }
    }

    pub(crate) fn is_disabled(self) -> bool
        ensures { result ≡ is_disabled self }
    {
        match self {
            HostComms::Disabled => true,
            HostComms::NotCommunicating | HostComms::Communicating => false,
        }
    }

    fn name(self) -> CommsName
        ensures { result ≡ comms_name self }
    {
        match self {
            HostComms::Disabled => CommsName::Disabled,
            HostComms::NotCommunicating => CommsName::NotCommunicating,
            HostComms::Communicating => CommsName::Communicating,
        }
    }
}

// Notes the state, where it has changed.
pub(crate) fn note_comms(
    alloc: Global,
    before: HostComms,
    after: HostComms,
    out: &mut StepOut,
) -> Result<(), NoMemory>
    ensures notes { IfOk result
        (λ done. (e : EndView Kind) → AreCarried (notes_comms before after e) e out.old e out.new) }
    ensures line { out.new.line ≡ out.old.line }
{
    match (before, after) {
        (HostComms::Disabled, HostComms::Disabled) => return Ok(()),
        (HostComms::NotCommunicating, HostComms::NotCommunicating) => return Ok(()),
        (HostComms::Communicating, HostComms::Communicating) => return Ok(()),
        _ => {}
    }
    out.notes.push(comms_note(alloc, after.name())?)
}
