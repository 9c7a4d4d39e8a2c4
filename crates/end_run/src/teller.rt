//! What tells an end its commands as they come, beside its link: a trait, so that one run is proved for all of them.

ghost use Rattle.std.specs.Prelude.{◌≡◌, ◌≢◌, ◌<◌, ◌^◌, IfOk, List, Option};
ghost use Rattle.gl_base.specs.Events.{moment_after};
ghost use Rattle.gl_base.specs.Link.{HasPollCause, IsToldAnswer, told_after_poll};
ghost use Rattle.gl_base.specs.declared.link.LinkIn.TheVariants as answer;
ghost use Rattle.end_run.specs.Acts.{MayAnswer};
ghost use Rattle.end_run.specs.Commands.{IsTaken, Telling, is_any};
ghost use Rattle.end_run.specs.Told.{Brings, IfNext, IsNext, telling_of};

use gl_base::{Link, LinkIn, NoMemory};
use std::alloc::Global;

/// What an end is told next.
#[derive(Drop)]
pub enum Told<'a, C> {
    /// A command, and what is replied behind the lines of its step.
    Command(&'a C, &'a [u8]),
    /// A text to be written, and nothing to be done.
    Text(&'a [u8]),
    /// The end stops.
    Stop,
}

/// What tells an end its commands as they come, while it waits for a link.
pub trait Teller<L: Link> {
    /// A command of the end.
    type Command;

    // What will have come by each answer to come, where it is told; what has come by the last answer and wasn't told
    // yet; what it stands at; and which commands come.
    ghost to_come: { Self → Option (List (List (Telling Self.Command))) };

    ghost here: { Self → List (Telling Self.Command) };

    ghost at: { Self → Telling Self.Command };

    ghost takes: { Self.Command → Type 0 };

    /// Waits as a poll of the link does, but no longer than until something has come, and never tells that the peer
    /// has closed the connection. What has come by its answer is there then.
    fn wait(&mut self, link: &mut L, until: u64) -> LinkIn
        requires { until < 2 ^ 62 }
        ensures next { IsToldAnswer (L.told link.old) result }
        ensures told { L.told link.new ≡ told_after_poll until result (L.told link.old) }
        ensures time { MayAnswer (is_any (here self.new)) until (L.moment link.old) result }
        ensures moment { L.moment link.new ≡ moment_after (L.moment link.old) result }
        ensures connected { L.connected link.new ≡ L.connected link.old }
        ensures cause { HasPollCause (L.health link.old) (L.health link.new) result }
        ensures open { result ≢ answer.Closed }
        ensures came { Brings (to_come self.old) (here self.new) (to_come self.new) };

    /// Goes to the next of what has come. Tells whether there is one.
    fn next(&mut self, alloc: Global) -> Result<bool, NoMemory>
        ensures next { IfOk result (IsNext (here self.old) (at self.new) (here self.new)) }
        ensures takes { IfOk result (λ is. IfNext is (IsTaken takes (at self.new))) }
        ensures coming { to_come self.new ≡ to_come self.old };

    /// What it stands at.
    fn told(&self) -> Told<'_, Self::Command>
        ensures { telling_of result ≡ at self.now };
}
