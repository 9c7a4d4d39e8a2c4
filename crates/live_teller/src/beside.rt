//! What comes beside a link: a trait, so that one run is proved for all of it.

ghost use Rattle.std.specs.Prelude.{◌≡◌, ◌≢◌, ◌<◌, ◌^◌, ℕ, Bool, List, Option, false};
ghost use Rattle.gl_base.specs.Events.{moment_after};
ghost use Rattle.gl_base.specs.Link.{HasPollCause, IsToldAnswer, told_after_poll};
ghost use Rattle.gl_base.specs.declared.link.LinkIn.TheVariants as answer;
ghost use Rattle.end_run.specs.Acts.{MayAnswer};
ghost use Rattle.live_teller.specs.Callers.{CallerIs};
ghost use Rattle.live_teller.specs.Came.{Came};
ghost use Rattle.live_teller.specs.Tellings.{HasCome};

use gl_base::{Link, LinkIn};
use live_commands::CommandReader;

/// News of who is at the line.
#[derive(Clone, Copy)]
pub enum Caller<'a> {
    /// A host that has called from this address.
    Host(&'a [u8]),
    /// None any more.
    Nobody,
}

/// Input of commands, and news of who is at the line, which come while a tool waits for its link.
pub trait Beside<L: Link> {
    // What will have come with each answer to come, where it is told; the news of who is at the line that has come with
    // the last one, whether the input has ended with it, and the bytes among which its reader is; and how many reads of
    // the input have failed.
    ghost to_come: { Self → Option (List Came) };

    ghost host: { Self → Option (Option (List ℕ)) };

    ghost ended: { Self → Bool };

    ghost bytes: { Self → List ℕ };

    ghost faults: { Self → ℕ };

    /// Waits as a poll of the link does, but no longer than until a line has come that isn't passed over, or the input
    /// has ended, or there is news of the line; and never tells that the peer has closed the connection. What has come
    /// by its answer is there then, and the reader has begun to read it. Where it fails for the input, a fault of that
    /// is counted as well.
    fn wait(&mut self, link: &mut L, reader: &mut CommandReader, until: u64) -> LinkIn
        requires until { until < 2 ^ 62 }
        requires read { reader.old.found ≡ false }
        ensures next { IsToldAnswer (L.told link.old) result }
        ensures told { L.told link.new ≡ told_after_poll until result (L.told link.old) }
        ensures moment { L.moment link.new ≡ moment_after (L.moment link.old) result }
        ensures connected { L.connected link.new ≡ L.connected link.old }
        ensures cause { HasPollCause (L.health link.old) (L.health link.new) result }
        ensures open { result ≢ answer.Closed }
        ensures came { HasCome
            (to_come self.old)
            (to_come self.new)
            reader.old.here
            reader.new
            (host self.new)
            (ended self.new)
            (bytes self.new)
            (λ any. MayAnswer any until (L.moment link.old) result) };

    /// The bytes among which the reader is.
    fn bytes(&self) -> &[u8]
        ensures { result.now ≡ bytes self.now };

    /// Whether the input has ended with the last answer.
    fn has_ended(&self) -> bool
        ensures { result ≡ ended self.now };

    /// The news of who is at the line, if it has come with the last answer; an address has 64 bytes at most.
    fn caller(&self) -> Option<Caller<'_>>
        ensures { CallerIs (host self.now) result };

    /// How many reads of the input have failed.
    fn faults(&self) -> u64
        ensures { result ≡ faults self.now };
}
