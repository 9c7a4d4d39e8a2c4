//! Standard input, and who is at a real line, as what comes beside it.

ghost use Rattle.std.specs.Prelude.{◌≡◌, ◌≢◌, ◌<◌, ◌^◌, ◌||◌, [], false, None};
ghost use Rattle.gl_base.specs.Events.{moment_after};
ghost use Rattle.gl_base.specs.Link.{HasPollCause, IsToldAnswer};
ghost use Rattle.gl_base.specs.declared.link.LinkIn.TheVariants as link;
ghost use Rattle.end_run.specs.Acts.{MayAnswer};
ghost use Rattle.gemline_tool.specs.News.{host_of, waits_on};
ghost use Rattle.live_link.specs.Waits.{called_health};
ghost use Rattle.live_teller.specs.Tellings.{HasCome};

use arrayvec::ArrayString;
use gl_base::LinkIn;
use live_commands::CommandReader;
use live_link::{CalledLink, LiveInput};
use live_teller::{Beside, Caller};
use std::fmt::Write;
use std::io::Read;
use std::net::{Net, SocketAddr};
use std::os::fd::AsRawFd;
use std::time::Clock;

/// Input that is read as it comes, beside a line to whoever calls. It tells nothing of its bytes.
#[derive(Drop)]
pub(crate) struct LiveBeside<I> {
    input: LiveInput<I>,
    ended: bool,
    // who is at the line, whether that is news, and from where he has called
    caller: Option<SocketAddr>,
    news: bool,
    address: ArrayString<64>,
}

impl<I> LiveBeside<I> {
    /// Nothing was read yet, and nobody is at the line.
    pub(crate) fn new(source: I) -> LiveBeside<I> {
        LiveBeside {
            input: LiveInput::new(source),
            ended: false,
            caller: None,
            news: false,
            address: ArrayString::new(),
        }
    }

    // Looks who is at the line, and whether the input has ended that had not.
    fn look(&mut self, caller: Option<SocketAddr>, had_ended: bool)
        ensures { self.new.input ≡ self.old.input }
    {
        self.ended = !had_ended && self.input.has_ended();
        self.news = caller != self.caller;
        if !self.news {
            return;
        }
        self.caller = caller;
        self.address.clear();
        if let Some(address) = caller {
            // (each address has less than 64 bytes)
            let _ = write!(self.address, "{address}");
        }
    }
}

// Whether anything has come.
fn is_any(found: bool, news: bool, ended: bool) -> bool
    ensures { result ≡ (found || (news || ended)) }
{
    found || news || ended
}

// Whether a wait goes on behind an answer. One that is quiet and brings nothing is later than the one before, as a
// link's is.
fn waits_on(before: u64, until: u64, any: bool, answer: LinkIn) -> bool
    ensures { result ≡ waits_on before until any answer }
{
    match answer {
        LinkIn::Quiet(moment) => moment < until && moment == before && !any,
        LinkIn::Char(_, _) | LinkIn::Closed | LinkIn::Failed => false,
    }
}

impl<R: Net + Clock, I: Read + AsRawFd> Beside<CalledLink<R>> for LiveBeside<I> {
    ghost to_come = { λ _. None };

    ghost host = { λ b. host_of b.news b.caller b.address.bytes };

    ghost ended = { λ b. b.ended };

    ghost bytes = { λ b. b.input.bytes };

    ghost faults = { λ b. b.input.faults };

    fn wait(&mut self, link: &mut CalledLink<R>, reader: &mut CommandReader, until: u64) -> LinkIn {
        let had_ended = self.input.has_ended();
        let before = link.moment();
        'waits: for _ in 0..u64::MAX {
            let answer = link.wait(&mut self.input, until);
            self.look(link.caller(), had_ended);
            let found = reader.begin(self.input.came());
            let any = is_any(found, self.news, self.ended);
            if !waits_on(before, until, any, answer) {
                return answer;
            }
        }
        link.give_up()
    }

    fn bytes(&self) -> &[u8] {
        self.input.came()
    }

    fn has_ended(&self) -> bool {
        self.ended
    }

    fn caller(&self) -> Option<Caller<'_>> {
        if !self.news {
            return None;
        }
        match self.caller {
            Some(_) => Some(Caller::Host(self.address.as_bytes())),
            None => Some(Caller::Nobody),
        }
    }

    fn faults(&self) -> u64 {
        self.input.faults()
    }
}
