//! One wait over several descriptors. Each is watched anew once a wait has found it ready, unless all that was there was
//! read.

use gl_base::NoMemory;
use mio::unix::SourceFd;
use mio::{Events, Interest, Poll, Token};
use std::alloc::Global;
use std::io;
use std::io::ErrorKind;
use std::net::Net;
use std::os::fd::RawFd;
use std::time::Duration;

/// What is watched.
#[derive(Clone, Copy, PartialEq, Eq)]
pub(crate) enum Watched {
    /// Peers that call.
    Calls,
    /// The peer's characters.
    Characters,
    Input,
}

impl Watched {
    fn token(self) -> Token {
        match self {
            Watched::Calls => Token(0),
            Watched::Characters => Token(1),
            Watched::Input => Token(2),
        }
    }
}

/// The system's wait over what is watched, and what it has found ready.
#[derive(Drop)]
pub(crate) struct Watch {
    poll: Poll,
    ready: Events,
}

/// Room for what one wait finds ready.
pub(crate) fn room(alloc: Global) -> Result<Events, NoMemory> {
    Ok(Events::with_capacity(alloc, 3)?)
}

impl Watch {
    pub(crate) fn new<R: Net>(net: &R, ready: Events) -> io::Result<Watch> {
        let poll = Poll::new(net)?;
        Ok(Watch { poll, ready })
    }

    /// Watches a descriptor from now on, so that the next wait finds it ready also where nothing changes any more. One
    /// that no wait has found ready since stays watched. Tells whether it can be waited for: a file can't, and is
    /// always ready.
    pub(crate) fn add(&self, fd: RawFd, what: Watched) -> io::Result<bool> {
        let mut source = SourceFd(&fd);
        let registry = self.poll.registry();
        let again = registry.reregister(&mut source, what.token(), Interest::READABLE);
        let answer = match again {
            Err(error) if error.kind() == ErrorKind::NotFound => {
                registry.register(&mut source, what.token(), Interest::READABLE)
            }
            other => other,
        };
        match answer {
            Ok(()) => Ok(true),
            Err(error) if error.kind() == ErrorKind::PermissionDenied => Ok(false),
            Err(error) => Err(error),
        }
    }

    /// Waits until one of them is ready, or for so many milliseconds, or shorter.
    pub(crate) fn wait(&mut self, wait: u64) -> io::Result<()> {
        self.poll
            .poll(&mut self.ready, Some(Duration::from_millis(wait)))
    }

    /// Whether the last wait found it ready.
    pub(crate) fn is_ready(&self, what: Watched) -> bool {
        self.ready.iter().any(|event| event.token() == what.token())
    }

    /// Whether the last wait found that no more will come to it than is there.
    pub(crate) fn has_ended(&self, what: Watched) -> bool {
        self.ready.iter().any(|event| event.token() == what.token() && event.is_read_closed())
    }
}
