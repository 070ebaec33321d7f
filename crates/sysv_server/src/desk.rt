//! Where the state of a server is shown.
ghost use Rattle.sysv_engine.specs.Looks.{Looks};

use crate::listening::Listens;
use crate::visitor::{View, Visitor};
use std::os::unix::net::UnixListener;
use std::sync::Wait;
use sysv_engine::Rows;
use sysv_system::{Event, Watched, present_seconds};

/// Where the state of a server is shown: a second socket, which the thread that accepts connections
/// serves between two connections, one reader at a time. A reader that is slow or silent is given
/// up after a while, and delays only other readers.
#[derive(Drop)]
pub(crate) struct Desk {
    listener: Option<UnixListener>,
    visitor: Option<Visitor>,
    /// The time at which the server started, in seconds since 1970.
    started: u64,
}

impl Desk {
    /// Creates a desk without a socket, of a server that starts now.
    pub(crate) fn closed() -> Desk {
        Desk {
            listener: None,
            visitor: None,
            started: present_seconds(),
        }
    }

    /// Returns the time at which the server started, in seconds since 1970.
    pub(crate) fn started(&self) -> u64 {
        self.started
    }

    /// Has readers come through this listener, if there is one.
    pub(crate) fn open(&mut self, listener: Option<UnixListener>) {
        self.listener = listener;
    }

    /// Returns the next thing that happens here.
    pub(crate) fn awaited(&self) -> Event {
        match (&self.visitor, &self.listener) {
            (Some(visitor), _) => visitor.awaited(),
            (None, Some(listener)) => Event::readable(Watched::of(listener)),
            (None, None) => Event::readable(Watched::NONE),
        }
    }

    /// Returns the number of milliseconds for which that may be awaited, or `None` for any time.
    pub(crate) fn limit(&self) -> Option<u64> {
        match &self.visitor {
            Some(visitor) => Some(visitor.left()),
            None => None,
        }
    }

    /// Serves the reader, if there is one, or lets in the next one if one has come.
    #[tactic(auto, using(sysv_engine::proofs::Looking::looks_stay))]
    pub(crate) fn go_on<L: Listens, R: Wait>(
        &mut self,
        has_come: bool,
        view: View<'_>,
        listener: &L,
        rows: &mut Rows<'_, R>,
    )
        ensures { Looks rows.old rows.new }
    {
        if self.visitor.is_none() && has_come {
            self.visitor = self.let_in();
        }
        let Some(visitor) = &mut self.visitor else {
            return;
        };
        if !visitor.go_on(view, listener, rows) {
            self.visitor = None;
        }
    }

    /// Lets in the next reader.
    fn let_in(&self) -> Option<Visitor> {
        let (stream, _address) = self.listener.as_ref()?.accept().ok()?;
        Visitor::new(stream)
    }
}
