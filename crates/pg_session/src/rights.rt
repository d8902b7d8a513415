//! What a connection may ask for, by the socket that it has come over.
ghost use Rattle.std.specs.Prelude.{◌≡◌, IfOk};
ghost use Rattle.pg_session.specs.Asked.{asked_by};
ghost use Rattle.pg_session.specs.Rights.{allows, allows_asked, watches};

use crate::request::{Request, read_request};
use dist_types::OutOfMemory;
use pg_text::LineFault;
use policy_audit::Event;
use std::alloc::Global;

/// What a connection may ask for.
#[derive(Clone, Copy, Debug, PartialEq, Eq)]
pub enum Rights {
    /// All that there is.
    All,
    /// To read, and to watch by monitors.
    Reads,
}

impl Rights {
    /// Whether a line is let through. One that asks for nothing is: it is answered with its fault.
    pub fn allow(self, alloc: Global, line: &[u8]) -> Result<bool, OutOfMemory>
        ensures { IfOk result (λ may. may ≡ allows_asked self (asked_by line.now)) }
    {
        match read_request(alloc, line) {
            Ok(request) => Ok(self.allow_request(&request)),
            Err(LineFault::Script) => Ok(true),
            Err(LineFault::Memory) => Err(OutOfMemory),
        }
    }

    fn allow_request(self, request: &Request) -> bool
        ensures { result ≡ allows self request.now }
    {
        self == Rights::All || only_reads(request)
    }
}

fn only_reads(request: &Request) -> bool
    ensures { result ≡ allows Rights.Reads request.now }
{
    match request {
        Request::Call(event) => watches(event),
        Request::Change(_) | Request::Quit | Request::Drain => false,
        _ => true,
    }
}

/// Whether a call only begins or ends a monitor.
fn watches(event: &Event) -> bool
    ensures { result ≡ watches event.now }
{
    matches!(
        event,
        Event::Monitor(_, _) | Event::MonitorScope(_) | Event::Demonitor(_)
    )
}
