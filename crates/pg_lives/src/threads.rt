//! The threads that serve the links of a life.
use crate::life::{LANES, Site};
use node_net::{Arrivals, Host, Lanes, start_accepting, start_dialling};
use pg_hub::Hub;
use std::thread::Scope;

/// Which threads of a life's links are made. Those that couldn't be, since the system had none for
/// a moment, are made later.
#[derive(Drop)]
pub(crate) struct LinkThreads {
    /// The number of the first peer to dial that has none.
    dialled: u64,
    /// How many take connections of peers, and of stock nodes.
    takers: usize,
    otp_takers: usize,
    are_lacking: bool,
    /// How often one couldn't be made.
    failures: u64,
}

impl LinkThreads {
    pub(crate) fn none() -> LinkThreads {
        LinkThreads {
            dialled: 0,
            takers: 0,
            otp_takers: 0,
            are_lacking: false,
            failures: 0,
        }
    }

    /// Whether one couldn't be made, and isn't yet.
    pub(crate) fn are_lacking(&self) -> bool {
        self.are_lacking
    }

    /// How often one couldn't be made.
    pub(crate) fn failures(&self) -> u64 {
        self.failures
    }

    /// Makes those that there are to be and aren't, as far as they can be made.
    pub(crate) fn make<'s, E: 's, R: Host + 's>(
        &mut self,
        scope: &'s Scope<'s, E>,
        rt: &'s R,
        site: Site<'s>,
        lanes: &'s Lanes<'s>,
    ) {
        let hub = site.hub;
        let are_dialled = self.dial(scope, rt, hub, lanes);
        let takers = &mut self.takers;
        let are_taken = make_takers(scope, rt, hub, site.arrivals, lanes, takers);
        let takers = &mut self.otp_takers;
        let are_otp_taken = make_takers(scope, rt, hub, site.otp_arrivals, lanes, takers);
        self.are_lacking = !(are_dialled && are_taken && are_otp_taken);
        if self.are_lacking {
            self.failures = self.failures.saturating_add(1);
        }
    }

    /// Makes one for each peer to dial that has none: whether all could be made.
    fn dial<'s, E: 's, R: Host + 's>(
        &mut self,
        scope: &'s Scope<'s, E>,
        rt: &'s R,
        hub: &'s Hub,
        lanes: &'s Lanes<'s>,
    ) -> bool {
        for _ in rt.forever() {
            let (target, behind) = match hub.targets.next_from(rt, self.dialled) {
                Ok(Some(next)) => next,
                Ok(None) => return true,
                Err(_) => return false,
            };
            if !start_dialling(scope, rt, hub.alloc, &hub.node, lanes, target) {
                return false;
            }
            self.dialled = behind;
        }
        unreachable!()
    }
}

/// Makes those that take connections of peers, of which there are so many: whether all are there.
fn make_takers<'s, E: 's, R: Host + 's>(
    scope: &'s Scope<'s, E>,
    rt: &'s R,
    hub: &'s Hub,
    arrivals: Option<&'s Arrivals>,
    lanes: &'s Lanes<'s>,
    takers: &mut usize,
) -> bool {
    let Some(arrivals) = arrivals else {
        return true;
    };
    for _ in *takers..LANES {
        if !start_accepting(scope, rt, hub.alloc, &hub.node, lanes, arrivals) {
            return false;
        }
        *takers = takers.saturating_add(1);
    }
    true
}
