//! A link that is given up.
use node_core::CoreFault;
use node_threads::*;
use policy_audit::{Reply, Rule};

// It has no contract and is given the answer, so that a check doesn't go by cases on what follows.
fn next(retreat: &mut Retreat, answer: Result<&Reply, CallFault>) -> RetreatStep {
    retreat.next(&answer)
}

/// An answer to a Lost, and what follows on it.
struct Answer {
    fault: CallFault,
    step: RetreatStep,
}

/// The answers behind 63 wants of memory.
static ANSWERS: [Answer; 5] = [
    Answer {
        fault: CallFault::Core(CoreFault::Refused(Rule::EntriesFull)),
        step: RetreatStep::Full,
    },
    Answer {
        fault: CallFault::Core(CoreFault::Refused(Rule::NoSuchLink)),
        step: RetreatStep::Settled,
    },
    Answer {
        fault: CallFault::StrangePass,
        step: RetreatStep::Settled,
    },
    Answer {
        fault: CallFault::Core(CoreFault::OutOfMemory),
        step: RetreatStep::Stuck,
    },
    Answer {
        fault: CallFault::Core(CoreFault::OutOfMemory),
        step: RetreatStep::Stuck,
    },
];

/// Whether each of so many wants is tried again.
fn are_tried_again(retreat: &mut Retreat, wants: u32) -> bool {
    for _ in 0..wants {
        if next(retreat, Err(CallFault::Core(CoreFault::OutOfMemory))) != RetreatStep::Again {
            return false;
        }
    }
    true
}

#[test]
fn a_retreat_ends_at_the_64th_want(rt: HostRuntime) {
    let mut retreat = Retreat::new();
    let are_tried = are_tried_again(&mut retreat, 63);
    assert!(rt; are_tried && next(&mut retreat, Ok(&Reply::Done)) == RetreatStep::Settled);
    for answer in &ANSWERS {
        assert!(rt; next(&mut retreat, Err(answer.fault)) == answer.step);
    }
}
