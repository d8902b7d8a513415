//! Reads the signals of a node.
ghost use Rattle.std.specs.Prelude.{◌≡◌, ◌≢◌, ℕ, List, IfOk, IfErr, IfSome};
ghost use Rattle.otp_edge.specs.Bodies.{IsBody};
ghost use Rattle.otp_edge.specs.Signals.{IsSignal, Says, HasControl, HasTooMany, SaysTooMany};
ghost use Rattle.otp_edge.specs.declared.fault.HearFault.TheVariants as faults;

use crate::body::{Control, control_at, message_at, open_body};
use crate::fault::HearFault;
use crate::group::only_atom;
use crate::hearing::hear;
use crate::meaning::Said;
use crate::process::only_member;
use crate::signal::Signal;
use std::alloc::Global;

/// Reads a body, without the length before it. `NoMessage` where it is none: its link has to end.
pub fn read_signal(alloc: Global, body: &[u8]) -> Result<Signal<'_>, HearFault>
    ensures found { IfOk result (λ signal. IsSignal signal body.now) }
    ensures refused { IfErr result (λ fault. fault ≡ faults.NoMessage →
        (control behind : List ℕ) → IsBody control behind body.now → ⊥) }
    ensures too_many { IfErr result (λ fault. fault ≡ faults.TooManyRows → SaysTooMany body.now) }
{
    let Some(opened) = open_body(body) else {
        return Err(HearFault::NoMessage);
    };
    match control_at(opened.control) {
        Some(control) => signal_of(alloc, &control, opened.behind),
        None => Ok(Signal::Other),
    }
}

/// The signal of a control message, and of what stands behind it.
fn signal_of<'a>(
    alloc: Global,
    control: &Control<'a>,
    behind: &'a [u8],
) -> Result<Signal<'a>, HearFault>
    ensures found { (body : List ℕ) → HasControl control.now.arity control.now.operation
        control.now.first.now control.now.second.now control.now.rest.now behind.now body →
        IfOk result (λ signal. IsSignal signal body) }
    ensures refused { IfErr result (λ fault. fault ≢ faults.NoMessage) }
    ensures too_many { IfErr result (λ fault. fault ≡ faults.TooManyRows →
        HasTooMany behind.now) }
{
    match (control.arity, control.operation) {
        (3, 2) => sent(alloc, control, behind),
        (4, 6) => named(alloc, control, behind),
        _ => Ok(other_signal(control)),
    }
}

/// SEND: to a process.
fn sent<'a>(alloc: Global, control: &Control<'a>, behind: &'a [u8]) -> Result<Signal<'a>, HearFault>
    requires arity { control.now.arity ≡ 3 }
    requires operation { control.now.operation ≡ 2 }
    ensures found { (body : List ℕ) → HasControl control.now.arity control.now.operation
        control.now.first.now control.now.second.now control.now.rest.now behind.now body →
        IfOk result (λ signal. IsSignal signal body) }
    ensures refused { IfErr result (λ fault. fault ≢ faults.NoMessage) }
    ensures too_many { IfErr result (λ fault. fault ≡ faults.TooManyRows →
        HasTooMany behind.now) }
{
    let Some(to) = only_member(alloc, control.second)? else {
        return Ok(Signal::Other);
    };
    match said_in(alloc, behind)? {
        Some(said) if control.rest.is_empty() => Ok(Signal::Said(to, said)),
        _ => Ok(Signal::Other),
    }
}

/// REG_SEND: to a name.
fn named<'a>(
    alloc: Global,
    control: &Control<'a>,
    behind: &'a [u8],
) -> Result<Signal<'a>, HearFault>
    requires arity { control.now.arity ≡ 4 }
    requires operation { control.now.operation ≡ 6 }
    ensures found { (body : List ℕ) → HasControl control.now.arity control.now.operation
        control.now.first.now control.now.second.now control.now.rest.now behind.now body →
        IfOk result (λ signal. IsSignal signal body) }
    ensures refused { IfErr result (λ fault. fault ≢ faults.NoMessage) }
    ensures too_many { IfErr result (λ fault. fault ≡ faults.TooManyRows →
        HasTooMany behind.now) }
{
    let Some(name) = only_atom(control.rest) else {
        return Ok(Signal::Other);
    };
    if let Some(said) = said_in(alloc, behind)? {
        return Ok(Signal::Named(name, said));
    }
    match message_at(behind) {
        Some(message) => Ok(Signal::Asked(name, message)),
        None => Ok(Signal::Other),
    }
}

/// What isn't a message.
fn other_signal<'a>(control: &Control<'a>) -> Signal<'a>
    ensures { (behind body : List ℕ) → HasControl control.now.arity control.now.operation
        control.now.first.now control.now.second.now control.now.rest.now behind body →
        IsSignal result body }
{
    let (first, second, rest) = (control.first, control.second, control.rest);
    match (control.arity, control.operation) {
        (3, 1) if rest.is_empty() => Signal::Link(first, second),
        (4, 19) => Signal::Monitor(first, second, rest),
        (4, 20) => Signal::Demonitor(first, second, rest),
        (5, 21) => Signal::MonitorExit(first, second),
        (4, 35) => Signal::Unlink(first, second, rest),
        _ => Signal::Other,
    }
}

/// What a process of a scope says behind a control message.
fn said_in(alloc: Global, behind: &[u8]) -> Result<Option<Said>, HearFault>
    ensures found { IfOk result (λ read. IfSome read (λ said. Says said behind.now)) }
    ensures refused { IfErr result (λ fault. fault ≢ faults.NoMessage) }
    ensures too_many { IfErr result (λ fault. fault ≡ faults.TooManyRows →
        HasTooMany behind.now) }
{
    let Some(message) = message_at(behind) else {
        return Ok(None);
    };
    match hear(alloc, message) {
        Ok(said) => Ok(Some(said)),
        Err(HearFault::NoMessage) => Ok(None),
        Err(fault) => Err(fault),
    }
}
