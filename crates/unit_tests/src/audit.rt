//! How rules are printed.
use policy_audit::Rule;
use std::alloc::Global;

/// A rule, as it is printed.
struct Printed(Rule, &'static str);

static RULES: [Printed; 33] = [
    Printed(Rule::EntriesFull, "1 EntriesFull"),
    Printed(Rule::NoSuchLink, "2 NoSuchLink"),
    Printed(Rule::BadFrame, "3 BadFrame"),
    Printed(Rule::NoHandshake23, "4 NoHandshake23"),
    Printed(Rule::DynamicName, "5 DynamicName"),
    Printed(Rule::BadName, "6 BadName"),
    Printed(Rule::OwnName, "7 OwnName"),
    Printed(Rule::WrongName, "8 WrongName"),
    Printed(Rule::NotAllowed, "9 NotAllowed"),
    Printed(Rule::Simultaneous, "10 Simultaneous"),
    Printed(Rule::PeerSaid, "11 PeerSaid"),
    Printed(Rule::BadDigest, "12 BadDigest"),
    Printed(Rule::HiddenLink, "13 HiddenLink"),
    Printed(Rule::NoScope, "14 NoScope"),
    Printed(Rule::NotHeard, "15 NotHeard"),
    Printed(Rule::ForeignPid, "16 ForeignPid"),
    Printed(Rule::NotListed, "17 NotListed"),
    Printed(Rule::RowsFull, "18 RowsFull"),
    Printed(Rule::NotLocal, "19 NotLocal"),
    Printed(Rule::NoProcess, "20 NoProcess"),
    Printed(Rule::NotJoined, "21 NotJoined"),
    Printed(Rule::ScopeRunning, "22 ScopeRunning"),
    Printed(Rule::NoMonitor, "23 NoMonitor"),
    Printed(Rule::LinkUp, "24 LinkUp"),
    Printed(Rule::LinkPending, "25 LinkPending"),
    Printed(Rule::NoLinkTo, "26 NoLinkTo"),
    Printed(Rule::LinksFull, "27 LinksFull"),
    Printed(Rule::ScopesFull, "28 ScopesFull"),
    Printed(Rule::PidsFull, "29 PidsFull"),
    Printed(Rule::AllowFull, "30 AllowFull"),
    Printed(Rule::CookiesFull, "31 CookiesFull"),
    Printed(Rule::CreationSpent, "32 CreationSpent"),
    Printed(Rule::PartOrder, "33 PartOrder"),
];

/// The first rule that is printed otherwise.
fn first_wrong(alloc: Global) -> Option<&'static str> {
    for row in &RULES {
        if !is_printed(alloc, row) {
            return Some(row.1);
        }
    }
    None
}

#[test]
fn prints_each_rule_by_number_and_name(rt: HostRuntime) {
    let wrong = first_wrong(rt.alloc());
    assert!(rt; wrong.is_none(), "{}", wrong.unwrap_or(""));
}

fn is_printed(alloc: Global, row: &Printed) -> bool {
    match format!(in alloc; "{}", row.0) {
        Ok(text) => text.as_str() == row.1,
        Err(_) => false,
    }
}
