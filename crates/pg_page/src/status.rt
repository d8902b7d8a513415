//! The status of a node, as JSON (RFC 8259).
use crate::view::{DialView, LinkView, NodeView, RuleView, ScopeView};
use json::Writer;
use std::alloc::{AllocError, Global};

/// A member's value.
#[derive(Clone, Copy)]
enum Value<'a> {
    Text(&'a str),
    Number(u64),
    Truth(bool),
    /// A number, or null.
    Maybe(Option<u64>),
}

/// What has an object of its own.
trait Object {
    fn put_members(&self, writer: &mut Writer) -> Result<(), AllocError>;
}

/// One object, and a line feed.
pub fn status_json(alloc: Global, view: &NodeView) -> Result<Vec<u8>, AllocError> {
    let mut writer = Writer::new(Vec::new(alloc));
    let put = put_object(view, &mut writer);
    let mut object = writer.into_inner();
    put?;
    object.push(b'\n')?;
    Ok(object)
}

impl Object for NodeView {
    fn put_members(&self, writer: &mut Writer) -> Result<(), AllocError> {
        put_who(self, writer)?;
        put_limited(self, writer)?;
        put_list("links", self.links.as_slice(), writer)?;
        put_list("dials", self.dials.as_slice(), writer)?;
        put_list("scopes", self.scopes.as_slice(), writer)?;
        put_rules(self.rules.as_slice(), writer)
    }
}

fn put_who(view: &NodeView, writer: &mut Writer) -> Result<(), AllocError> {
    let members = [
        ("name", Value::Text(view.name.as_str())),
        ("creation", Value::Number(u64::from(view.creation))),
        ("version", Value::Text(view.version)),
        ("seconds", Value::Number(view.seconds)),
        ("lives", Value::Number(view.lives)),
        ("draining", Value::Truth(view.is_draining)),
        ("memory_wanting", Value::Truth(view.wants_memory)),
        ("bytes", Value::Maybe(view.bytes)),
    ];
    put_all(&members, writer)
}

fn put_limited(view: &NodeView, writer: &mut Writer) -> Result<(), AllocError> {
    let members = [
        ("clients", Value::Number(view.clients)),
        ("clients_max", Value::Number(view.most_clients)),
        ("links_max", Value::Number(view.most_links)),
        ("otp_links", Value::Number(view.otp_links)),
        ("entries", Value::Number(view.entries)),
        ("kept", Value::Number(view.kept)),
        ("kept_max", Value::Number(view.most_kept)),
        ("lost", Value::Number(view.lost)),
        ("archived", Value::Number(view.archived)),
        ("refused", Value::Number(view.refused)),
        ("told", Value::Number(view.told)),
    ];
    put_all(&members, writer)
}

impl Object for LinkView {
    fn put_members(&self, writer: &mut Writer) -> Result<(), AllocError> {
        let members = [
            ("number", Value::Number(u64::from(self.number))),
            ("peer", Value::Text(self.peer.as_str())),
            ("creation", Value::Number(u64::from(self.creation))),
            ("visible", Value::Truth(self.is_visible)),
            ("kind", Value::Text(self.kind)),
            ("address", Value::Text(self.address.as_str())),
            ("seconds", Value::Number(self.seconds)),
            ("waiting", Value::Number(self.waiting)),
        ];
        put_all(&members, writer)
    }
}

impl Object for DialView {
    fn put_members(&self, writer: &mut Writer) -> Result<(), AllocError> {
        let members = [
            ("peer", Value::Text(self.peer.as_str())),
            ("place", Value::Text(self.place.as_str())),
            ("times", Value::Number(self.times)),
            ("next", Value::Maybe(self.next)),
            ("state", Value::Text(self.state)),
        ];
        put_all(&members, writer)
    }
}

impl Object for ScopeView {
    fn put_members(&self, writer: &mut Writer) -> Result<(), AllocError> {
        let members = [
            ("scope", Value::Text(self.name.as_str())),
            ("rows", Value::Number(self.rows)),
        ];
        put_all(&members, writer)
    }
}

/// Adds an array of objects.
fn put_list<T: Object>(name: &str, objects: &[T], writer: &mut Writer) -> Result<(), AllocError> {
    writer.key(name)?;
    writer.begin_array()?;
    for object in objects {
        put_object(object, writer)?;
    }
    writer.end_array()
}

fn put_object<T: Object>(object: &T, writer: &mut Writer) -> Result<(), AllocError> {
    writer.begin_object()?;
    object.put_members(writer)?;
    writer.end_object()
}

/// Adds how often each rule has refused something.
fn put_rules(rules: &[RuleView], writer: &mut Writer) -> Result<(), AllocError> {
    writer.key("refused_by")?;
    writer.begin_object()?;
    for rule in rules {
        put(rule.name, Value::Number(rule.times), writer)?;
    }
    writer.end_object()
}

fn put_all(members: &[(&str, Value<'_>)], writer: &mut Writer) -> Result<(), AllocError> {
    for (name, value) in members {
        put(name, *value, writer)?;
    }
    Ok(())
}

fn put(name: &str, value: Value<'_>, writer: &mut Writer) -> Result<(), AllocError> {
    writer.key(name)?;
    match value {
        Value::Text(text) => writer.string(text),
        Value::Number(number) | Value::Maybe(Some(number)) => writer.u64(number),
        Value::Truth(is_true) => writer.boolean(is_true),
        Value::Maybe(None) => writer.null(),
    }
}
