//! A decision, as it is logged.
use log::Level;
use std::net::{IpAddr, SocketAddr};

/// What stands behind the name of a field.
#[derive(Clone, Copy)]
pub enum Value<'a> {
    Text(&'a str),
    Number(u64),
    Address(SocketAddr),
    /// The field is left out.
    Unknown,
}

/// Something that is known of a decision.
#[derive(Clone, Copy)]
pub struct Field<'a> {
    pub name: &'static str,
    pub value: Value<'a>,
}

impl<'a> Field<'a> {
    /// A field of an address, where one is known.
    pub fn address(name: &'static str, address: Option<SocketAddr>) -> Field<'a> {
        let value = match address {
            Some(address) => Value::Address(address),
            None => Value::Unknown,
        };
        Field { name, value }
    }
}

pub fn text<'a>(name: &'static str, text: &'a str) -> Field<'a> {
    Field {
        name,
        value: Value::Text(text),
    }
}

pub fn number<'a>(name: &'static str, number: u64) -> Field<'a> {
    Field {
        name,
        value: Value::Number(number),
    }
}

/// Who has made a node decide, and by which rule: a line a second is logged of each at most.
#[derive(Clone, Copy, Debug, PartialEq, Eq)]
pub struct Source {
    pub address: Option<IpAddr>,
    pub rule: u32,
}

/// A decision, as it is logged.
#[derive(Clone, Copy)]
pub struct Decision<'a> {
    pub level: Level,
    /// One word.
    pub what: &'static str,
    /// Of one that others can bring about as often as they like.
    pub source: Option<Source>,
    pub fields: &'a [Field<'a>],
}
