//! Properties of one's own (2.2.2.2, 1.5).

ghost use Rattle.std.specs.Prelude.{◌≡◌, IfOk};
ghost use Rattle.mqtt_props.specs.Properties.{IsProp, FitsValue};
ghost use Rattle.mqtt_props.specs.Views.{value_of, prop_of, owned_value, owned_prop};

use crate::table::PropName;
use crate::value::{PropRef, ValueRef};
use mqtt_base::{Blob, Pair, Text};
use std::alloc::{AllocError, Global};

/// A value of one's own.
#[derive(Debug, PartialEq, Eq, Drop)]
pub enum Value {
    /// One byte.
    Byte(u8),
    /// A Two Byte Integer (1.5.2).
    U16(u16),
    /// A Four Byte Integer (1.5.3).
    U32(u32),
    /// A Variable Byte Integer, at most 268,435,455 (1.5.5).
    VarInt(u32),
    /// A UTF-8 Encoded String (1.5.4).
    Text(Text),
    /// Binary Data (1.5.6).
    Binary(Blob),
    /// A UTF-8 String Pair (1.5.7).
    Pair(Pair),
}

/// A property of one's own: its name, and a value.
#[derive(Debug, PartialEq, Eq, Drop)]
pub struct Prop {
    /// Its name.
    pub name: PropName,
    /// Its value, in a block of the kind that the table says.
    pub value: Value,
}

impl Value {
    /// The same value, lent.
    pub fn lend(&self) -> ValueRef<'_>
        ensures { value_of result ≡ owned_value self.now }
    {
        match self {
            Value::Byte(n) => ValueRef::Byte(*n),
            Value::U16(n) => ValueRef::U16(*n),
            Value::U32(n) => ValueRef::U32(*n),
            Value::VarInt(n) => ValueRef::VarInt(*n),
            Value::Text(text) => ValueRef::Text(text.as_str()),
            Value::Binary(blob) => ValueRef::Binary(blob.as_slice()),
            Value::Pair(pair) => ValueRef::Pair(pair.name.as_str(), pair.value.as_str()),
        }
    }
}

impl Prop {
    /// The same property, lent.
    pub fn lend(&self) -> PropRef<'_>
        ensures { prop_of result ≡ owned_prop self.now }
    {
        PropRef {
            name: self.name,
            value: self.value.lend(),
        }
    }
}

impl ValueRef<'_> {
    /// An owned copy.
    pub fn to_value(&self, alloc: Global) -> Result<Value, AllocError>
        requires { FitsValue (value_of self.now) }
        ensures { IfOk result (λ value. owned_value value ≡ value_of self.now) }
    {
        Ok(match *self {
            ValueRef::Byte(n) => Value::Byte(n),
            ValueRef::U16(n) => Value::U16(n),
            ValueRef::U32(n) => Value::U32(n),
            ValueRef::VarInt(n) => Value::VarInt(n),
            ValueRef::Text(text) => Value::Text(Text::new(alloc, text)?),
            ValueRef::Binary(blob) => Value::Binary(Blob::new(alloc, blob)?),
            ValueRef::Pair(key, text) => Value::Pair(Pair::new(alloc, key, text)?),
        })
    }
}

impl PropRef<'_> {
    /// An owned copy.
    pub fn to_prop(&self, alloc: Global) -> Result<Prop, AllocError>
        requires { IsProp (prop_of self.now) }
        ensures { IfOk result (λ prop. owned_prop prop ≡ prop_of self.now) }
    {
        Ok(Prop {
            name: self.name,
            value: self.value.to_value(alloc)?,
        })
    }
}
