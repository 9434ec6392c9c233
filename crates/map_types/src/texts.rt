//! Values: signed numbers of 64 bits, and texts of at most 4,096 bytes.
ghost use Rattle.std.specs.Cmp.Lexicographic.{pointwise};
ghost use Rattle.std.specs.Cmp.Rules.{comparing};
ghost use Rattle.std.proofs.Common.{rules};
ghost use Rattle.map_types.specs.ValueEq.{value_eq};
ghost use Rattle.std.specs.Prelude.{nat_eq, ◌++◌, ◌≡◌, ◌<◌, ◌≤◌, ◌↔◌, IfOk, IfErr, IsOk, IsTrue, length};

use crate::refusals::Refusal;
use std::alloc::Global;
use std::marker::Model;

/// A text of a value, which contracts see as its UTF-8 bytes.
#[derive(Clone, Debug, Drop)]
pub struct Text {
    // In a box, so that a value is small where it is moved.
    text: Box<String>,
}

impl Model for Text {
    ghost use Rattle.std.specs.Prelude.{List, ℕ, ◌≤◌, length};
    ghost use Rattle.std.specs.String.{string_bytes};

    ghost Value = { List ℕ };

    ghost view = { λ text. string_bytes text.text.value };

    ghost invariant = { λ text. length (string_bytes text.text.value) ≤ 4096 };
}

impl Text {
    /// The most bytes that a text may have.
    pub const MOST_BYTES: usize = 4096;

    /// The text with these bytes. Refuses more than 4,096 bytes with `ValueTooLong`, and with
    /// `NoMemory` if no memory is found.
    pub fn new(alloc: Global, text: &str) -> Result<Text, Refusal>
        ensures ok { IfOk result (λ value. value ≡ text.now) }
        ensures ok_only_within { IsOk result → length text.now ≤ 4096 }
        ensures too_long { (result ≡ Err Refusal.ValueTooLong) ↔ (4096 < length text.now) }
        ensures no_other { length text.now ≤ 4096
            → IfErr result (λ refusal. refusal ≡ Refusal.NoMemory) }
    {
        if text.len() > Text::MOST_BYTES {
            return Err(Refusal::ValueTooLong);
        }
        let text = String::from_str(alloc, text)?;
        Ok(Text {
            text: Box::new(alloc, text)?,
        })
    }

    /// This text followed by `tail`, as Java's `String.concat`; the two have at most 4,096 bytes.
    pub fn followed_by(&self, alloc: Global, tail: &Text) -> Result<Text, Refusal>
        requires { length (self.now ++ tail.now) ≤ 4096 }
        ensures ok { IfOk result (λ text. text ≡ self.now ++ tail.now) }
        ensures err { IfErr result (λ refusal. refusal ≡ Refusal.NoMemory) }
    {
        let mut text = String::from_str(alloc, self.as_str())?;
        text.push_str(tail.as_str())?;
        Ok(Text {
            text: Box::new(alloc, text)?,
        })
    }

    pub fn as_str(&self) -> &str
        ensures text { result.now ≡ self.now }
        ensures bound { length self.now ≤ 4096 }
    {
        self.text.as_str()
    }

    /// Whether the bytes are equal.
    pub fn is_same(&self, other: &Text) -> bool
        ensures same { IsTrue result ↔ (self.now ≡ other.now) }
        ensures equal { result ≡ pointwise nat_eq self.now other.now }
    {
        self.as_str() == other.as_str()
    }
}

impl PartialEq for Text {
    ghost eq = { pointwise nat_eq };

    ghost laws = { Prim.search (comparing, rules) };

    fn eq(&self, other: &Text) -> bool {
        self.is_same(other)
    }
}

impl Eq for Text {
    ghost laws = { Prim.search (comparing, rules) };
}

/// A value of the map.
#[derive(Clone, Debug, Drop, PartialEq, Eq)]
pub enum Value {
    Int(i64),
    Text(Text),
}

impl Value {
    /// The value of this text. Refuses as `Text::new` does.
    pub fn text(alloc: Global, text: &str) -> Result<Value, Refusal>
        ensures ok { IfOk result (λ value. value ≡ Value.Text text.now) }
        ensures ok_only_within { IsOk result → length text.now ≤ 4096 }
        ensures too_long { (result ≡ Err Refusal.ValueTooLong) ↔ (4096 < length text.now) }
        ensures no_other { length text.now ≤ 4096
            → IfErr result (λ refusal. refusal ≡ Refusal.NoMemory) }
    {
        Ok(Value::Text(Text::new(alloc, text)?))
    }

    /// Whether kind and content are equal; a number never equals a text.
    pub fn is_same(&self, other: &Value) -> bool
        ensures same { IsTrue result ↔ (self.now ≡ other.now) }
        ensures equal { result ≡ value_eq self.now other.now }
    {
        match (self, other) {
            (Value::Int(a), Value::Int(b)) => *a == *b,
            (Value::Text(a), Value::Text(b)) => a.is_same(b),
            _ => false,
        }
    }
}
