//! Numbers by their texts.
ghost use Rattle.std.specs.Prelude.{◌≡◌, IfOk};
ghost use Rattle.json_tree.specs.Numbers.{IsNumber};

use containers::Text;
use std::alloc::{AllocError, Global};
use std::marker::Model;

/// The text of a JSON number (RFC 8259, section 6).
#[derive(Drop)]
pub struct Number {
    text: Text,
}

impl Model for Number {
    ghost use Rattle.std.specs.Prelude.{List, ℕ};
    ghost use Rattle.json_tree.specs.Numbers.{IsNumber};

    ghost Value = { List ℕ };

    ghost view = { λ n. n.text };

    ghost invariant = { λ n. IsNumber n.text };
}

impl Number {
    /// This text, in its own memory.
    pub fn of(text: Text) -> Number
        requires { IsNumber text }
        ensures { result ≡ text }
    {
        Number { text }
    }

    /// Its text, as it was written.
    pub fn as_str(&self) -> &str
        ensures text { result.now ≡ self.now }
        ensures number { IsNumber self.now }
    {
        self.text.as_str()
    }

    /// An equal number.
    pub fn copy(&self, alloc: Global) -> Result<Number, AllocError>
        ensures { IfOk result (λ n. n ≡ self.now) }
    {
        Ok(Number {
            text: self.text.copy(alloc)?,
        })
    }
}
