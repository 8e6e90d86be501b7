//! Texts of one pointer, for places where a text is rare and should not make what holds it larger.
ghost use Rattle.std.specs.Prelude.{◌≡◌, length, IfOk, Contains};

use crate::text::{CText, Text};
use std::alloc::{AllocError, Global};
use std::fmt;
use std::marker::Model;

/// A text in memory of its own.
#[derive(Drop)]
pub struct BoxedText {
    text: Box<Text>,
}

impl Model for BoxedText {
    ghost use Rattle.std.specs.Prelude.{List, ℕ};

    ghost Value = { List ℕ };

    ghost view = { λ t. t.text.value };
}

impl fmt::Debug for BoxedText {
    fn fmt<W: fmt::Write>(&self, f: &mut fmt::Formatter<W>) -> fmt::Result {
        fmt::Debug::fmt(&self.as_str(), f)
    }
}

impl BoxedText {
    /// The text, moved into memory of its own.
    pub fn new(alloc: Global, text: Text) -> Result<BoxedText, AllocError>
        ensures { IfOk result (λ t. t ≡ text) }
    {
        Ok(BoxedText {
            text: Box::new(alloc, text)?,
        })
    }

    /// A copy of this text.
    pub fn of(alloc: Global, text: &str) -> Result<BoxedText, AllocError>
        ensures { IfOk result (λ t. t ≡ text.now) }
    {
        BoxedText::new(alloc, Text::of(alloc, text)?)
    }

    /// The text, lent.
    pub fn text(&self) -> &Text
        ensures { result.now ≡ self.now }
    {
        &self.text
    }

    /// Its characters.
    pub fn as_str(&self) -> &str
        ensures { result.now ≡ self.now }
    {
        self.text().as_str()
    }

    /// The number of bytes.
    pub fn len(&self) -> usize
        ensures { result ≡ length self.now }
    {
        self.text().len()
    }

    /// An equal text.
    pub fn copy(&self, alloc: Global) -> Result<BoxedText, AllocError>
        ensures { IfOk result (λ t. t ≡ self.now) }
    {
        BoxedText::new(alloc, self.text().copy(alloc)?)
    }
}

/// A text without a zero character, in memory of its own.
#[derive(Drop)]
pub struct BoxedCText {
    text: Box<CText>,
}

impl Model for BoxedCText {
    ghost use Rattle.std.specs.Prelude.{List, ℕ};

    ghost Value = { List ℕ };

    ghost view = { λ t. t.text.value };
}

impl fmt::Debug for BoxedCText {
    fn fmt<W: fmt::Write>(&self, f: &mut fmt::Formatter<W>) -> fmt::Result {
        fmt::Debug::fmt(&self.as_str(), f)
    }
}

impl BoxedCText {
    /// The text, moved into memory of its own.
    pub fn new(alloc: Global, text: CText) -> Result<BoxedCText, AllocError>
        ensures { IfOk result (λ t. t ≡ text) }
    {
        Ok(BoxedCText {
            text: Box::new(alloc, text)?,
        })
    }

    /// A copy of a text without a zero byte.
    pub fn of_text(alloc: Global, text: &str) -> Result<BoxedCText, AllocError>
        requires { Contains text.now 0 → ⊥ }
        ensures { IfOk result (λ t. t ≡ text.now) }
    {
        BoxedCText::new(alloc, CText::of_text(alloc, text)?)
    }

    /// The text, lent.
    pub fn text(&self) -> &CText
        ensures { result.now ≡ self.now }
    {
        &self.text
    }

    /// Its characters.
    pub fn as_str(&self) -> &str
        ensures { result.now ≡ self.now }
    {
        self.text().as_str()
    }

    /// The number of bytes.
    pub fn len(&self) -> usize
        ensures { result ≡ length self.now }
    {
        self.text().len()
    }

    /// An equal text.
    pub fn copy(&self, alloc: Global) -> Result<BoxedCText, AllocError>
        ensures { IfOk result (λ t. t ≡ self.now) }
    {
        BoxedCText::new(alloc, self.text().copy(alloc)?)
    }
}
