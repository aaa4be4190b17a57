//! Short texts in UTF-8. Contracts see each as its bytes.
ghost use Rattle.std.specs.Prelude.{◌≡◌, ℕ, List, [], IfOk, IsUtf8, string_bytes};

use std::alloc::{AllocError, Global};
use std::marker::Model;

/// The text of a map in a commit's metadata.
#[derive(Debug, Drop)]
pub struct MapText {
    text: String,
}

impl Model for MapText {
    ghost Value = { List ℕ };

    ghost view = { λ t. string_bytes t.text };
}

impl MapText {
    /// The empty text, which is no map. Takes no memory.
    pub fn empty(alloc: Global) -> MapText
        ensures { result ≡ [] }
    {
        MapText {
            text: String::new(alloc),
        }
    }

    /// A copy of the text. The only error is want of memory.
    pub fn from_str(alloc: Global, text: &str) -> Result<MapText, AllocError>
        ensures { IfOk result (λ t. t ≡ text.now) }
    {
        Ok(MapText {
            text: String::from_str(alloc, text)?,
        })
    }

    /// The text, lent.
    pub fn as_str(&self) -> &str
        ensures { result.now ≡ self.now }
    {
        self.text.as_str()
    }
}

/// The name of a key of a configuration.
#[derive(Debug, Drop)]
pub struct KeyText {
    text: String,
}

impl Model for KeyText {
    ghost Value = { List ℕ };

    ghost view = { λ t. string_bytes t.text };
}

impl KeyText {
    /// A copy of the text. The only error is want of memory.
    pub fn from_str(alloc: Global, text: &str) -> Result<KeyText, AllocError>
        ensures { IfOk result (λ t. t ≡ text.now) }
    {
        Ok(KeyText {
            text: String::from_str(alloc, text)?,
        })
    }

    /// The text, lent.
    pub fn as_str(&self) -> &str
        ensures { result.now ≡ self.now }
    {
        self.text.as_str()
    }
}

/// The name of a file.
#[derive(Debug, Drop)]
pub struct NameText {
    text: String,
}

impl Model for NameText {
    ghost Value = { List ℕ };

    ghost view = { λ t. string_bytes t.text };
}

impl NameText {
    /// A copy of the text. The only error is want of memory.
    pub fn from_str(alloc: Global, text: &str) -> Result<NameText, AllocError>
        ensures { IfOk result (λ t. t ≡ text.now) }
    {
        Ok(NameText {
            text: String::from_str(alloc, text)?,
        })
    }

    /// The text, lent.
    pub fn as_str(&self) -> &str
        ensures { result.now ≡ self.now }
    {
        self.text.as_str()
    }
}
