ghost use Rattle.std.specs.Prelude.{◌≡◌, ℕ, ◌<◌, ◌↔◌, List, [], ◌∷◌, ◌++◌, length, nat_eq, slice_get, slice_index, string_bytes, IsTrue, IfOk, OnOk, OnErr};
ghost use Rattle.std.specs.Cmp.{partial_equiv_from_equiv};
ghost use Rattle.std.specs.Cmp.Lexicographic.{pointwise, nat_list_eq_equiv};
ghost use Rattle.std.specs.Str.{chars};

use crate::{OutOfMemory, TryCopy};
use std::alloc::Global;
use std::marker::Model;

/// A growing text. Contracts see it as the list of its characters.
#[derive(Debug, Drop)]
pub struct Text {
    text: String,
}

impl Model for Text {
    ghost Value = { List ℕ };

    ghost view = { λ t. chars (string_bytes t.text) };
}

fn char_count(text: &str) -> usize
    ensures { result ≡ length (chars text.now) }
{
    text.chars().count()
}

fn char_at(text: &str, i: usize) -> Option<char>
    ensures { result ≡ slice_get (chars text.now) i }
{
    text.chars().nth(i)
}

impl Text {
    /// The empty text. It takes no memory.
    pub fn new(alloc: Global) -> Self
        ensures { result ≡ [] }
    {
        Text {
            text: String::new(alloc),
        }
    }

    /// A copy of a text.
    pub fn from_str(alloc: Global, text: &str) -> Result<Self, OutOfMemory>
        ensures { IfOk result (λ t. t ≡ chars text.now) }
    {
        Ok(Text {
            text: String::from_str(alloc, text)?,
        })
    }

    /// The empty text, with room for `capacity` bytes.
    pub fn with_capacity(alloc: Global, capacity: usize) -> Result<Self, OutOfMemory>
        ensures { IfOk result (λ t. t ≡ []) }
    {
        Ok(Text {
            text: String::with_capacity(alloc, capacity)?,
        })
    }

    /// The text of a string, which is moved and not copied.
    pub fn from_string(text: String) -> Self
        ensures { result ≡ chars (string_bytes text) }
    {
        Text { text }
    }

    /// How many characters there are. It takes time in the length.
    pub fn len(&self) -> usize
        ensures { result ≡ length self.now }
    {
        char_count(self.text.as_str())
    }

    pub fn is_empty(&self) -> bool
        ensures { IsTrue result ↔ (self.now ≡ []) }
    {
        self.text.as_str().is_empty()
    }

    /// The character at a place, counted in characters. It takes time in the place.
    pub fn at(&self, i: usize) -> char
        requires { i < length self.now }
        ensures { result ≡ slice_index self.now i }
    {
        char_at(self.text.as_str(), i).unwrap()
    }

    pub fn as_str(&self) -> &str
        ensures { chars result.now ≡ self.now }
    {
        self.text.as_str()
    }

    /// Appends one character.
    pub fn push(&mut self, item: char) -> Result<(), OutOfMemory>
        ensures ok { OnOk result (self.new ≡ self.old ++ item ∷ []) }
        ensures err { OnErr result (self.new ≡ self.old) }
    {
        self.text.push(item)?;
        Ok(())
    }

    /// Appends a text.
    pub fn append(&mut self, text: &str) -> Result<(), OutOfMemory>
        ensures ok { OnOk result (self.new ≡ self.old ++ chars text.now) }
        ensures err { OnErr result (self.new ≡ self.old) }
    {
        self.text.push_str(text)?;
        Ok(())
    }

    /// Drops all characters, and keeps the memory.
    pub fn clear(&mut self)
        ensures { self.new ≡ [] }
    {
        self.text.clear();
    }

    /// The string of the text, which is moved and not copied.
    pub fn into_string(self) -> String
        ensures { chars (string_bytes result) ≡ self }
    {
        let Text { text } = self;
        text
    }

    /// The same text once more.
    pub fn copy(&self) -> Result<Text, OutOfMemory>
        ensures { IfOk result (λ copy. copy ≡ self.now) }
    {
        Ok(Text {
            text: self.text.clone()?,
        })
    }
}

impl TryCopy for Text {
    fn try_copy(&self) -> Result<Text, OutOfMemory> {
        self.copy()
    }
}

impl PartialEq for Text {
    ghost eq = { pointwise nat_eq };

    ghost laws = { partial_equiv_from_equiv nat_list_eq_equiv };

    fn eq(&self, other: &Text) -> bool {
        self.as_str().as_bytes() == other.as_str().as_bytes()
    }
}

impl Eq for Text {
    ghost laws = { nat_list_eq_equiv };
}
