// Names and quoted texts, which are valid by their types.

ghost use Rattle.std.specs.Prelude.{◌≡◌, ◌∷◌, ◌++◌, true, false, decimal, string_bytes, IfOk};
ghost use Rattle.verilog_tree.specs.Spelling.{is_name, is_quoted, all_pass, is_name_byte};

use std::alloc::{AllocError, Global};
use std::marker::Model;

/// A name of a module, a port, a wire, a register, a memory or an instance.
///
/// A letter or `_`, then letters, digits and `_`, and no word of the grammar (IEEE 1364-2005, 3.7 simple
/// identifiers). Contracts see its bytes.
pub struct Identifier {
    text: String,
}

impl Model for Identifier {
    ghost use Rattle.std.specs.Prelude.{◌≡◌, true, List, ℕ, string_bytes};
    ghost use Rattle.verilog_tree.specs.Spelling.{is_name};

    ghost Value = { List ℕ };

    ghost view = { λ n. string_bytes n.text };

    ghost invariant = { λ n. is_name (string_bytes n.text) ≡ true };
}

impl Identifier {
    /// The name that this text is.
    pub fn from_string(text: String) -> Identifier
        requires { is_name (string_bytes text) ≡ true }
        ensures { result ≡ string_bytes text }
    {
        Identifier { text }
    }

    /// A copy of a text that is a name.
    pub fn from_text(alloc: Global, text: &str) -> Result<Identifier, AllocError>
        requires { is_name text.now ≡ true }
        ensures { IfOk result (λ name. name ≡ text.now) }
    {
        Ok(Identifier {
            text: String::from_str(alloc, text)?,
        })
    }

    /// The text.
    pub fn as_str(&self) -> &str
        ensures bytes { result.now ≡ self.now }
        ensures name { is_name self.now ≡ true }
    {
        self.text.as_str()
    }

    /// This name, `_` and the suffix.
    pub fn with_suffix(&self, suffix: &str) -> Result<Identifier, AllocError>
        requires { all_pass is_name_byte suffix.now ≡ true }
        ensures { IfOk result (λ name. name ≡ self.now ++ 95 ∷ suffix.now) }
    {
        let mut text = self.text.clone()?;
        text.push_str("_")?;
        text.push_str(suffix)?;
        Ok(Identifier { text })
    }

    /// This name, `_` and the number in minimal decimals.
    pub fn with_number(&self, alloc: Global, number: u64) -> Result<Identifier, AllocError>
        ensures { IfOk result (λ name. name ≡ self.now ++ 95 ∷ decimal number) }
    {
        let suffix = number.to_string(alloc)?;
        self.with_suffix(suffix.as_str())
    }
}

impl Clone for Identifier {
    ghost is_clone = { λ name copy. copy ≡ name };

    fn clone(&self) -> Result<Identifier, AllocError> {
        Ok(Identifier {
            text: self.text.clone()?,
        })
    }
}

/// What stands between the quotes of a string: bytes 0x20 to 0x7E, where a backslash takes the next one with it.
///
/// Contracts see its bytes.
pub struct Quoted {
    inside: String,
}

impl Model for Quoted {
    ghost use Rattle.std.specs.Prelude.{◌≡◌, true, false, List, ℕ, string_bytes};
    ghost use Rattle.verilog_tree.specs.Spelling.{is_quoted};

    ghost Value = { List ℕ };

    ghost view = { λ q. string_bytes q.inside };

    ghost invariant = { λ q. is_quoted false (string_bytes q.inside) ≡ true };
}

impl Quoted {
    /// This text between quotes.
    pub fn from_string(text: String) -> Quoted
        requires { is_quoted false (string_bytes text) ≡ true }
        ensures { result ≡ string_bytes text }
    {
        Quoted { inside: text }
    }

    /// A copy of a text that can stand between quotes.
    pub fn from_text(alloc: Global, text: &str) -> Result<Quoted, AllocError>
        requires { is_quoted false text.now ≡ true }
        ensures { IfOk result (λ quoted. quoted ≡ text.now) }
    {
        Ok(Quoted {
            inside: String::from_str(alloc, text)?,
        })
    }

    /// The text.
    pub fn as_str(&self) -> &str
        ensures bytes { result.now ≡ self.now }
        ensures quoted { is_quoted false self.now ≡ true }
    {
        self.inside.as_str()
    }
}

impl Clone for Quoted {
    ghost is_clone = { λ quoted copy. copy ≡ quoted };

    fn clone(&self) -> Result<Quoted, AllocError> {
        Ok(Quoted {
            inside: self.inside.clone()?,
        })
    }
}

// A drop that is written here is proved here; a derived one is proved again in each crate that drops the type.

impl Drop for Identifier {
    fn drop(self) {
        let Identifier { text: _ } = self;
    }
}

impl Drop for Quoted {
    fn drop(self) {
        let Quoted { inside: _ } = self;
    }
}
