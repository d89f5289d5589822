// The names of globals, as parts of the names of their banks.

ghost use Rattle.std.specs.Prelude.{◌≡◌, true, string_bytes, IfOk};
ghost use Rattle.verilog_tree.specs.Spelling.{all_pass, is_name_byte};

use std::alloc::{AllocError, Global};
use std::marker::Model;

/// The name of a global of C: letters, digits and `_`, as they may stand in a name of Verilog behind a stem.
///
/// It may be a word of Verilog, as `wire`. Contracts see its bytes.
#[derive(Debug, Drop)]
pub struct GlobalName {
    text: String,
}

impl Model for GlobalName {
    ghost use Rattle.std.specs.Prelude.{◌≡◌, true, List, ℕ, string_bytes};
    ghost use Rattle.verilog_tree.specs.Spelling.{all_pass, is_name_byte};

    ghost Value = { List ℕ };

    ghost view = { λ n. string_bytes n.text };

    ghost invariant = { λ n. all_pass is_name_byte (string_bytes n.text) ≡ true };
}

impl GlobalName {
    /// A copy of a text of such bytes.
    pub fn from_text(alloc: Global, text: &str) -> Result<GlobalName, AllocError>
        requires { all_pass is_name_byte text.now ≡ true }
        ensures { IfOk result (λ name. name ≡ text.now) }
    {
        Ok(GlobalName {
            text: String::from_str(alloc, text)?,
        })
    }

    /// The name as a text.
    pub fn as_str(&self) -> &str
        ensures bytes { result.now ≡ self.now }
        ensures name { all_pass is_name_byte self.now ≡ true }
    {
        self.text.as_str()
    }
}
