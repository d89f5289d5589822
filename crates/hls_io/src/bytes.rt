ghost use Rattle.std.specs.Prelude.{◌≡◌, ℕ, List, [], ◌∷◌, ◌++◌, ◌==◌, length, take, IfOk, is_ok, if◌then◌else◌};
ghost use Rattle.std.specs.Fmt.{signed_decimal};

use itoa::Buffer;
use std::alloc::{AllocError, Global};
use std::marker::Model;

/// A list of bytes. It keeps its allocator.
pub struct Bytes {
    items: Vec<u8>,
}

impl Model for Bytes {
    ghost Value = { List ℕ };

    ghost view = { λ b. b.items.items };
}

impl Bytes {
    /// No bytes. It takes no memory.
    pub fn new(alloc: Global) -> Self
        ensures { result ≡ [] }
    {
        Bytes {
            items: Vec::new(alloc),
        }
    }

    /// A copy of `bytes`.
    pub fn from_slice(alloc: Global, bytes: &[u8]) -> Result<Self, AllocError>
        ensures { IfOk result (λ b. b ≡ bytes.now) }
    {
        Ok(Bytes {
            items: Vec::from_slice(alloc, bytes)?,
        })
    }

    /// How many bytes there are.
    pub fn len(&self) -> usize
        ensures { result ≡ length self.now }
    {
        self.items.len()
    }

    /// Whether there are none.
    pub fn is_empty(&self) -> bool
        ensures { result ≡ (length self.now == 0) }
    {
        self.items.is_empty()
    }

    /// The bytes.
    pub fn as_slice(&self) -> &[u8]
        ensures { result.now ≡ self.now }
    {
        self.items.as_slice()
    }

    /// Appends one byte. At `Err` nothing is changed.
    pub fn push(&mut self, byte: u8) -> Result<(), AllocError>
        ensures { self.new ≡ (if is_ok result then self.old ++ byte ∷ [] else self.old) }
    {
        self.items.push(byte)?;
        Ok(())
    }

    /// Appends `bytes`. At `Err` nothing is changed.
    pub fn put(&mut self, bytes: &[u8]) -> Result<(), AllocError>
        ensures { self.new ≡ (if is_ok result then self.old ++ bytes.now else self.old) }
    {
        self.items.extend_from_slice(bytes)
    }

    /// Keeps the first `len` bytes, or all where there are no more. It takes no memory.
    pub fn truncate(&mut self, len: usize)
        ensures { self.new ≡ take len self.old }
    {
        self.items.truncate(len);
    }
}

/// Appends `n` in decimal, with a `-` below 0 and no leading zero. At `Err` nothing is changed.
pub fn put_dec(bytes: &mut Bytes, n: i128) -> Result<(), AllocError>
    ensures { bytes.new ≡ (if is_ok result then bytes.old ++ signed_decimal n else bytes.old) }
{
    let mut buffer = Buffer::new();
    bytes.put(buffer.format(n).as_bytes())
}

// A drop that is written here is proved here; a derived one is proved again in each crate that drops the type.

impl Drop for Bytes {
    fn drop(self) {
        let Bytes { items: _ } = self;
    }
}
