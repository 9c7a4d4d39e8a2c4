//! Elements of several bytes, high byte first.

ghost use Rattle.std.specs.Prelude.{◌≡◌, ℕ, ◌++◌, ◌<◌, ◌^◌, List, length, FitsSigned, OnErr, OnOk};
ghost use Rattle.std.proofs.Common.{lit<};
ghost use Rattle.std.specs.Int.{w8, w16, w32, w64, from_be_bytes, to_be_bytes};
ghost use Rattle.std.specs.List.{AllByRecursion};
ghost use Rattle.secs_items.specs.Elements.{IsByte, IsRaw, signed_at, signed_bytes};

use gl_base::{NoMemory, Row};

/// An element of a fixed number of bytes, high byte first.
pub(crate) trait Element: Copy {
    /// How many bytes an element has.
    ghost SIZE: { ℕ };

    /// The bytes of an element.
    ghost bytes_of: { Self → List ℕ };

    /// The element that the bytes are.
    ghost element_of: { List ℕ → Self };

    /// That the element is a value of its kind: a number within its range, or an array of bytes, each below 256.
    ghost fits: { Self → Type 0 };

    const SIZE: usize;

    /// The element that `SIZE` bytes are.
    fn read(bytes: &[u8]) -> Self
        requires { length bytes.now ≡ SIZE }
        ensures { result ≡ element_of bytes.now };

    /// Puts the bytes of the element at the end.
    fn put(self, into: &mut Row<u8>) -> Result<(), NoMemory>
        ensures ok { OnOk result (into.new ≡ into.old ++ bytes_of self) }
        ensures err { OnErr result (into.new ≡ into.old) }
        ensures fit { fits self };

    ghost some: { 0 < SIZE };
}

impl Element for i8 {
    ghost SIZE = { 1 };

    ghost some = { lit< tt };

    ghost bytes_of = { signed_bytes w8 };

    ghost element_of = { signed_at w8 };

    ghost fits = { FitsSigned w8 };

    const SIZE: usize = 1;

    fn read(bytes: &[u8]) -> i8 {
        i8::from_be_bytes([bytes[0]])
    }

    fn put(self, into: &mut Row<u8>) -> Result<(), NoMemory> {
        into.extend(&self.to_be_bytes())
    }
}

impl Element for i16 {
    ghost SIZE = { 2 };

    ghost some = { lit< tt };

    ghost bytes_of = { signed_bytes w16 };

    ghost element_of = { signed_at w16 };

    ghost fits = { FitsSigned w16 };

    const SIZE: usize = 2;

    fn read(bytes: &[u8]) -> i16 {
        i16::from_be_bytes([bytes[0], bytes[1]])
    }

    fn put(self, into: &mut Row<u8>) -> Result<(), NoMemory> {
        into.extend(&self.to_be_bytes())
    }
}

impl Element for i32 {
    ghost SIZE = { 4 };

    ghost some = { lit< tt };

    ghost bytes_of = { signed_bytes w32 };

    ghost element_of = { signed_at w32 };

    ghost fits = { FitsSigned w32 };

    const SIZE: usize = 4;

    fn read(bytes: &[u8]) -> i32 {
        i32::from_be_bytes([bytes[0], bytes[1], bytes[2], bytes[3]])
    }

    fn put(self, into: &mut Row<u8>) -> Result<(), NoMemory> {
        into.extend(&self.to_be_bytes())
    }
}

impl Element for i64 {
    ghost SIZE = { 8 };

    ghost some = { lit< tt };

    ghost bytes_of = { signed_bytes w64 };

    ghost element_of = { signed_at w64 };

    ghost fits = { FitsSigned w64 };

    const SIZE: usize = 8;

    fn read(bytes: &[u8]) -> i64 {
        i64::from_be_bytes([
            bytes[0], bytes[1], bytes[2], bytes[3], bytes[4], bytes[5], bytes[6], bytes[7],
        ])
    }

    fn put(self, into: &mut Row<u8>) -> Result<(), NoMemory> {
        into.extend(&self.to_be_bytes())
    }
}

impl Element for u16 {
    ghost SIZE = { 2 };

    ghost some = { lit< tt };

    ghost bytes_of = { to_be_bytes w16 };

    ghost element_of = { from_be_bytes w16 };

    ghost fits = { λ n. n < 2 ^ 16 };

    const SIZE: usize = 2;

    fn read(bytes: &[u8]) -> u16 {
        u16::from_be_bytes([bytes[0], bytes[1]])
    }

    fn put(self, into: &mut Row<u8>) -> Result<(), NoMemory> {
        into.extend(&self.to_be_bytes())
    }
}

impl Element for u32 {
    ghost SIZE = { 4 };

    ghost some = { lit< tt };

    ghost bytes_of = { to_be_bytes w32 };

    ghost element_of = { from_be_bytes w32 };

    ghost fits = { λ n. n < 2 ^ 32 };

    const SIZE: usize = 4;

    fn read(bytes: &[u8]) -> u32 {
        u32::from_be_bytes([bytes[0], bytes[1], bytes[2], bytes[3]])
    }

    fn put(self, into: &mut Row<u8>) -> Result<(), NoMemory> {
        into.extend(&self.to_be_bytes())
    }
}

impl Element for u64 {
    ghost SIZE = { 8 };

    ghost some = { lit< tt };

    ghost bytes_of = { to_be_bytes w64 };

    ghost element_of = { from_be_bytes w64 };

    ghost fits = { λ n. n < 2 ^ 64 };

    const SIZE: usize = 8;

    fn read(bytes: &[u8]) -> u64 {
        u64::from_be_bytes([
            bytes[0], bytes[1], bytes[2], bytes[3], bytes[4], bytes[5], bytes[6], bytes[7],
        ])
    }

    fn put(self, into: &mut Row<u8>) -> Result<(), NoMemory> {
        into.extend(&self.to_be_bytes())
    }
}

impl Element for [u8; 4] {
    ghost SIZE = { 4 };

    ghost some = { lit< tt };

    ghost bytes_of = { λ bytes. bytes };

    ghost element_of = { λ bytes. bytes };

    ghost fits = { IsRaw 4 };

    const SIZE: usize = 4;

    fn read(bytes: &[u8]) -> [u8; 4] {
        [bytes[0], bytes[1], bytes[2], bytes[3]]
    }

    fn put(self, into: &mut Row<u8>) -> Result<(), NoMemory> {
        put_array(&self, into)
    }
}

impl Element for [u8; 8] {
    ghost SIZE = { 8 };

    ghost some = { lit< tt };

    ghost bytes_of = { λ bytes. bytes };

    ghost element_of = { λ bytes. bytes };

    ghost fits = { IsRaw 8 };

    const SIZE: usize = 8;

    fn read(bytes: &[u8]) -> [u8; 8] {
        [
            bytes[0], bytes[1], bytes[2], bytes[3], bytes[4], bytes[5], bytes[6], bytes[7],
        ]
    }

    fn put(self, into: &mut Row<u8>) -> Result<(), NoMemory> {
        put_array(&self, into)
    }
}

/// Puts bytes as they are, and tells that each is below 256.
pub(crate) fn put_slice(bytes: &[u8], into: &mut Row<u8>) -> Result<(), NoMemory>
    ensures ok { OnOk result (into.new ≡ into.old ++ bytes.now) }
    ensures err { OnErr result (into.new ≡ into.old) }
    ensures fit { AllByRecursion IsByte bytes.now }
{
    into.extend(bytes)
}

/// Puts so many bytes as they are, and tells the same.
fn put_array<const N: usize>(bytes: &[u8; N], into: &mut Row<u8>) -> Result<(), NoMemory>
    ensures ok { OnOk result (into.new ≡ into.old ++ bytes.now) }
    ensures err { OnErr result (into.new ≡ into.old) }
    ensures fit { IsRaw N bytes.now }
{
    put_slice(bytes, into)
}
