//! Codes.

ghost use Rattle.std.specs.Prelude.{◌≡◌, Some, true, nat_eq, refl};
ghost use Rattle.std.specs.List.{list_all};
ghost use Rattle.std.specs.Ordering.{nat_cmp};
ghost use Rattle.std.specs.Cmp.Lexicographic.{pointwise, slice_cmp, nat_list_eq_equiv};
ghost use Rattle.std.specs.Cmp.Lexicographic.{nat_list_cmp_total, texts_po, texts_ties};
ghost use Rattle.std.specs.Cmp.{partial_equiv_from_equiv};
ghost use Rattle.std.specs.Cmp.Rules.{hashing};
ghost use Rattle.std.specs.Hash as fed;
ghost use Rattle.std.proofs.Common.{rules};
ghost use Rattle.tally_setup.specs.Code.{is_code, is_code_character, code_of};

use std::cmp::Ordering;
use std::hash::{Hash, Hasher};
use std::marker::Model;
use std::{fmt, str};

/// The most characters that a code has.
const LIMIT: usize = 16;

/// The short name of a list, a station, a constituency, a profile or a slip: 1 to 16 characters
/// from `A-Z a-z 0-9 - _`, in which case matters. Contracts see a code as the list of its bytes.
#[derive(Clone, Copy)]
pub struct Code {
    bytes: [u8; LIMIT],
    len: u8,
}

impl Model for Code {
    ghost use Rattle.std.specs.Prelude.{◌≡◌, ◌≤◌, ◌-◌, ◌++◌, ℕ, List, true, length, take, drop};
    ghost use Rattle.std.specs.Prelude.{replicate};
    ghost use Rattle.std.proofs.Common.{arith, length-take-le};
    ghost use Rattle.tally_setup.specs.Code.{is_code, padded-take};

    ghost Value = { List ℕ };

    ghost view = { λ c. take c.len c.bytes };

    ghost invariant = { λ c. (c.len ≤ 16) × (length c.bytes ≡ 16) ×
        (is_code (take c.len c.bytes) ≡ true) × (drop c.len c.bytes ≡ replicate (16 - c.len) 0) };

    ghost inverse = { λ text. record {
      bytes = text ++ replicate (16 - length text) 0;
      len = length text;
    } };

    ghost inverse_ok = { λ c h i. record {
      bytes = padded-take c.len c.bytes (Prim.omega (arith, h.0, h.1)) h.3 i;
      len = length-take-le c.len c.bytes (Prim.omega (arith, h.0, h.1)) i;
    } };
}

impl Code {
    /// The code that a text is, or `None` where it is not one.
    pub fn new(text: &[u8]) -> Option<Code>
        ensures { result ≡ code_of text.now }
    {
        if !is_code(text) {
            return None;
        }
        let mut bytes = [0; LIMIT];
        bytes[..text.len()].copy_from_slice(text);
        Some(Code {
            bytes,
            len: text.len() as u8,
        })
    }

    /// The code's characters.
    pub fn as_str(&self) -> &str
        ensures text { result.now ≡ self.now }
        ensures code { is_code self.now ≡ true }
    {
        match str::from_utf8(self.as_bytes()) {
            Ok(text) => text,
            Err(_) => unreachable!(),
        }
    }

    /// The code's characters, as bytes.
    pub fn as_bytes(&self) -> &[u8]
        ensures text { result.now ≡ self.now }
        ensures code { is_code self.now ≡ true }
    {
        &self.bytes[..self.len as usize]
    }
}

fn is_code(text: &[u8]) -> bool
    ensures { result ≡ is_code text.now }
{
    !text.is_empty() && text.len() <= LIMIT && are_characters(text)
}

fn are_characters(text: &[u8]) -> bool
    ensures { result ≡ list_all is_code_character text.now }
{
    text.iter().all(|c| is_character(*c))
}

fn is_character(c: u8) -> bool
    ensures { result ≡ is_code_character c }
{
    c.is_ascii_alphanumeric() || c == b'-' || c == b'_'
}

impl PartialEq for Code {
    ghost eq = { pointwise nat_eq };

    ghost laws = { partial_equiv_from_equiv nat_list_eq_equiv };

    fn eq(&self, other: &Code) -> bool {
        self.as_bytes() == other.as_bytes()
    }
}

impl Eq for Code {
    ghost laws = { nat_list_eq_equiv };
}

impl PartialOrd for Code {
    ghost partial_cmp = { λ a b. Some (slice_cmp nat_cmp a b) };

    ghost laws = { texts_po };

    fn partial_cmp(&self, other: &Code) -> Option<Ordering> {
        Some(self.cmp(other))
    }
}

/// Codes are in the order of their bytes.
impl Ord for Code {
    ghost cmp = { slice_cmp nat_cmp };

    ghost total = { nat_list_cmp_total };

    ghost matches_partial_cmp = { λ a b. refl };

    ghost matches_eq = { texts_ties };

    fn cmp(&self, other: &Code) -> Ordering {
        self.as_bytes().cmp(other.as_bytes())
    }
}

impl Hash for Code {
    ghost hash_input = { fed.str };

    ghost respects_eq = { Prim.search (hashing, rules) };

    fn hash<H: Hasher>(&self, state: &mut H) {
        self.as_str().hash(state);
    }
}

impl fmt::Debug for Code {
    fn fmt<W: fmt::Write>(&self, f: &mut fmt::Formatter<W>) -> fmt::Result {
        fmt::Debug::fmt(&self.as_str(), f)
    }
}

impl fmt::Display for Code {
    ghost output = { λ code. Some code };

    fn fmt<W: fmt::Write>(&self, f: &mut fmt::Formatter<W>) -> fmt::Result {
        f.pad(self.as_str())
    }
}
