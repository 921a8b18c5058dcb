ghost use Rattle.std.specs.Prelude.{◌≡◌, ℕ, List, IsSome, IfSome, IsTrue, ◌↔◌};
ghost use Rattle.std.specs.List.{list_all};
ghost use Rattle.rbd_values.specs.Name.{IsName, name_byte};

use crate::byte_string::Bytes;
use crate::copies::TryClone;
use crate::memory::NoMemory;
use crate::sequence::Sequence;
use std::cmp::Ordering;
use std::marker::Model;

/// The name of an image or of a snapshot: 1 to 64 bytes of `A` to `Z`, `a` to `z`, `0` to `9`, `.`,
/// `_` and `-`, whatever the first. Which of them a session may ask for is said by `AskedName`.
/// Contracts see the list of its bytes.
#[derive(Debug, Drop)]
pub struct Name {
    text: Bytes,
}

/// Names, in an order that their user tells.
pub type Names = Sequence<Name>;

impl Model for Name {
    ghost use Rattle.std.specs.Prelude.{ℕ, List};
    ghost use Rattle.rbd_values.specs.Name.{IsName};

    ghost Value = { List ℕ };

    ghost view = { λ n. n.text };

    ghost invariant = { λ n. IsName n.text };
}

impl Name {
    /// The name that the bytes spell, or `None` where they spell none. It takes no memory.
    pub fn parse(text: Bytes) -> Option<Self>
        ensures valid { IsSome result ↔ IsName text }
        ensures value { IfSome result (λ name. name ≡ text) }
    {
        if is_name(text.as_slice()) {
            Some(Name { text })
        } else {
            None
        }
    }

    /// Its bytes, 1 to 64 of them.
    pub fn as_slice(&self) -> &[u8]
        ensures value { result.now ≡ self.now }
        ensures name { IsName self.now }
    {
        self.text.as_slice()
    }
}

impl TryClone for Name {
    fn try_clone(&self) -> Result<Self, NoMemory> {
        Ok(Name {
            text: self.text.try_clone()?,
        })
    }
}

/// Whether the bytes spell a name.
fn is_name(text: &[u8]) -> bool
    ensures { IsTrue result ↔ IsName text.now }
{
    if text.is_empty() {
        return false;
    }
    text.len() <= 64 && are_name_bytes(text)
}

fn are_name_bytes(text: &[u8]) -> bool
    ensures { result ≡ list_all name_byte text.now }
{
    text.iter().all(|&byte| is_name_byte(byte))
}

/// Whether a byte may stand in a name.
pub fn is_name_byte(byte: u8) -> bool
    ensures { result ≡ name_byte byte }
{
    byte.is_ascii_alphanumeric() || byte == b'.' || byte == b'_' || byte == b'-'
}

// Names are ordered by their bytes, as a listing shows them.
impl PartialEq for Name {
    ghost use Rattle.std.proofs.Common.{rules};
    ghost use Rattle.std.specs.Prelude.{nat_eq};
    ghost use Rattle.std.specs.Cmp.Rules.{comparing};
    ghost use Rattle.std.specs.Cmp.Lexicographic.{pointwise};

    ghost eq = { pointwise nat_eq };

    ghost laws = { Prim.search (comparing, rules) };

    fn eq(&self, other: &Name) -> bool {
        self.as_slice() == other.as_slice()
    }
}

impl Eq for Name {
    ghost use Rattle.std.proofs.Common.{rules};
    ghost use Rattle.std.specs.Cmp.Rules.{comparing};

    ghost laws = { Prim.search (comparing, rules) };
}

impl PartialOrd for Name {
    ghost use Rattle.std.specs.Prelude.{Some};
    ghost use Rattle.std.specs.Ordering.{nat_cmp};
    ghost use Rattle.std.specs.Cmp.Lexicographic.{slice_cmp, texts_po};

    ghost partial_cmp = { λ x y. Some (slice_cmp nat_cmp x y) };

    ghost laws = { texts_po };

    fn partial_cmp(&self, other: &Name) -> Option<Ordering> {
        Some(self.cmp(other))
    }
}

impl Ord for Name {
    ghost use Rattle.std.specs.Prelude.{refl};
    ghost use Rattle.std.specs.Ordering.{nat_cmp};
    ghost use Rattle.std.specs.Cmp.Lexicographic.{slice_cmp, texts_ties, nat_list_cmp_total};

    ghost cmp = { slice_cmp nat_cmp };

    ghost total = { nat_list_cmp_total };

    ghost matches_partial_cmp = { λ x y. refl };

    ghost matches_eq = { texts_ties };

    fn cmp(&self, other: &Name) -> Ordering {
        self.as_slice().cmp(other.as_slice())
    }
}
