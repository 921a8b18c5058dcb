ghost use Rattle.std.specs.Prelude.{◌≡◌, IsSome, IfSome, IsTrue, ◌↔◌};
ghost use Rattle.rbd_values.specs.Name.{IsAskedName};

use crate::byte_string::Bytes;
use crate::copies::TryClone;
use crate::memory::NoMemory;
use crate::name::Name;
use std::marker::Model;

/// The name that a session may ask for: a [`Name`] whose first byte isn't `.` or `-`. So what
/// begins with a `.` is the project's own, as the snapshot `.sync` of a synchronisation. Contracts
/// see the list of its bytes.
#[derive(Debug, Drop)]
pub struct AskedName {
    name: Name,
}

impl Model for AskedName {
    ghost use Rattle.std.specs.Prelude.{ℕ, List};
    ghost use Rattle.rbd_values.specs.Name.{IsAskedName};

    ghost Value = { List ℕ };

    ghost view = { λ n. n.name };

    ghost invariant = { λ n. IsAskedName n.name };
}

impl AskedName {
    /// The name that the bytes spell, or `None` where they spell none that may be asked for. It
    /// takes no memory.
    pub fn parse(text: Bytes) -> Option<Self>
        ensures valid { IsSome result ↔ IsAskedName text }
        ensures value { IfSome result (λ name. name ≡ text) }
    {
        let Some(name) = Name::parse(text) else {
            return None;
        };
        if is_asked(&name) {
            Some(AskedName { name })
        } else {
            None
        }
    }

    /// The name, of which it is still known that it may be asked for.
    pub fn as_name(&self) -> &Name
        ensures value { result.now ≡ self.now }
        ensures name { IsAskedName self.now }
    {
        &self.name
    }

    /// Its bytes.
    pub fn as_slice(&self) -> &[u8]
        ensures value { result.now ≡ self.now }
        ensures name { IsAskedName self.now }
    {
        self.name.as_slice()
    }

    /// The same name, of which it is no longer known that it may be asked for.
    pub fn into_name(self) -> Name
        ensures value { result ≡ self }
        ensures name { IsAskedName self }
    {
        self.name
    }
}

impl TryClone for AskedName {
    fn try_clone(&self) -> Result<Self, NoMemory> {
        Ok(AskedName {
            name: self.name.try_clone()?,
        })
    }
}

/// Whether a session may ask for the name.
fn is_asked(name: &Name) -> bool
    ensures { IsTrue result ↔ IsAskedName name.now }
{
    let Some(&first) = name.as_slice().first() else {
        return false;
    };
    if first == b'.' {
        return false;
    }
    first != b'-'
}
