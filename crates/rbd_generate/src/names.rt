//! Names of clients and images.
ghost use Rattle.std.specs.Prelude.{◌≡◌, ◌≤◌, ◌∷◌, decimal, IfOk};
ghost use Rattle.rbd_generate.specs.Generated.{client_name, image_name};

use itoa::Buffer;
use rbd_kinds::{AskedName, Bytes, Name, NoMemory};
use std::alloc::Global;

/// `g1`: a client by its number.
pub fn client_name(alloc: Global, client: u32) -> Result<Name, NoMemory>
    ensures { IfOk result (λ name. name ≡ client_name client) }
{
    Ok(numbered(alloc, b'g', client)?.into_name())
}

/// `i1`: a client's image.
pub fn image_name(alloc: Global, client: u32) -> Result<AskedName, NoMemory>
    ensures { IfOk result (λ name. name ≡ image_name client) }
{
    numbered(alloc, b'i', client)
}

/// A letter and a number.
fn numbered(alloc: Global, letter: u8, number: u32) -> Result<AskedName, NoMemory>
    requires first { 97 ≤ letter }
    requires last { letter ≤ 122 }
    ensures { IfOk result (λ name. name ≡ letter ∷ decimal number) }
{
    let mut text = Vec::new(alloc);
    text.push(letter)?;
    text.extend_from_slice(Buffer::new().format(number).as_bytes())?;
    Ok(AskedName::parse(Bytes::from_vec(text)).unwrap())
}
