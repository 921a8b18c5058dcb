//! The removal of an image alone, as a request: by a header that lists snapshots, which no `rm`
//! removes.
use crate::fixtures::{Alone, IMAGE, header};
use rbd_image::Remove;
use rbd_kinds::{NoMemory, SiteId};
use std::alloc::Global;

/// The removal by the header that a look tells.
pub fn removing(alloc: Global, look: &str) -> Result<Option<Alone<Remove>>, NoMemory> {
    let Some(header) = header(alloc, look)? else {
        return Ok(None);
    };
    let part = Remove::new(alloc, SiteId::A, IMAGE, &header)?;
    Ok(Some(Alone { part }))
}
