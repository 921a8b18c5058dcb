//! A site with the mail of both, and what its tests begin with.
use rbd_header::new_header;
use rbd_kinds::{
    Answer, Bytes, HeaderOp, HeaderView, ImageId, Instance, Layout, Name, NoMemory, Op, SessionNo,
    Shared, SiteId,
};
use rbd_site::Site;
use rbd_watch::Mail;
use std::alloc::Global;
use std::process::Abort;

/// The first life of the first session.
pub const C1: Instance = Instance {
    session: SessionNo(0),
    life: 0,
};

/// The image of these tests.
pub const IMAGE: ImageId = ImageId(1);

/// A site, and the mail of both.
#[derive(Drop)]
pub struct Bench {
    pub alloc: Global,
    pub site: Site,
    pub mail: Mail,
}

impl Bench {
    /// Site A as it begins, and no mail.
    pub fn new(alloc: Global) -> Result<Self, NoMemory> {
        Ok(Bench {
            alloc,
            site: Site::new(alloc, SiteId::A)?,
            mail: Mail::new(alloc),
        })
    }

    /// The site's answer to an operation of an instance.
    pub fn apply(&mut self, me: Instance, op: Op) -> Result<Answer, NoMemory> {
        self.site.apply(me, op, &mut self.mail)
    }
}

/// The name that is spelled so.
pub fn name(rt: &impl Abort, alloc: Global, text: &[u8]) -> Result<Name, NoMemory> {
    Ok(Name::parse(Bytes::from_slice(alloc, text)?).expect(rt, "a name"))
}

/// A new image of 4,096 bytes in one object.
fn disk(alloc: Global) -> HeaderView {
    let layout = Layout {
        object: 4096,
        unit: 4096,
        count: 1,
    };
    new_header(alloc, layout, 4096)
}

/// Makes the header of the image.
pub fn create(bench: &mut Bench, me: Instance, alloc: Global) -> Result<Answer, NoMemory> {
    let view = Shared::new(alloc, disk(alloc))?;
    bench.apply(
        me,
        Op::Header {
            image: IMAGE,
            op: HeaderOp::Create { view },
        },
    )
}
