//! Tests of what operations do to the flat site, through the one public call of `rbd_stands`.
//! Expected values were worked out by hand, from the rules in words and from the formulas of
//! striping.
mod each;
mod make;
mod places;

use crate::holds;
use rbd_flat::Effect;
use rbd_header::new_header;
use rbd_kinds::{Answer, GlobalName, HeaderView, ImageId, Layout, NoMemory, Op, SiteId};
use rbd_layout::keeps_limits;
use rbd_stands::effect_of;
use std::alloc::Global;
use std::process::Abort;

/// The image that each operation is about.
const DISK: ImageId = ImageId(7);

/// Objects of two units, three in a stripe.
const STRIPED: Layout = Layout {
    object: 8192,
    unit: 4096,
    count: 3,
};

/// The name by which both sites know the image.
const GLOBAL: GlobalName = GlobalName {
    site: SiteId::A,
    image: DISK,
};

/// What a header tells whose layout and size keep the limits.
fn header(
    rt: &impl Abort,
    alloc: Global,
    layout: Layout,
    size: u64,
    global: Option<GlobalName>,
) -> HeaderView {
    assert!(rt; keeps_limits(&layout, size));
    HeaderView {
        global,
        ..new_header(alloc, layout, size)
    }
}

/// Whether an operation that was answered so has the effect of this text.
fn has_effect(
    alloc: Global,
    op: &Op,
    answer: &Answer,
    header: Option<&HeaderView>,
    want: &str,
) -> Result<bool, NoMemory> {
    let effect = effect_of(alloc, op, answer, header)?;
    is_text(alloc, &effect, want)
}

fn is_text(alloc: Global, effect: &Option<Effect>, want: &str) -> Result<bool, NoMemory> {
    let text = format!(in alloc; "{effect:?}")?;
    Ok(text.as_str() == want)
}

/// Lets an operation and its answer go once its effect is known.
fn shows(alloc: Global, op: Op, answer: Answer, header: Option<&HeaderView>, want: &str) -> bool {
    holds(has_effect(alloc, &op, &answer, header, want))
}
