//! The words of block images: what every other crate of the repository speaks in.
//!
//! A cluster (here a *site*) holds images, found by name; an image is striped over objects of its
//! site, may have snapshots, and is changed by sessions, of which each life is an instance. The
//! types are plain data: enums and structs with whole-word names, and lists of them.
//!
//! Bytes, lists, names, numbers and the refusal of memory are values of the crate `rbd_values`,
//! commands and their refusals those of `rbd_commands`. Both are passed on: whoever uses the words
//! needs no other crate for [`Bytes`], [`NoMemory`] or [`Command`].
//!
//! Contracts see an id as its number.
//!
//! ```text
//! OpKind::DirFind.word()               dir-find
//! OpKind::from_word(b"dir-find")       Some(OpKind::DirFind)
//! ```
#![tactic(auto)]

mod answer;
mod children_op;
mod data_op;
mod directory_op;
mod header;
mod header_op;
mod id;
mod image_at;
mod journal;
mod journal_op;
mod layout;
mod machine;
mod map_op;
mod notice;
mod operation;
mod operation_kind;
mod reply;
mod sharing;

pub use answer::Answer;
pub use children_op::ChildrenOp;
pub use data_op::DataOp;
pub use directory_op::DirectoryOp;
pub use header::{
    GlobalName, HeaderView, ParentLink, Role, SnapContext, SnapIds, SnapStatus, SnapView, Snaps,
    first_named,
};
pub use header_op::HeaderOp;
pub use id::{Ids, ImageId, Instance, Instances, SessionNo, SiteId, Slot, SnapId};
pub use image_at::ImageAt;
pub use journal::{JournalClient, JournalEvent, JournalView, Position, Span, Spans, Tag};
pub use journal_op::JournalOp;
pub use layout::{Extent, Layout, Part, Parts};
pub use machine::{Fed, Flow, Want};
pub use map_op::MapOp;
pub use notice::{Notice, NoticeKind};
pub use operation::Op;
pub use operation_kind::OpKind;
pub use rbd_commands::{Command, FillLength, Payload, ReadLength, Refusal, Shape};
pub use rbd_values::{
    AskedName, AtMost, Bytes, Growing, Name, Names, NoMemory, Number, Sequence, Shared, TryClone,
    is_name_byte,
};
pub use reply::{MirrorState, Reply};
pub use sharing::Sharing;
