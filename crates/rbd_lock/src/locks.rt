//! What a client counts of the locks of all its images.
ghost use Rattle.std.specs.Prelude.{◌≡◌, ℕ, ◌<◌, ◌≤◌, [], IsTrue, IsFalse, OnOk, OnErr};
ghost use Rattle.rbd_kinds.specs.declared.id.SiteId.{SiteId as Site};
ghost use Rattle.rbd_kinds.specs.declared.operation.Op.TheVariants as of_op;
ghost use Rattle.rbd_kinds.specs.declared.notice.NoticeKind.TheVariants as notice_kind;
ghost use Rattle.rbd_lock.specs.Locks.{begins, changed_at, counted, heard, lock_state_at, AreImagesInOrder, IsRoomForState, IsSoundLocks, StaysAsked, StaysBlank};
ghost use Rattle.rbd_lock.specs.Places.{next_behind};
ghost use Rattle.rbd_lock.specs.States.{answered, blank_state, quieted, resumed, told_state};

use crate::asked::{ask, first, first_behind, is_asked, keep, none};
use crate::lock_state::{LockState, is_counted};
use crate::noted::{Noted, make_room, note, noted_at};
use rbd_kinds::{Answer, HeaderOp, ImageAt, NoMemory, Notice, NoticeKind, Op, SiteId};
use std::alloc::Global;
use std::collections::{BTreeSet, HashMap};
use std::marker::Model;

/// What a client counts of the locks of its images, at both sites (Ceph: librbd's
/// `ExclusiveLock`).
#[derive(Drop)]
pub struct Locks {
    /// By key. An image of which nothing has to be noted isn't there.
    noted: HashMap<u64, Noted>,
    /// The images whose lock another client wants.
    asked: BTreeSet<ImageAt>,
}

impl Model for Locks {
    ghost use Rattle.std.specs.HashMap.{spare};
    ghost use Rattle.rbd_lock.specs.Locks.{LocksView, IsSoundLocks};

    ghost Value = { LocksView };

    ghost view = { λ l. record { entries = l.noted.entries; asked = l.asked.keys; room = spare l.noted } };

    ghost invariant = { λ l. IsSoundLocks
        (record { entries = l.noted.entries; asked = l.asked.keys; room = spare l.noted }) };
}

impl Locks {
    /// Nothing is known of any image. It takes no memory.
    pub fn new(alloc: Global) -> Self
        ensures states { (site : Site) (image : ℕ) → lock_state_at site image result ≡ blank_state }
        ensures asked { result.asked ≡ [] }
        ensures sound { IsSoundLocks result }
    {
        Locks {
            noted: HashMap::new(alloc),
            asked: none(alloc),
        }
    }

    /// What is counted of the lock of an image. It takes no memory.
    pub fn state(&self, at: &ImageAt) -> LockState
        ensures state { result ≡ lock_state_at at.now.site at.now.image self.now }
        ensures sound { IsSoundLocks self.now }
    {
        let noted = noted_at(&self.noted, at.key());
        LockState {
            owned: noted.owned,
            watched: noted.watched,
            asked: is_asked(&self.asked, at),
            quiesced: noted.quiesced,
        }
    }

    /// Takes all memory that is needed to count one more answer, or to quiesce one more image.
    /// Nothing that is counted changes. NoMemory where that memory is refused.
    pub fn reserve(&mut self) -> Result<(), NoMemory>
        ensures states { (site : Site) (image : ℕ)
            → lock_state_at site image self.new ≡ lock_state_at site image self.old }
        ensures asked { self.new.asked ≡ self.old.asked }
        ensures room { OnOk result (0 < self.new.room) }
        ensures sound { IsSoundLocks self.new }
    {
        make_room(&mut self.noted)
    }

    /// An operation of the client at a site was answered. It takes no memory.
    pub fn count(&mut self, site: SiteId, op: &Op, answer: &Answer)
        requires { IsTrue (begins op.now answer.now) → 0 < self.old.room }
        ensures states { (there : Site) (image : ℕ)
            → lock_state_at there image self.new ≡ counted site op.now answer.now there image
            (lock_state_at there image self.old) }
        ensures room { IsFalse (begins op.now answer.now) → self.old.room ≤ self.new.room }
        ensures sound { IsSoundLocks self.new }
    {
        // The table is named for what holds of it, also where nothing is counted.
        let _noted = &self.noted;
        let Op::Header { image, op } = op else {
            return;
        };
        if is_counted(op) {
            let at = ImageAt {
                site,
                image: *image,
            };
            self.answered(&at, op, answer);
        }
    }

    /// The client hears a notice. A RequestLock of a lock that counts as owned is noted; all else
    /// is passed over. NoMemory where the memory to note it is refused; then nothing changes.
    pub fn hear(&mut self, notice: &Notice) -> Result<(), NoMemory>
        ensures ok { OnOk result ((site : Site) (image : ℕ)
            → lock_state_at site image self.new ≡ heard notice.now site image (lock_state_at site image self.old)) }
        ensures err { OnErr result (self.new ≡ self.old) }
        ensures room { self.new.room ≡ self.old.room }
        ensures sound { IsSoundLocks self.new }
    {
        // The table is named for what holds of it, also where nothing is heard of a lock.
        let _noted = &self.noted;
        match &notice.kind {
            NoticeKind::RequestLock => self.ask(&ImageAt {
                site: notice.site,
                image: notice.image,
            }),
            _ => Ok(()),
        }
    }

    /// The look under the lock of a `quiesce` found the image's header. It takes no memory.
    pub fn quiesce(&mut self, at: &ImageAt)
        requires { 0 < self.old.room }
        ensures states { (site : Site) (image : ℕ)
            → lock_state_at site image self.new ≡ changed_at at.now.site at.now.image quieted site image
            (lock_state_at site image self.old) }
        ensures sound { IsSoundLocks self.new }
    {
        let state = self.state(at).quieted();
        self.set(at, &state);
    }

    /// The `dir-find` of a `resume` found the image. It takes no memory.
    pub fn resume(&mut self, at: &ImageAt)
        ensures states { (site : Site) (image : ℕ)
            → lock_state_at site image self.new ≡ changed_at at.now.site at.now.image resumed site image
            (lock_state_at site image self.old) }
        ensures room { self.old.room ≤ self.new.room }
        ensures sound { IsSoundLocks self.new }
    {
        let state = self.state(at).resumed();
        self.set(at, &state);
    }

    /// Of the images that were asked for, in order, the first behind one, or the first of all:
    /// `None` exactly where none is. It takes no memory.
    pub fn next_asked(&self, behind: Option<ImageAt>) -> Option<ImageAt>
        ensures next { result ≡ next_behind behind self.now.asked }
        ensures order { AreImagesInOrder self.now.asked }
        ensures sound { IsSoundLocks self.now }
    {
        let asked = &self.asked;
        match behind {
            Some(before) => first_behind(asked, &before),
            None => first(asked),
        }
    }

    /// The images that were asked for, in order. It takes no memory.
    pub fn asked(&self) -> &BTreeSet<ImageAt>
        ensures asked { result.now.keys ≡ self.now.asked }
        ensures sound { IsSoundLocks self.now }
    {
        &self.asked
    }

    fn answered(&mut self, at: &ImageAt, op: &HeaderOp, answer: &Answer)
        requires { (image : ℕ) → IsTrue (begins (of_op.Header image op.now) answer.now) → 0 < self.old.room }
        ensures states { (site : Site) (image : ℕ)
            → lock_state_at site image self.new ≡ changed_at at.now.site at.now.image
            (answered op.now answer.now) site image (lock_state_at site image self.old) }
        ensures room { (image : ℕ) → IsFalse (begins (of_op.Header image op.now) answer.now)
            → self.old.room ≤ self.new.room }
        ensures sound { IsSoundLocks self.new }
    {
        let state = self.state(at).answered(op, answer);
        self.set(at, &state);
    }

    /// This is counted of an image from now on. It takes no memory.
    fn set(&mut self, at: &ImageAt, state: &LockState)
        requires asked { StaysAsked (lock_state_at at.now.site at.now.image self.old) state.now }
        requires room { IsRoomForState (lock_state_at at.now.site at.now.image self.old) state.now self.old.room }
        ensures states { (site : Site) (image : ℕ)
            → lock_state_at site image self.new ≡ changed_at at.now.site at.now.image (λ before. state.now) site image
            (lock_state_at site image self.old) }
        ensures room { StaysBlank (lock_state_at at.now.site at.now.image self.old) state.now
            → self.old.room ≤ self.new.room }
        ensures sound { IsSoundLocks self.new }
    {
        let noted = Noted {
            owned: state.owned,
            watched: state.watched,
            quiesced: state.quiesced,
        };
        note(&mut self.noted, at.key(), &noted);
        keep(&mut self.asked, at, state.asked);
    }

    /// Another client wants the lock of an image. NoMemory where memory is refused; then nothing
    /// changes.
    fn ask(&mut self, at: &ImageAt) -> Result<(), NoMemory>
        ensures ok { OnOk result ((site : Site) (image : ℕ)
            → lock_state_at site image self.new ≡ changed_at at.now.site at.now.image
            (told_state notice_kind.RequestLock) site image (lock_state_at site image self.old)) }
        ensures err { OnErr result (self.new ≡ self.old) }
        ensures room { self.new.room ≡ self.old.room }
        ensures sound { IsSoundLocks self.new }
    {
        if !self.state(at).owned {
            return Ok(());
        }
        ask(&mut self.asked, at)
    }
}
