//! What a site keeps, and one operation on one object of it.
ghost use Rattle.std.specs.Prelude.{◌≡◌, ℕ, ◌+◌, ◌^◌, ◌<◌, Some, is_some, option_map, IfOk, OnOk, OnErr};
ghost use Rattle.rbd_object.specs.Mapped.{mapped_trim};
ghost use Rattle.rbd_kinds.specs.declared.header.HeaderView.{HeaderView};
ghost use Rattle.rbd_kinds.specs.declared.header_op.HeaderOp.TheVariants as header_op;
ghost use Rattle.rbd_watch.specs.Watching.{oldest_of};
ghost use Rattle.rbd_site.specs.HeaderStep.{MayDoOnHeader, header_answer, header_after};
ghost use Rattle.rbd_site.specs.WatchStep.{notified, receivers, watchers_after};
ghost use Rattle.rbd_kinds.specs.Maps.{map_snap};
ghost use Rattle.rbd_site.specs.MapStep.{MayDoOnMap, map_answer, map_after};
ghost use Rattle.rbd_site.specs.Records.{no_records, with_header, with_map, with_object, with_watchers};
ghost use Rattle.rbd_site.specs.Log.{expired, live_in};
ghost use Rattle.rbd_site.specs.Maps.{kept};
ghost use Rattle.rbd_site.specs.Step.{MayDo, MayServe, answer_to, answer_served, after, after_served, mail_after, mail_served};

use crate::map_key::MapKey;
use crate::object_key::ObjectKey;
use crate::{children, data, directory, header, map, watch};
use rbd_fence::Blocklist;
use rbd_header::Header;
use rbd_kinds::{
    Answer, HeaderOp, HeaderView, ImageId, Instance, MapOp, NoMemory, NoticeKind, Op, SessionNo,
    SiteId, SnapId,
};
use rbd_map::ObjectMap;
use rbd_object::Object;
use rbd_registry::{Children, Directory};
use rbd_watch::{Mail, Watchers};
use std::alloc::Global;
use std::collections::BTreeMap;

/// The records of a site: its directory, the children of its snapshots, its blocklist, and the
/// headers of its images, with who watches them, their object maps and their data objects.
#[derive(Drop)]
pub struct Store {
    pub alloc: Global,
    pub directory: Directory,
    pub children: Children,
    pub blocklist: Blocklist,
    pub headers: BTreeMap<ImageId, Header>,
    pub watchers: BTreeMap<ImageId, Watchers>,
    pub maps: BTreeMap<MapKey, ObjectMap>,
    pub objects: BTreeMap<ObjectKey, Object>,
}

impl Store {
    /// No records. It takes no memory.
    pub fn new(alloc: Global) -> Self
        ensures { kept result ≡ no_records }
    {
        Store {
            alloc,
            directory: Directory::new(alloc),
            children: Children::new(alloc),
            blocklist: Blocklist::new(alloc),
            headers: BTreeMap::new(alloc),
            watchers: BTreeMap::new(alloc),
            maps: BTreeMap::new(alloc),
            objects: BTreeMap::new(alloc),
        }
    }

    /// What an operation is answered now.
    pub fn answer(&self, me: &Instance, op: &Op) -> Result<Answer, NoMemory>
        requires { MayDo (kept self.now) me.now op.now }
        ensures { IfOk result (λ answer. answer ≡ answer_to (kept self.now) me.now op.now) }
    {
        if self.blocklist.has(*me) {
            return Ok(Answer::Fenced);
        }
        self.answer_served(*me, op)
    }

    /// What an operation of an instance that isn't fenced is answered now.
    fn answer_served(&self, instance: Instance, op: &Op) -> Result<Answer, NoMemory>
        requires { MayServe (kept self.now) op.now }
        ensures { IfOk result (λ answer. answer ≡ answer_served (kept self.now) instance op.now) }
    {
        match op {
            Op::Directory(op) => directory::answer(&self.directory, op),
            Op::Children(op) => children::answer(&self.children, *op),
            Op::BlockAdd { instance: _ } => Ok(Answer::Done),
            Op::Header { image, op } => self.answer_on_header(instance, *image, op),
            Op::Data { image, object, op } => {
                let key = ObjectKey {
                    image: *image,
                    number: *object,
                };
                data::answer(self.alloc, &self.objects, key, op)
            }
            Op::Map { image, op } => self.answer_on_map(*image, op),
            Op::Journal { image: _, op: _ } => unreachable!(),
        }
    }

    fn answer_on_header(
        &self,
        instance: Instance,
        image: ImageId,
        op: &HeaderOp,
    ) -> Result<Answer, NoMemory>
        requires { MayDoOnHeader ((kept self.now).headers image) op.now }
        ensures { IfOk result (λ answer. answer ≡ header_answer instance ((kept self.now).headers image)
            ((kept self.now).watchers image) op.now) }
    {
        match op {
            HeaderOp::WatchersGet => self.who_watches(image),
            _ => header::answer(self.alloc, &self.headers, image, instance, op),
        }
    }

    fn answer_on_map(&self, image: ImageId, op: &MapOp) -> Result<Answer, NoMemory>
        ensures { IfOk result (λ answer. answer ≡ map_answer ((kept self.now).maps image (map_snap op.now)) op.now) }
    {
        let key = MapKey {
            image,
            snap: op.snap(),
        };
        map::answer(&self.maps, key, op)
    }

    /// Who watches the header of an image, if it is there. (The list is shared: so the copy of the
    /// answer that the log keeps copies nobody.)
    fn who_watches(&self, image: ImageId) -> Result<Answer, NoMemory>
        ensures { (me : Instance) → IfOk result
            (λ answer. answer ≡ header_answer me ((kept self.now).headers image)
            ((kept self.now).watchers image) header_op.WatchersGet) }
    {
        if !self.headers.contains_key(&image) {
            return Ok(Answer::Absent);
        }
        let list = watch::list(self.alloc, &self.watchers, image)?;
        Ok(Answer::Instances(list.share()?))
    }

    /// Does an operation, or nothing at all. A notice is posted into the mail.
    pub fn perform(
        &mut self,
        site: SiteId,
        me: &Instance,
        op: &Op,
        mail: &mut Mail,
    ) -> Result<(), NoMemory>
        requires may { MayDo (kept self.old) me.now op.now }
        requires generation { (image : ℕ) (h : HeaderView) → (kept self.old).headers image ≡ Some h
            → h.generation + 1 < 2 ^ 64 }
        ensures ok { OnOk result (kept self.new ≡ after (kept self.old) me.now op.now) }
        ensures mail { OnOk result (mail.new ≡ mail_after site (kept self.old) me.now op.now mail.old) }
        ensures err { OnErr result (kept self.new ≡ kept self.old) }
        ensures unsent { OnErr result (mail.new ≡ mail.old) }
    {
        if self.blocklist.has(*me) {
            return Ok(());
        }
        self.share(op)?;
        self.serve(site, me, op, mail)
    }

    /// Before a look at a header: from now on, the answers to such looks share one list of its
    /// snapshots, until it changes. Refused memory, they don't yet.
    fn share(&mut self, op: &Op) -> Result<(), NoMemory>
        ensures { kept self.new ≡ kept self.old }
    {
        match op {
            Op::Header { image, op } => header::share(&mut self.headers, *image, op),
            _ => Ok(()),
        }
    }

    /// Does an operation of an instance that isn't fenced, or nothing at all.
    fn serve(
        &mut self,
        site: SiteId,
        me: &Instance,
        op: &Op,
        mail: &mut Mail,
    ) -> Result<(), NoMemory>
        requires may { MayServe (kept self.old) op.now }
        requires generation { (image : ℕ) (h : HeaderView) → (kept self.old).headers image ≡ Some h
            → h.generation + 1 < 2 ^ 64 }
        ensures ok { OnOk result (kept self.new ≡ after_served (kept self.old) me.now op.now) }
        ensures mail { OnOk result (mail.new ≡ mail_served site (kept self.old) me.now op.now mail.old) }
        ensures err { OnErr result (kept self.new ≡ kept self.old) }
        ensures unsent { OnErr result (mail.new ≡ mail.old) }
    {
        match op {
            Op::Directory(op) => directory::change(&mut self.directory, op),
            Op::Children(op) => children::change(&mut self.children, *op),
            Op::BlockAdd { instance } => self.blocklist.add(*instance),
            Op::Header { image, op } => self.serve_on_header(site, me, *image, op, mail),
            Op::Data { image, object, op } => {
                let key = ObjectKey {
                    image: *image,
                    number: *object,
                };
                data::change(self.alloc, &mut self.objects, key, op)
            }
            Op::Map { image, op } => self.serve_on_map(*image, op),
            Op::Journal { image: _, op: _ } => unreachable!(),
        }
    }

    /// Does an operation on a header, on its watchers, or posts its notice; or nothing at all.
    fn serve_on_header(
        &mut self,
        site: SiteId,
        me: &Instance,
        image: ImageId,
        op: &HeaderOp,
        mail: &mut Mail,
    ) -> Result<(), NoMemory>
        requires may { MayDoOnHeader ((kept self.old).headers image) op.now }
        requires generation { (i : ℕ) (h : HeaderView) → (kept self.old).headers i ≡ Some h
            → h.generation + 1 < 2 ^ 64 }
        ensures ok { let r = kept self.old in
            OnOk result (kept self.new ≡ with_header image (header_after me.now (r.headers image) op.now)
            (with_watchers image (watchers_after me.now (r.headers image) (r.watchers image) op.now) r)) }
        ensures mail { let r = kept self.old in
            OnOk result (mail.new ≡ notified site me.now image
            (receivers me.now (r.headers image) (r.watchers image)) op.now mail.old) }
        ensures err { OnErr result (kept self.new ≡ kept self.old) }
        ensures unsent { OnErr result (mail.new ≡ mail.old) }
    {
        match op {
            HeaderOp::Watch => self.watch(*me, image),
            HeaderOp::Unwatch => {
                self.unwatch(*me, image);
                Ok(())
            }
            HeaderOp::Remove => {
                self.remove_header(image);
                Ok(())
            }
            HeaderOp::Notify { kind } => self.notify(site, me, image, kind, mail),
            _ => header::change(&mut self.headers, image, *me, op),
        }
    }

    /// Does an operation on an object map of an image, or nothing at all.
    fn serve_on_map(&mut self, image: ImageId, op: &MapOp) -> Result<(), NoMemory>
        requires { MayDoOnMap ((kept self.old).maps image (map_snap op.now)) op.now }
        ensures ok { let there = (kept self.old).maps image (map_snap op.now) in
            OnOk result (kept self.new ≡ with_map image (map_snap op.now) (map_after there op.now) (kept self.old)) }
        ensures err { OnErr result (kept self.new ≡ kept self.old) }
    {
        let key = MapKey {
            image,
            snap: op.snap(),
        };
        map::change(self.alloc, &mut self.maps, key, op)
    }

    /// An instance watches the header of an image, where it is there.
    fn watch(&mut self, me: Instance, image: ImageId) -> Result<(), NoMemory>
        ensures ok { let r = kept self.old in
            OnOk result (kept self.new ≡ with_watchers image
            (watchers_after me (r.headers image) (r.watchers image) header_op.Watch) r) }
        ensures err { OnErr result (kept self.new ≡ kept self.old) }
    {
        if !self.headers.contains_key(&image) {
            return Ok(());
        }
        watch::watch(self.alloc, &mut self.watchers, image, me)
    }

    /// An instance doesn't watch the header of an image any longer, where it is there.
    fn unwatch(&mut self, me: Instance, image: ImageId)
        ensures { let r = kept self.old in
            kept self.new
            ≡ with_watchers image (watchers_after me (r.headers image) (r.watchers image) header_op.Unwatch) r }
    {
        if !self.headers.contains_key(&image) {
            return;
        }
        watch::unwatch(&mut self.watchers, image, me);
    }

    /// Removes the header of an image, with its watchers, where it is there.
    fn remove_header(&mut self, image: ImageId)
        ensures { (me : Instance) → let r = kept self.old in
            kept self.new ≡ with_header image (header_after me (r.headers image) header_op.Remove)
            (with_watchers image (watchers_after me (r.headers image) (r.watchers image) header_op.Remove) r) }
    {
        if !self.headers.contains_key(&image) {
            return;
        }
        self.headers.remove(&image);
        watch::forget(&mut self.watchers, image);
    }

    /// Posts a notice to each watcher of an image but its sender, where the header is there. No
    /// record changes.
    fn notify(
        &self,
        site: SiteId,
        me: &Instance,
        image: ImageId,
        kind: &NoticeKind,
        mail: &mut Mail,
    ) -> Result<(), NoMemory>
        ensures ok { let r = kept self.now in
            OnOk result (mail.new ≡ notified site me.now image (receivers me.now (r.headers image) (r.watchers image))
            (header_op.Notify kind.now) mail.old) }
        ensures err { OnErr result (mail.new ≡ mail.old) }
    {
        if !self.headers.contains_key(&image) {
            return Ok(());
        }
        let told = watch::receivers(self.alloc, &self.watchers, image, *me)?;
        mail.post(site, image, *me, told.as_slice(), kind)
    }

    /// The oldest instance of a session that watches an image, if one does.
    pub fn oldest_watch(&self, image: ImageId, session: SessionNo) -> Option<Instance>
        ensures { result ≡ oldest_of session ((kept self.now).watchers image) }
    {
        watch::oldest(&self.watchers, image, session)
    }

    /// Ends the watch of an instance. It takes no memory.
    pub fn expire(&mut self, image: ImageId, instance: &Instance)
        ensures { kept self.new ≡ expired image instance.now (kept self.old) }
    {
        watch::unwatch(&mut self.watchers, image, *instance);
    }

    /// Whether there is such an object.
    pub fn has(&self, key: &ObjectKey) -> bool
        ensures { result ≡ is_some ((kept self.now).objects key.now.image key.now.number) }
    {
        self.objects.contains_key(key)
    }

    /// The header of an image, if it is there.
    pub fn header(&self, image: ImageId) -> Result<Option<HeaderView>, NoMemory>
        ensures { IfOk result (λ header. header ≡ (kept self.now).headers image) }
    {
        header::view(&self.headers, image)
    }

    /// The snapshots that the header of an image lists: none where it is gone.
    pub fn live_snaps(&self, image: ImageId) -> Result<Vec<SnapId>, NoMemory>
        ensures { IfOk result (λ live. live.items ≡ live_in ((kept self.now).headers image)) }
    {
        header::live_snaps(self.alloc, &self.headers, image)
    }

    /// Drops what an object keeps for snapshots that aren't live, if it is there. It takes no
    /// memory.
    pub fn trim(&mut self, key: ObjectKey, live: &[SnapId])
        ensures { let there = (kept self.old).objects key.image key.number in
            kept self.new ≡ with_object key.image key.number (option_map (mapped_trim live.now) there) (kept self.old) }
    {
        data::trim(&mut self.objects, key, live);
    }
}
