//! One site.
ghost use Rattle.std.specs.Prelude.{◌≡◌, ℕ, ◌+◌, ◌^◌, ◌<◌, ◌≤◌, Some, [], ◌∷◌, ◌++◌, length, if◌then◌else◌, is_some, IfOk, OnOk, OnErr};
ghost use Rattle.std.specs.Vec.{vec_capacity, vec_len};
ghost use Rattle.rbd_kinds.specs.declared.header.HeaderView.{HeaderView as HeaderShown};
ghost use Rattle.rbd_site.specs.InForm.{AreInForm};
ghost use Rattle.rbd_watch.specs.Watching.{oldest_of};
ghost use Rattle.rbd_site.specs.Log.{records_of, log_line, trim_line, trimmed, log_with_expiry, expired_by, AreAnswered, AreNumbered};
ghost use Rattle.rbd_site.specs.Maps.{kept};
ghost use Rattle.rbd_site.specs.Records.{no_records};
ghost use Rattle.rbd_site.specs.Step.{MayDo, answer_to, after, mail_after};

use crate::done::{Done, DoneOp};
use crate::object_key::ObjectKey;
use crate::store::Store;
use rbd_kinds::{Answer, HeaderView, ImageId, Instance, NoMemory, Op, SessionNo, SiteId, TryClone};
use rbd_watch::Mail;
use std::alloc::Global;
use std::marker::Model;

/// A site (a cluster): its records and the log of the operations that made them. Contracts see it
/// as its id and its log; the records are what the log leaves.
pub struct Site {
    id: SiteId,
    store: Store,
    log: Vec<Done>,
}

// (written out, so that it is a call where a site is let go, and not each of its records)
impl Drop for Site {
    fn drop(self) {
        let Site { id: _, store, log } = self;
        drop(store);
        drop(log);
    }
}

impl Model for Site {
    ghost use Rattle.rbd_site.specs.Log.{SiteLog, IsSoundLog};
    ghost use Rattle.rbd_site.specs.Maps.{kept};

    ghost Value = { SiteLog };

    ghost view = { λ s. record { id = s.id; log = s.log.items } };

    ghost invariant = { λ s. IsSoundLog (kept s.store) s.log.items };
}

impl Site {
    /// A site without images, and with an empty log.
    pub fn new(alloc: Global, id: SiteId) -> Result<Self, NoMemory>
        ensures { IfOk result (λ site. site ≡ record { id = id; log = [] }) }
    {
        Ok(Site {
            id,
            store: Store::new(alloc),
            log: Vec::new(alloc),
        })
    }

    /// Which site it is.
    pub fn id(&self) -> SiteId
        ensures { result ≡ self.now.id }
    {
        self.id
    }

    /// The operations that were done, numbered from 1. Each has the answer and the change that the
    /// records have for it which the earlier ones left, and each header and each map of these
    /// records is in form.
    pub fn log(&self) -> &[Done]
        ensures log { result.now ≡ self.now.log }
        ensures answered { AreAnswered no_records self.now.log }
        ensures numbered { AreNumbered 1 self.now.log }
        ensures form { AreInForm (records_of self.now) (length self.now.log) }
    {
        self.log.as_slice()
    }

    /// The header of an image, if it is there, as a look at it would tell. Nothing is logged.
    pub fn header(&self, image: ImageId) -> Result<Option<HeaderView>, NoMemory>
        ensures { IfOk result (λ header. header ≡ (records_of self.now).headers image) }
    {
        self.store.header(image)
    }

    /// The answer that `apply` would give now. Nothing changes and nothing is logged.
    pub fn answer(&self, instance: Instance, op: &Op) -> Result<Answer, NoMemory>
        requires { MayDo (records_of self.now) instance op.now }
        ensures { IfOk result (λ answer. answer ≡ answer_to (records_of self.now) instance op.now) }
    {
        self.store.answer(&instance, op)
    }

    /// Does one operation on one object, and logs it with its answer. A notice is posted into the
    /// mail of both sites, to each watcher of the image but the sender. An operation of an instance
    /// in the blocklist is answered `fenced`, and changes nothing (Ceph: the OSD blocklist).
    /// Refused memory, nothing is done, nothing is logged and nothing is posted.
    pub fn apply(&mut self, instance: Instance, op: Op, mail: &mut Mail) -> Result<Answer, NoMemory>
        requires { MayDo (records_of self.old) instance op }
        ensures answer { IfOk result (λ answer. answer ≡ answer_to (records_of self.old) instance op) }
        ensures ok { let number = length self.old.log + 1 in
            IfOk result (λ answer. self.new
            ≡ record self.old { log = self.old.log ++ log_line number instance op answer ∷ [] }) }
        ensures records { OnOk result (records_of self.new ≡ after (records_of self.old) instance op) }
        ensures mail { OnOk result (mail.new ≡ mail_after self.old.id (records_of self.old) instance op mail.old) }
        ensures form { AreInForm (records_of self.new) (length self.new.log) }
        ensures err { OnErr result (self.new ≡ self.old) }
        ensures unsent { OnErr result (mail.new ≡ mail.old) }
    {
        let Ok(answer) = self.store.answer(&instance, &op) else {
            drop(op);
            return Err(NoMemory);
        };
        if let Err(fault) = self.apply_answered(instance, op, &answer, mail) {
            drop(answer);
            return Err(fault);
        }
        Ok(answer)
    }

    /// As [`Site::apply`], for who has asked for the operation's answer already. The log has a copy
    /// of it.
    pub fn apply_answered(
        &mut self,
        instance: Instance,
        op: Op,
        answer: &Answer,
        mail: &mut Mail,
    ) -> Result<(), NoMemory>
        requires may { MayDo (records_of self.old) instance op }
        requires answer { answer.now ≡ answer_to (records_of self.old) instance op }
        ensures ok { let number = length self.old.log + 1 in
            OnOk result (self.new
            ≡ record self.old { log = self.old.log ++ log_line number instance op answer.now ∷ [] }) }
        ensures records { OnOk result (records_of self.new ≡ after (records_of self.old) instance op) }
        ensures mail { OnOk result (mail.new ≡ mail_after self.old.id (records_of self.old) instance op mail.old) }
        ensures form { AreInForm (records_of self.new) (length self.new.log) }
        ensures err { OnErr result (self.new ≡ self.old) }
        ensures unsent { OnErr result (mail.new ≡ mail.old) }
    {
        let number = self.next_number();
        let Ok(logged) = answer.try_clone() else {
            drop(op);
            return Err(NoMemory);
        };
        match perform(
            &mut self.store,
            &mut self.log,
            self.id,
            &instance,
            &op,
            mail,
        ) {
            Ok(()) => {
                let line = Done {
                    number,
                    instance: Some(instance),
                    op: DoneOp::Op(op),
                    answer: logged,
                };
                note(&mut self.log, line);
                Ok(())
            }
            Err(fault) => {
                drop(op);
                drop(logged);
                Err(fault)
            }
        }
    }

    /// The store's own step: drops what an object keeps for snapshots that the image's header
    /// doesn't list (Ceph: snapshot trimming), which is all where the header is gone. It is `false`
    /// exactly where there is no such object, and then nothing is logged. Refused memory, nothing
    /// changes.
    pub fn trim(&mut self, image: ImageId, object: u64) -> Result<bool, NoMemory>
        ensures found { IfOk result (λ found. found ≡ is_some ((records_of self.old).objects image object)) }
        ensures ok { let line = trim_line (length self.old.log + 1) image object in
            IfOk result (λ found. self.new
            ≡ (if found then record self.old { log = self.old.log ++ line ∷ [] } else self.old)) }
        ensures records { OnOk result (records_of self.new ≡ trimmed image object (records_of self.old)) }
        ensures err { OnErr result (self.new ≡ self.old) }
    {
        let key = ObjectKey {
            image,
            number: object,
        };
        if !self.store.has(&key) {
            return Ok(false);
        }
        let number = self.next_number();
        self.log.reserve(1)?;
        let live = self.store.live_snaps(image)?;
        self.store.trim(key, live.as_slice());
        let line = Done {
            number,
            instance: None,
            op: DoneOp::Trim { image, object },
            answer: Answer::Done,
        };
        note(&mut self.log, line);
        Ok(true)
    }

    /// The store's own step: the watch of an image by a session ends. Where several instances of
    /// the session watch, it is that of the oldest, which is the one that began first. It is
    /// `false` exactly where none watches, and then nothing is logged. Nobody is told (own).
    /// Refused memory, nothing changes.
    pub fn expire(&mut self, image: ImageId, session: SessionNo) -> Result<bool, NoMemory>
        ensures found { IfOk result (λ found. found
            ≡ is_some (oldest_of session ((records_of self.old).watchers image))) }
        ensures ok { let oldest = oldest_of session ((records_of self.old).watchers image) in
            OnOk result (self.new ≡ record self.old {
              log = log_with_expiry (length self.old.log
                  + 1) image oldest self.old.log;
            }) }
        ensures records { let oldest = oldest_of session ((records_of self.old).watchers image) in
            OnOk result (records_of self.new ≡ expired_by image oldest (records_of self.old)) }
        ensures err { OnErr result (self.new ≡ self.old) }
    {
        let Some(oldest) = self.store.oldest_watch(image, session) else {
            return Ok(false);
        };
        let number = self.next_number();
        self.log.reserve(1)?;
        self.store.expire(image, &oldest);
        let line = Done {
            number,
            instance: None,
            op: DoneOp::Expire {
                image,
                instance: oldest,
            },
            answer: Answer::Done,
        };
        note(&mut self.log, line);
        Ok(true)
    }

    /// The number of the next line of the log.
    fn next_number(&self) -> u64
        ensures { result ≡ length self.now.log + 1 }
    {
        self.log.len() as u64 + 1
    }
}

/// Puts a line at the end of a log that has room for it.
fn note(log: &mut Vec<Done>, line: Done)
    requires room { vec_len log.old + 1 ≤ vec_capacity log.old }
    ensures { log.new.items ≡ log.old.items ++ line ∷ [] }
{
    log.push_reserved(line);
}

/// Makes room for one more line, and does an operation on the records. Refused memory, nothing is
/// done.
fn perform(
    store: &mut Store,
    log: &mut Vec<Done>,
    site: SiteId,
    me: &Instance,
    op: &Op,
    mail: &mut Mail,
) -> Result<(), NoMemory>
    requires may { MayDo (kept store.old) me.now op.now }
    requires generation { (image : ℕ) (h : HeaderShown) → (kept store.old).headers image ≡ Some h
        → h.generation + 1 < 2 ^ 64 }
    ensures ok { OnOk result (kept store.new ≡ after (kept store.old) me.now op.now) }
    ensures mail { OnOk result (mail.new ≡ mail_after site (kept store.old) me.now op.now mail.old) }
    ensures log { log.new.items ≡ log.old.items }
    ensures room { OnOk result (vec_len log.new + 1 ≤ vec_capacity log.new) }
    ensures err { OnErr result (kept store.new ≡ kept store.old) }
    ensures unsent { OnErr result (mail.new ≡ mail.old) }
{
    log.reserve(1)?;
    store.perform(site, me, op, mail)
}
