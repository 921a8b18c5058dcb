//! What a post means for a reader, and whom the watchers name: each law is the contract of a
//! function that does nothing.
ghost use Rattle.std.specs.Prelude.{◌≡◌, ◌≢◌, ◌↔◌, ℕ, ◌+◌, ◌≤◌, List, ◌++◌, length, Some, None, slice_get, IsTrue, IsFalse};
ghost use Rattle.rbd_kinds.specs.declared.id.Instance.{Instance};
ghost use Rattle.rbd_kinds.specs.declared.id.SiteId.{SiteId};
ghost use Rattle.rbd_kinds.specs.declared.notice.Notice.{Notice};
ghost use Rattle.rbd_kinds.specs.declared.notice.NoticeKind.{NoticeKind};
ghost use Rattle.rbd_watch.specs.Posting.{AreNumberedFrom, notices, notice_numbered};
ghost use Rattle.rbd_watch.specs.Watching.{oldest_of, watches, without};

/// A notice stays for good: after a post each older number shows the same notice.
pub fn notices_stay()
    ensures { (mail posted : List Notice) (number : ℕ)
        → AreNumberedFrom 1 mail → 1 ≤ number → number ≤ length mail
        → notice_numbered number (mail ++ posted) ≡ notice_numbered number mail }
{}

/// After a post each receiver finds its notice, numbered by its place among them.
pub fn receivers_find_their_notices()
    ensures { (mail : List Notice) (site : SiteId) (image : ℕ) (from to : Instance) (receivers : List Instance)
        (kind : NoticeKind) (place : ℕ)
        → AreNumberedFrom 1 mail → slice_get receivers place ≡ Some to
        → notice_numbered (length mail + 1 + place) (mail ++ notices (length mail + 1) site image from receivers kind)
        ≡ Some (record {
          number = length mail + 1 + place;
          to = to;
          from = from;
          site = site;
          image = image;
          kind = kind;
        }) }
{}

/// A post makes as many notices as there are receivers.
pub fn one_notice_for_each()
    ensures { (number image : ℕ) (site : SiteId) (from : Instance) (receivers : List Instance) (kind : NoticeKind)
        → length (notices number site image from receivers kind) ≡ length receivers }
{}

/// The sender of a notice isn't among its receivers. Each other instance is a receiver exactly if
/// it watches.
pub fn the_sender_gets_no_notice()
    ensures sender { (sender : Instance) (watchers : List Instance)
        → IsFalse (watches sender (without sender watchers)) }

    ensures others { (sender other : Instance) (watchers : List Instance)
        → other ≢ sender → watches other (without sender watchers) ≡ watches other watchers }
{}

/// The oldest instance of a session that watches belongs to that session, watches, and has the
/// least life of all such instances. There is none exactly where no instance of the session
/// watches.
pub fn the_oldest_watches()
    ensures watching { (session : ℕ) (watchers : List Instance) (oldest : Instance)
        → oldest_of session watchers ≡ Some oldest → IsTrue (watches oldest watchers) × (oldest.session ≡ session) }

    ensures least { (session : ℕ) (watchers : List Instance) (oldest other : Instance)
        → oldest_of session watchers ≡ Some oldest → IsTrue (watches other watchers) → other.session ≡ session
        → oldest.life ≤ other.life }

    ensures none { (session : ℕ) (watchers : List Instance)
        → (oldest_of session watchers ≡ None)
        ↔ ((instance : Instance) → IsTrue (watches instance watchers) → instance.session ≢ session) }
{}
