//! The watchers of one image.
ghost use Rattle.std.specs.Prelude.{◌≡◌, [], Some, IfOk, OnOk, OnErr};
ghost use Rattle.std.specs.List.{IsDistinct};
ghost use Rattle.rbd_kinds.specs.Instances.{same_instance};
ghost use Rattle.rbd_watch.specs.Watching.{older, oldest_of, other_watches, registered, watches, without};

use indexmap::IndexSet;
use rbd_kinds::{Instance, Instances, NoMemory, SessionNo};
use std::alloc::Global;
use std::marker::Model;

/// The instances that watch an image's header (Ceph: watch). Contracts see the list of them, in
/// order of registration and without repetition.
#[derive(Drop)]
pub struct Watchers {
    alloc: Global,
    instances: IndexSet<Instance>,
}

impl Model for Watchers {
    ghost use Rattle.std.specs.Prelude.{List};
    ghost use Rattle.std.specs.List.{IsDistinct};
    ghost use Rattle.rbd_kinds.specs.Instances.{same_instance};
    ghost use Rattle.rbd_kinds.specs.declared.id.Instance.{Instance};

    ghost Value = { List Instance };

    ghost view = { λ w. w.instances.keys };

    ghost invariant = { λ w. IsDistinct same_instance w.instances.keys };
}

impl Watchers {
    /// Nobody watches. It takes no memory.
    pub fn new(alloc: Global) -> Self
        ensures { result ≡ [] }
    {
        Watchers {
            alloc,
            instances: IndexSet::new(alloc),
        }
    }

    /// Registers an instance, behind the others. A second time changes nothing. Refused memory,
    /// nothing changes.
    pub fn watch(&mut self, instance: Instance) -> Result<(), NoMemory>
        ensures ok { OnOk result (self.new ≡ registered instance self.old) }
        ensures err { OnErr result (self.new ≡ self.old) }
    {
        self.instances.insert(instance)?;
        Ok(())
    }

    /// Ends an instance's watch, and answers whether it watched. The others keep their order. It
    /// takes no memory.
    pub fn unwatch(&mut self, instance: Instance) -> bool
        ensures found { result ≡ watches instance self.old }
        ensures others { self.new ≡ without instance self.old }
    {
        self.instances.shift_remove(&instance)
    }

    /// The watchers, in order of registration.
    pub fn list(&self) -> Result<Instances, NoMemory>
        ensures list { IfOk result (λ list. list ≡ self.now) }
        ensures distinct { IsDistinct same_instance self.now }
    {
        let instances = self.instances.as_slice();
        Ok(Instances::from_vec(Vec::from_slice(self.alloc, instances)?))
    }

    /// The watchers but the sender, in order of registration: whom a notice of the sender goes to
    /// (own; Ceph's notify also reaches the watch of the client that sends it).
    pub fn receivers(&self, sender: Instance) -> Result<Instances, NoMemory>
        ensures list { IfOk result (λ list. list ≡ without sender self.now) }
    {
        let instances = self.instances.as_slice();
        Ok(Instances::from_vec(all_but(self.alloc, instances, &sender)?))
    }

    /// The oldest instance of a session that watches, which is the one with the least life (own):
    /// `None` exactly where none of the session watches. It takes no memory.
    pub fn oldest(&self, session: SessionNo) -> Option<Instance>
        ensures { result ≡ oldest_of session self.now }
    {
        oldest_in(self.instances.as_slice(), session)
    }

    /// Whether an instance of another session watches. It takes no memory.
    pub fn others(&self, session: SessionNo) -> bool
        ensures { result ≡ other_watches session self.now }
    {
        any_other(self.instances.as_slice(), session)
    }
}

fn any_other(instances: &[Instance], session: SessionNo) -> bool
    ensures { result ≡ other_watches session instances.now }
{
    instances.iter().any(|instance| instance.session != session)
}

/// A copy of the instances but one, in their order.
fn all_but(
    alloc: Global,
    instances: &[Instance],
    sender: &Instance,
) -> Result<Vec<Instance>, NoMemory>
    ensures { IfOk result (λ others. others.items ≡ without sender.now instances.now) }
{
    let mut others = Vec::from_slice(alloc, instances)?;
    others.retain(|other| other != sender);
    Ok(others)
}

fn oldest_in(instances: &[Instance], session: SessionNo) -> Option<Instance>
    ensures { result ≡ oldest_of session instances.now }
{
    let mut found = None;
    for instance in instances {
        if instance.session == session {
            found = elder(found, instance);
        }
    }
    found
}

/// Of two instances of a session, the one that began earlier.
fn elder(found: Option<Instance>, other: &Instance) -> Option<Instance>
    ensures { result ≡ older found (Some other.now) }
{
    match found {
        Some(one) if one.life <= other.life => Some(one),
        _ => Some(*other),
    }
}
