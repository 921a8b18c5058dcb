ghost use Rattle.std.specs.Prelude.{◌≡◌, OnOk, OnErr};
ghost use Rattle.std.specs.FinSet as set;

use rbd_kinds::{Instance, NoMemory};
use std::alloc::Global;
use std::collections::BTreeSet;
use std::marker::Model;

/// The instances that a site refuses (Ceph: the blocklist). Contracts see the set of them.
#[derive(Drop)]
pub struct Blocklist {
    instances: BTreeSet<Instance>,
}

impl Model for Blocklist {
    ghost use Rattle.std.specs.FinSet as set;
    ghost use Rattle.rbd_fence.specs.Instances.{instance_cmp, instance_code};

    ghost Value = { set.FinSet instance_cmp };

    ghost coded = { set.code instance_code };

    ghost view = { λ b. set.from_list b.instances.keys };
}

impl Blocklist {
    /// A list without entries. It takes no memory.
    pub fn new(alloc: Global) -> Self
        ensures { result ≡ set.empty }
    {
        Blocklist {
            instances: BTreeSet::new(alloc),
        }
    }

    /// Lists an instance, for good. A second time changes nothing. Refused memory, nothing changes.
    pub fn add(&mut self, instance: Instance) -> Result<(), NoMemory>
        ensures ok { OnOk result (self.new ≡ set.insert self.old instance) }
        ensures err { OnErr result (self.new ≡ self.old) }
    {
        self.instances.insert(instance)?;
        Ok(())
    }

    /// Whether an instance is listed. It takes no memory.
    pub fn has(&self, instance: Instance) -> bool
        ensures { result ≡ set.contains self.now instance }
    {
        self.instances.contains(&instance)
    }
}
