//! What is noted of each image, in a table by key.
ghost use Rattle.std.specs.Prelude.{◌≡◌, ℕ, ◌<◌, ◌≤◌, nat_eq, cond, IsTrue, IsFalse, OnOk, None, Some};
ghost use Rattle.std.specs.HashMap.{get, spare};
ghost use Rattle.rbd_lock.specs.Locks.{is_blank, noted_in, AreNoted};

use rbd_kinds::NoMemory;
use std::collections::HashMap;

/// What is noted of an image: all that is counted of its lock, but who has asked for it.
#[derive(Clone, Copy)]
pub struct Noted {
    pub owned: bool,
    pub watched: bool,
    pub quiesced: bool,
}

impl Noted {
    /// Nothing has to be noted.
    fn is_blank(&self) -> bool
        ensures { result ≡ is_blank self.now }
    {
        !self.owned && !self.watched && !self.quiesced
    }
}

/// What is noted of an image: nothing where it isn't in the table.
pub fn noted_at(table: &HashMap<u64, Noted>, key: u64) -> Noted
    ensures { result ≡ noted_in table.now key }
{
    match table.get(&key) {
        Some(noted) => *noted,
        None => Noted {
            owned: false,
            watched: false,
            quiesced: false,
        },
    }
}

/// Notes this of an image from now on. It takes no memory. An image of which nothing has to be
/// noted isn't in the table.
pub fn note(table: &mut HashMap<u64, Noted>, key: u64, noted: &Noted)
    requires { IsTrue (is_blank (noted_in table.old key)) → IsFalse (is_blank noted.now) → 0 < spare table.old }
    ensures noted { (k : ℕ) → noted_in table.new k ≡ cond (nat_eq key k) noted.now (noted_in table.old k) }
    ensures few { AreNoted table.old.entries → AreNoted table.new.entries }
    ensures room { (IsTrue (is_blank (noted_in table.old key)) → IsTrue (is_blank noted.now))
        → spare table.old ≤ spare table.new }
{
    if noted.is_blank() {
        forget(table, key);
        return;
    }
    if !overwrite(table, key, noted) {
        add(table, key, noted);
    }
}

fn forget(table: &mut HashMap<u64, Noted>, key: u64)
    ensures noted { (k : ℕ) → get nat_eq table.new k ≡ cond (nat_eq key k) None (get nat_eq table.old k) }
    ensures room { spare table.old ≤ spare table.new }
{
    table.remove(&key);
}

/// Whether the image was in the table.
fn overwrite(table: &mut HashMap<u64, Noted>, key: u64, noted: &Noted) -> bool
    ensures found { IsTrue result → (k : ℕ) → get nat_eq table.new k ≡ cond (nat_eq key k) (Some noted.now)
        (get nat_eq table.old k) }
    ensures missing { IsFalse result → (k : ℕ) → get nat_eq table.new k ≡ get nat_eq table.old k }
    ensures absent { IsFalse result → get nat_eq table.old key ≡ None }
    ensures room { spare table.new ≡ spare table.old }
{
    let Some(old) = table.get_mut(&key) else {
        return false;
    };
    *old = *noted;
    true
}

fn add(table: &mut HashMap<u64, Noted>, key: u64, noted: &Noted)
    requires { 0 < spare table.old }
    ensures { (k : ℕ) → get nat_eq table.new k ≡ cond (nat_eq key k) (Some noted.now) (get nat_eq table.old k) }
{
    let added: Result<_, _> = table.insert(key, *noted);
    added.unwrap();
}

/// Room for one more image.
pub fn make_room(table: &mut HashMap<u64, Noted>) -> Result<(), NoMemory>
    ensures noted { (k : ℕ) → get nat_eq table.new k ≡ get nat_eq table.old k }
    ensures ok { OnOk result (0 < spare table.new) }
{
    table.reserve(1)?;
    Ok(())
}
