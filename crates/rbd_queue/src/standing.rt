//! Where the members of a line stand, without their turns.
ghost use Rattle.std.specs.Prelude.{◌≡◌, ℕ, ◌==◌, ◌<◌, ◌≤◌, not, List, [], ◌∷◌, ◌++◌, map, vec_len, vec_capacity};
ghost use Rattle.std.specs.List.{filter, list_all, list_any};
ghost use Rattle.std.specs.Option.{option_map};
ghost use Rattle.rbd_machine.specs.Course.{held_stage};
ghost use Rattle.rbd_queue.specs.Kept.{member, held_at, passed_at};
ghost use Rattle.rbd_queue.specs.Line.{is_past, lets_pass, member_of, ahead};

use rbd_kinds::{Sharing, Slot};
use rbd_machine::Stage;

/// A member of a line: its slot, beside which others it goes, and how far it has come.
#[derive(Clone, Copy)]
pub struct LineMember {
    pub slot: Slot,
    pub sharing: Sharing,
    pub stage: Stage,
}

/// How far a slot has come: `None` where it isn't a member.
pub fn stage_of(members: &[LineMember], slot: Slot) -> Option<Stage>
    ensures { (held : ℕ → List ℕ) → result ≡ option_map (λ m. m.stage)
        (member_of slot (map (member held) members.now)) }
{
    for standing in members {
        if standing.slot == slot {
            return Some(standing.stage);
        }
    }
    None
}

/// Beside which others a slot goes: `None` where it isn't a member.
pub fn sharing_of(members: &[LineMember], slot: Slot) -> Option<Sharing>
    ensures { (held : ℕ → List ℕ) → result ≡ option_map (λ m. m.sharing)
        (member_of slot (map (member held) members.now)) }
{
    for standing in members {
        if standing.slot == slot {
            return Some(standing.sharing);
        }
    }
    None
}

/// Whether each member ahead of a slot lets one pass that goes beside these others.
pub fn are_letting_pass(members: &[LineMember], slot: Slot, sharing: Sharing) -> bool
    ensures { (held : ℕ → List ℕ) → result ≡ list_all (lets_pass sharing) (ahead slot (map (member held) members.now)) }
{
    for standing in members {
        if standing.slot == slot {
            return true;
        }
        if !is_letting_pass(standing, sharing) {
            return false;
        }
    }
    true
}

fn is_letting_pass(standing: &LineMember, sharing: Sharing) -> bool
    ensures { (held : ℕ → List ℕ) → result ≡ lets_pass sharing (member held standing.now) }
{
    is_past(standing.stage) && standing.sharing.goes_with(&sharing)
}

/// Whether any member is past its look under the lock.
pub fn is_any_past(members: &[LineMember]) -> bool
    ensures { result ≡ list_any (λ s. is_past s.stage) members.now }
{
    members.iter().any(|standing| is_past(standing.stage))
}

fn is_past(stage: Stage) -> bool
    ensures { result ≡ is_past stage }
{
    match stage {
        Stage::Past => true,
        Stage::Joined => false,
        Stage::Waiting => false,
    }
}

/// The slot becomes a member behind the others, for which there has to be room.
pub fn join_at(members: &mut Vec<LineMember>, slot: Slot, sharing: Sharing)
    requires { vec_len members.old < vec_capacity members.old }
    ensures members { members.new.items ≡ members.old.items
        ++ (record { slot = slot; sharing = sharing; stage = Stage.Joined }) ∷ [] }
    ensures room { vec_capacity members.old ≤ vec_capacity members.new }
{
    let standing = LineMember {
        slot,
        sharing,
        stage: Stage::Joined,
    };
    let pushed: Result<_, _> = members.push(standing);
    pushed.unwrap();
}

/// The slot waits for its look under the lock: one that is past it stays so.
pub fn hold_at(members: &mut Vec<LineMember>, slot: Slot)
    ensures members { members.new.items ≡ map (held_at slot) members.old.items }
    ensures room { vec_capacity members.new ≡ vec_capacity members.old }
{
    hold_each(members.as_mut_slice(), slot);
}

fn hold_each(members: &mut [LineMember], slot: Slot)
    ensures { members.new ≡ map (held_at slot) members.old }
{
    for standing in members.iter_mut() {
        hold_one(standing, slot);
    }
}

fn hold_one(standing: &mut LineMember, slot: Slot)
    ensures { standing.new ≡ held_at slot standing.old }
{
    if standing.slot == slot {
        standing.stage = held_stage(standing.stage);
    }
}

fn held_stage(stage: Stage) -> Stage
    ensures { result ≡ held_stage stage }
{
    match stage {
        Stage::Past => Stage::Past,
        Stage::Joined => Stage::Waiting,
        Stage::Waiting => Stage::Waiting,
    }
}

/// The slot is past its look under the lock.
pub fn pass_at(members: &mut Vec<LineMember>, slot: Slot)
    ensures members { members.new.items ≡ map (passed_at slot) members.old.items }
    ensures room { vec_capacity members.new ≡ vec_capacity members.old }
{
    pass_each(members.as_mut_slice(), slot);
}

fn pass_each(members: &mut [LineMember], slot: Slot)
    ensures { members.new ≡ map (passed_at slot) members.old }
{
    for standing in members.iter_mut() {
        pass_one(standing, slot);
    }
}

fn pass_one(standing: &mut LineMember, slot: Slot)
    ensures { standing.new ≡ passed_at slot standing.old }
{
    if standing.slot == slot {
        standing.stage = Stage::Past;
    }
}

/// The slot is a member no more. The room of the others stays.
pub fn leave_at(members: &mut Vec<LineMember>, slot: Slot)
    ensures members { members.new.items ≡ filter (λ s. not (s.slot == slot)) members.old.items }
    ensures room { vec_capacity members.new ≡ vec_capacity members.old }
{
    members.retain(|standing| standing.slot != slot);
}
