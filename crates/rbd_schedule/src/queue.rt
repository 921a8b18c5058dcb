//! The commands that a session was given, and which of them starts next.
//!
//! ```text
//!         0      front          next                    commands.len()
//!         │ over   │              │                         │
//!         └────────┴──────────────┴─────────────────────────┘
//!                  the earliest that isn't over
//!                                 the earliest with `&` that wasn't begun
//! ```
//!
//! Both places only go on, so that all looks together cost as much as there are commands.
ghost use Rattle.std.specs.Prelude.{◌≡◌, ◌<◌, ◌≤◌, ◌∷◌, ◌++◌, [], true, false, All, length, take, slice_get, Some, OnOk, IfSome};
ghost use Rattle.rbd_world.specs.Seen.{seen};
ghost use Rattle.rbd_schedule.specs.declared.given.Given.{Given as Commanded};
ghost use Rattle.rbd_world.specs.Step.{is_begun};
ghost use Rattle.rbd_schedule.specs.Playing.{IsQueue, at_place, is_held_back, may_start_beside, is_over as over, has_line};
ghost use Rattle.rbd_schedule.specs.Starts.{earliest as earliest_of};

use crate::given::Given;
use rbd_kinds::NoMemory;
use rbd_line_table::LineMap;
use rbd_machine::Machine;
use rbd_world::World;
use std::alloc::Global;

/// The commands of a session, in the order of the script.
#[derive(Drop)]
pub struct Queue {
    pub commands: Vec<Given>,
    /// All before it were begun, and have their replies or are lost.
    front: usize,
    /// None before it stands beside the others and wasn't begun.
    next: usize,
}

impl Queue {
    /// No commands. It takes no memory.
    pub fn new(alloc: Global) -> Self
        ensures commands { result.commands.items ≡ [] }
        ensures front { result.front ≡ 0 }
        ensures next { result.next ≡ 0 }
    {
        Queue {
            commands: Vec::new(alloc),
            front: 0,
            next: 0,
        }
    }

    /// A command is given to the session. NoMemory where memory for it is refused.
    pub fn push(&mut self, given: Given) -> Result<(), NoMemory>
        ensures commands { OnOk result (self.new.commands.items ≡ self.old.commands.items ++ given ∷ []) }
        ensures front { self.new.front ≡ self.old.front }
        ensures next { self.new.next ≡ self.old.next }
    {
        self.commands.push(given)?;
        Ok(())
    }

    /// Whether a command that comes behind the others waits for one of them, as far as is seen: it
    /// doesn't stand beside them, and the first that isn't known to be over hasn't ended.
    pub fn holds_back(&self, given: &Given, ended: &LineMap<()>) -> bool
        ensures { result ≡ is_held_back
            (λ line. has_line line ended.now) self.now.front self.now.commands.items given.now }
    {
        if given.beside {
            return false;
        }
        match self.commands.get(self.front) {
            Some(first) => !ended.has(first.line),
            None => false,
        }
    }

    /// The place of the earliest command that may start, where the session has a free slot.
    pub fn earliest(&mut self, world: &World, ended: &LineMap<()>) -> Option<usize>
        requires { IsQueue (λ line. is_begun line (seen world.now).history) (λ line. has_line line ended.now) self.old }
        ensures earliest { at_place self.old.commands.items result
            ≡ earliest_of (λ line. is_begun line (seen world.now).history)
            (λ line. has_line line ended.now) true self.old.commands.items }
        ensures place { IfSome result (λ place. place < length self.old.commands.items) }
        ensures queue { IsQueue (λ line. is_begun line (seen world.now).history)
            (λ line. has_line line ended.now) self.new }
        ensures commands { self.new.commands ≡ self.old.commands }
    {
        self.front = first_open(self.commands.as_slice(), self.front, world, ended);
        let first = self.commands.get(self.front)?;
        if !world.has_begun(first.line) {
            return Some(self.front);
        }
        self.next = first_beside(self.commands.as_slice(), self.next, world);
        if self.next < self.commands.len() {
            Some(self.next)
        } else {
            None
        }
    }
}

/// The first place from this one on whose command isn't over, and the end where there is none.
fn first_open(commands: &[Given], from: usize, world: &World, ended: &LineMap<()>) -> usize
    requires from { from ≤ length commands.now }
    requires over { All (λ c. over (λ line. is_begun line (seen world.now).history) (λ line. has_line line ended.now) c
        ≡ true) (take from commands.now) }
    ensures end { result ≤ length commands.now }
    ensures over { All (λ c. over (λ line. is_begun line (seen world.now).history) (λ line. has_line line ended.now) c
        ≡ true) (take result commands.now) }
    ensures open { (c : Commanded) → slice_get commands.now result ≡ Some c
        → over (λ line. is_begun line (seen world.now).history) (λ line. has_line line ended.now) c ≡ false }
{
    for place in from..commands.len() {
        if !is_over(&commands[place], world, ended) {
            return place;
        }
    }
    commands.len()
}

/// Whether a command was begun, and has its reply or is lost.
fn is_over(given: &Given, world: &World, ended: &LineMap<()>) -> bool
    ensures { result ≡ over (λ line. is_begun line (seen world.now).history)
        (λ line. has_line line ended.now) given.now }
{
    ended.has(given.line) && world.has_begun(given.line)
}

/// The first place from this one on whose command stands beside the others and wasn't begun, and
/// the end where there is none.
fn first_beside(commands: &[Given], from: usize, world: &World) -> usize
    requires from { from ≤ length commands.now }
    requires begun { All (λ c. may_start_beside (λ line. is_begun line (seen world.now).history) c ≡ false)
        (take from commands.now) }
    ensures end { result ≤ length commands.now }
    ensures begun { All (λ c. may_start_beside (λ line. is_begun line (seen world.now).history) c ≡ false)
        (take result commands.now) }
    ensures beside { (c : Commanded) → slice_get commands.now result ≡ Some c
        → may_start_beside (λ line. is_begun line (seen world.now).history) c ≡ true }
{
    for place in from..commands.len() {
        if may_start_beside(&commands[place], world) {
            return place;
        }
    }
    commands.len()
}

/// Whether a command stands beside the others and wasn't begun.
fn may_start_beside(given: &Given, world: &World) -> bool
    ensures { result ≡ may_start_beside (λ line. is_begun line (seen world.now).history) given.now }
{
    given.beside && !world.has_begun(given.line)
}
