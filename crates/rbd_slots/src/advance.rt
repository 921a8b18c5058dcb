//! How a request goes on: past what it waits for, to its next operation or to its end.
ghost use Rattle.std.specs.Prelude.{◌≡◌, ℕ, ◌≤◌, cond, [], ◌∷◌, ◌++◌, length, None, Some, IsSome, IsTrue, IsFalse};
ghost use Rattle.rbd_machine.specs.Path.{at_operation};
ghost use Rattle.rbd_machine.specs.Plan.{plan_after};
ghost use Rattle.rbd_queue.specs.Line.{is_member, changed_member, new_member, without, may_pass};
ghost use Rattle.rbd_slots.specs.Advance.{objects_or_none, track_with, track_of, past_its_look, fed_by, wanted_by, no_operation, IsGoingOn, IsSameRequest, IsJoin, MayPass, IsFedWell, AdvancesTo, StaysOnTrack};
ghost use Rattle.rbd_slots.specs.OnTrack.{AreFair, LeavesOthers};
ghost use Rattle.rbd_slots.specs.Lines.{AreUsed, members_at, members_of, lines_of, room_at, room_of, is_key, CanOpen, MayEnterAll};
ghost use Rattle.rbd_slots.specs.Track.{line_changed_at, done_with, given_tickets, passed_by, run};

use crate::lines::Lines;
use crate::running::Running;
use rbd_kinds::{Fed, Flow, ImageAt, Reply, Sequence, Sharing, Slot, Want};
use rbd_machine::Request;

/// Feeds a request, and passes over what it then wants beside an operation. `None` where it wants
/// its next operation, and else its reply. It takes no memory.
pub fn advance<R: Request>(
    running: &mut Running<R>,
    lines: &mut Lines,
    slot: Slot,
    fed: &Fed,
) -> Option<Reply>
    requires { IsFedWell R.stands R.is_ready slot running.old lines.old fed.now }
    ensures comes { AdvancesTo R.stands slot (R.stands running.old.request).labels
        (at_operation (R.stands running.old.request).labels (plan_after (R.stands running.old.request).plan fed.now))
        (run slot (plan_after (R.stands running.old.request).plan fed.now)
        (fed_by slot running.old.extent (track_of running.old lines.old)
        (R.stands running.old.request).plan fed.now))
        result running.old running.new lines.new }
    ensures keeps { StaysOnTrack R.stands slot result running.new lines.new }
    ensures others { LeavesOthers slot (lines_of lines.old) (lines_of lines.new) }
    ensures fair { AreFair (lines_of lines.new) }
    ensures used { AreUsed lines.old.entries → AreUsed lines.new.entries }
{
    let mut due = look(running, lines, slot);
    let mut turn = running.request.feed(fed);
    while let Some(want) = wanted(&running.request, &turn) {
        pass(running, lines, slot, &mut due, want);
        turn = running.request.feed(&Fed::Passed);
    }
    match turn {
        Flow::Done(reply) => {
            leave(running, lines, slot);
            Some(reply)
        }
        Flow::More => None,
    }
}

/// What a request wants beside an operation.
fn wanted<R: Request>(request: &R, turn: &Flow) -> Option<Want>
    requires { IsGoingOn turn.now (R.stands request.now).plan }
    ensures { result ≡ wanted_by turn.now (R.stands request.now).plan }
{
    match turn {
        Flow::Done(_) => None,
        Flow::More => beside_operation(request.wants()),
    }
}

fn beside_operation(want: Want) -> Option<Want>
    ensures { result ≡ no_operation want }
{
    match want {
        Want::Op { .. } => None,
        want => Some(want),
    }
}

/// The request goes past its look under the lock, where that was answered. Gives the objects for
/// which it is due to take tickets.
fn look<R>(running: &mut Running<R>, lines: &mut Lines, slot: Slot) -> Option<Sequence<u64>>
    requires { IsSome running.old.looked → IsTrue (may_pass slot (members_of running.old.place lines.old)) }
    ensures track { track_with result running.new lines.new ≡ past_its_look slot running.old.looked
        (track_of running.old lines.old) }
    ensures running { running.new ≡ record running.old { looked = None } }
    ensures due { result ≡ running.old.looked }
    ensures open { CanOpen lines.old → CanOpen lines.new }
    ensures room { room_of running.old.place lines.old ≤ room_of running.old.place lines.new }
    ensures used { AreUsed lines.old.entries → AreUsed lines.new.entries }
{
    let Some(objects) = running.looked.take() else {
        return None;
    };
    lines.pass(running.place, slot);
    Some(objects)
}

/// The request takes the tickets that it is due.
fn note(place: Option<ImageAt>, lines: &mut Lines, slot: Slot, due: &mut Option<Sequence<u64>>)
    requires { MayEnterAll slot (objects_or_none due.old) (members_of place lines.old) (room_of place lines.old) }
    ensures lines { (key : ℕ) → members_at key lines.new ≡ cond (is_key place key)
        (changed_member slot (given_tickets (objects_or_none due.old)) (members_at key lines.old))
        (members_at key lines.old) }
    ensures due { due.new ≡ None }
    ensures open { CanOpen lines.old → CanOpen lines.new }
    ensures used { AreUsed lines.old.entries → AreUsed lines.new.entries }
{
    let Some(objects) = due.take() else {
        return;
    };
    lines.enter(place, slot, objects.as_slice());
}

/// The piece of a turn has ended, where there was one.
fn end_piece(place: Option<ImageAt>, lines: &mut Lines, slot: Slot, turn: Option<u64>)
    ensures lines { (key : ℕ) → members_at key lines.new ≡ cond (is_key place key)
        (changed_member slot (done_with turn) (members_at key lines.old)) (members_at key lines.old) }
    ensures room { (key : ℕ) → room_at key lines.old ≤ room_at key lines.new }
    ensures open { CanOpen lines.old → CanOpen lines.new }
    ensures used { AreUsed lines.old.entries → AreUsed lines.new.entries }
{
    if turn.is_some() {
        lines.end_piece(place, slot);
    }
}

/// The request joins the line of an image.
fn join<R>(
    running: &mut Running<R>,
    lines: &mut Lines,
    slot: Slot,
    place: ImageAt,
    sharing: Sharing,
)
    requires from { 1 ≤ slot }
    requires to { slot ≤ 64 }
    requires other { IsFalse (is_member slot (lines_of lines.old place.site place.image)) }
    requires open { CanOpen lines.old }
    ensures lines { lines_of lines.new ≡ line_changed_at (Some place)
        (λ members. members ++ new_member slot sharing ∷ []) (lines_of lines.old) }
    ensures running { running.new ≡ record running.old { place = Some place } }
    ensures used { AreUsed lines.old.entries → AreUsed lines.new.entries }
{
    lines.join(&place, slot, sharing);
    running.place = Some(place);
}

/// The request awaits its next turn, or none, behind the piece of the one before.
fn turn_to<R>(running: &mut Running<R>, lines: &mut Lines, slot: Slot, turn: Option<u64>)
    ensures lines { lines_of lines.new ≡ line_changed_at running.old.place
        (changed_member slot (done_with running.old.turn)) (lines_of lines.old) }
    ensures running { running.new ≡ record running.old { turn = turn } }
    ensures room { room_of running.old.place lines.old ≤ room_of running.old.place lines.new }
    ensures open { CanOpen lines.old → CanOpen lines.new }
    ensures used { AreUsed lines.old.entries → AreUsed lines.new.entries }
{
    end_piece(running.place, lines, slot, running.turn);
    running.turn = turn;
}

/// The request leaves its line.
fn leave<R>(running: &mut Running<R>, lines: &mut Lines, slot: Slot)
    ensures lines { lines_of lines.new ≡ line_changed_at running.old.place (without slot) (lines_of lines.old) }
    ensures running { running.new ≡ record running.old { place = None; turn = None } }
    ensures open { CanOpen lines.old → CanOpen lines.new }
    ensures used { AreUsed lines.old.entries → AreUsed lines.new.entries }
{
    lines.leave(running.place, slot);
    running.place = None;
    running.turn = None;
}

/// The request has what it wanted beside an operation.
fn pass<R>(
    running: &mut Running<R>,
    lines: &mut Lines,
    slot: Slot,
    due: &mut Option<Sequence<u64>>,
    want: Want,
)
    requires from { 1 ≤ slot }
    requires to { slot ≤ 64 }
    requires may { MayPass slot (track_with due.old running.old lines.old) want }
    requires open { IsJoin want → CanOpen lines.old }
    requires room { length (objects_or_none due.old) ≤ room_of running.old.place lines.old }
    ensures track { track_with due.new running.new lines.new ≡ passed_by slot
        (track_with due.old running.old lines.old) want }
    ensures running { IsSameRequest running.old running.new }
    ensures open { (IsJoin want → ⊥) → CanOpen lines.old → CanOpen lines.new }
    ensures room { length (objects_or_none due.new) ≤ room_of running.new.place lines.new }
    ensures used { AreUsed lines.old.entries → AreUsed lines.new.entries }
{
    match want {
        Want::Op { .. } => {}
        Want::Join {
            site,
            image,
            sharing,
        } => join(running, lines, slot, ImageAt { site, image }, sharing),
        Want::Hold { .. } => lines.hold(running.place, slot),
        Want::Note { .. } => note(running.place, lines, slot, due),
        Want::Turn { object } => turn_to(running, lines, slot, Some(object)),
        Want::Applied { .. } => turn_to(running, lines, slot, None),
        Want::Leave { .. } => {
            leave(running, lines, slot);
            *due = None;
        }
    }
}
