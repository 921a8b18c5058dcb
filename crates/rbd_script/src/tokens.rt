//! The tokens of a line, and the parts that they are read as.
ghost use Rattle.std.specs.Prelude.{◌≡◌, ◌∷◌, ◌==◌, not, ◌<◌, ◌≤◌, length, [], MatchOption, IfNone, IfOk, IfErr, OnOk};
ghost use Rattle.std.specs.List.{position_or_len};
ghost use Rattle.rbd_script.specs.Fault.{Gives, Takes};
ghost use Rattle.rbd_script.specs.Form.{form};
ghost use Rattle.rbd_script.specs.Part.{part_of};
ghost use Rattle.rbd_script.specs.Part.Part.{Byte as ByteIn, CommandWord, Flag, Hex, Image, Kind, MirrorWord, NewSession, Number as NumberIn, Optional, ScheduleWord, Session, Site, Snap, SnapWord, Target, Times};
ghost use Rattle.rbd_script.specs.Token.{tokens_of};

use crate::fault::{LineCause, PartFault};
use crate::mirror::MirrorVerb;
use crate::name::{name_of, snap_of, target_of};
use crate::number::number_between;
use crate::payload::{byte_of, payload_of};
use crate::place::place_of;
use crate::schedule::ScheduleVerb;
use crate::script::Sessions;
use crate::session::{new_session_of, session_of};
use crate::snap::SnapVerb;
use crate::verb::Verb;
use crate::word::{is, kind_of, site_of};
use rbd_kinds::{AskedName, AtMost, ImageId, Name, OpKind, Payload, SessionNo, SiteId, Slot};
use std::alloc::Global;

/// The tokens of a line that are still to be read, from left to right.
#[derive(Clone, Copy)]
pub struct Tokens<'a> {
    alloc: Global,
    rest: &'a [u8],
}

impl<'a> Tokens<'a> {
    /// The tokens of a line, none of them taken yet.
    pub fn new(alloc: Global, line: &'a [u8]) -> Self
        ensures { result.rest.now ≡ line.now }
    {
        Tokens { alloc, rest: line }
    }

    /// Where memory for what they say is taken.
    pub fn alloc(&self) -> Global {
        self.alloc
    }

    /// The next token, or `None` where none is left.
    pub fn take(&mut self) -> Option<&'a [u8]>
        ensures token { MatchOption result (tokens_of self.old.rest.now ≡ [])
            (λ token. tokens_of self.old.rest.now ≡ token.now ∷ tokens_of self.new.rest.now) }
        ensures none { IfNone result (self.new.rest.now ≡ self.old.rest.now) }
    {
        let (_, line) = self.rest.split_at(blanks(self.rest));
        if line.is_empty() {
            return None;
        }
        let (token, rest) = line.split_at(place_of(b' ', line));
        self.rest = rest;
        Some(token)
    }

    /// The token that a part needs.
    fn part(&mut self) -> Result<&'a [u8], PartFault>
        ensures ok { IfOk result (λ token. tokens_of self.old.rest.now ≡ token.now ∷ tokens_of self.new.rest.now) }
        ensures err { IfErr result (λ fault. (tokens_of self.old.rest.now ≡ [])
            × (fault ≡ PartFault.Cause LineCause.MissingPart)) }
    {
        match self.take() {
            Some(token) => Ok(token),
            None => Err(PartFault::Cause(LineCause::MissingPart)),
        }
    }

    /// A number up to `MOST`.
    #[tactic(auto, unfolding(crate::specs::Part::part_of))]
    pub fn number<const MOST: u64>(&mut self) -> Result<AtMost<MOST>, PartFault>
        ensures { Takes result (tokens_of self.new.rest.now) (part_of (NumberIn MOST) (tokens_of self.old.rest.now)) }
    {
        number_between(0, self.part()?)
    }

    /// A slot's number, up to 64.
    #[tactic(auto, unfolding(crate::specs::Part::part_of))]
    pub fn slot(&mut self) -> Result<Slot, PartFault>
        ensures { Takes result (tokens_of self.new.rest.now) (part_of (NumberIn 64) (tokens_of self.old.rest.now)) }
    {
        let slot: AtMost<64> = self.number()?;
        Ok(Slot(slot.get() as u8))
    }

    /// An image's id, below 2^32.
    #[tactic(auto, unfolding(crate::specs::Part::part_of))]
    pub fn id(&mut self) -> Result<ImageId, PartFault>
        ensures { Takes result (tokens_of self.new.rest.now)
            (part_of (NumberIn 4294967295) (tokens_of self.old.rest.now)) }
    {
        let id: AtMost<4294967295> = self.number()?;
        Ok(ImageId(id.get() as u32))
    }

    /// `[TIMES]`, from 1 to 1,000,000.
    #[tactic(auto, unfolding(crate::specs::Part::part_of))]
    pub fn times(&mut self) -> Result<u32, PartFault>
        ensures { Takes result (tokens_of self.new.rest.now) (part_of Times (tokens_of self.old.rest.now)) }
    {
        let Some(token) = self.take() else {
            return Ok(1);
        };
        let times: AtMost<1000000> = number_between(1, token)?;
        Ok(times.get() as u32)
    }

    /// `[WORD N]`
    #[tactic(auto, unfolding(crate::specs::Part::part_of))]
    pub fn option<const MOST: u64>(&mut self, word: &str) -> Result<Option<AtMost<MOST>>, PartFault>
        ensures { Takes result (tokens_of self.new.rest.now)
            (part_of (Optional word.now MOST) (tokens_of self.old.rest.now)) }
    {
        let mut behind = *self;
        let Some(token) = behind.take() else {
            return Ok(None);
        };
        if !is(token, word) {
            return Ok(None);
        }
        let number = number_between(0, behind.part()?)?;
        *self = behind;
        Ok(Some(number))
    }

    /// `[WORD N]` with a number below 2^32.
    #[tactic(auto, unfolding(crate::specs::Part::part_of))]
    pub fn count(&mut self, word: &str) -> Result<Option<u32>, PartFault>
        ensures { Takes result (tokens_of self.new.rest.now)
            (part_of (Optional word.now 4294967295) (tokens_of self.old.rest.now)) }
    {
        let count: Option<AtMost<4294967295>> = self.option(word)?;
        match count {
            Some(count) => Ok(Some(count.get() as u32)),
            None => Ok(None),
        }
    }

    /// `[WORD]`, the last of its form.
    #[tactic(auto, unfolding(crate::specs::Part::part_of))]
    pub fn flag(&mut self, word: &str) -> Result<bool, PartFault>
        ensures { Takes result (tokens_of self.new.rest.now) (part_of (Flag word.now) (tokens_of self.old.rest.now)) }
    {
        let Some(token) = self.take() else {
            return Ok(false);
        };
        if !is(token, word) {
            return Err(PartFault::Cause(LineCause::UnknownWord));
        }
        Ok(true)
    }

    /// `IMAGE`
    #[tactic(auto, unfolding(crate::specs::Part::part_of))]
    pub fn name(&mut self) -> Result<AskedName, PartFault>
        ensures { Takes result (tokens_of self.new.rest.now) (part_of Image (tokens_of self.old.rest.now)) }
    {
        let alloc = self.alloc;
        name_of(alloc, self.part()?)
    }

    /// `IMAGE@SNAP`
    #[tactic(auto, unfolding(crate::specs::Part::part_of))]
    pub fn snap(&mut self) -> Result<(AskedName, AskedName), PartFault>
        ensures { Takes result (tokens_of self.new.rest.now) (part_of Snap (tokens_of self.old.rest.now)) }
    {
        let alloc = self.alloc;
        snap_of(alloc, self.part()?)
    }

    /// `IMAGE[@SNAP]`
    #[tactic(auto, unfolding(crate::specs::Part::part_of))]
    pub fn target(&mut self) -> Result<(AskedName, Option<AskedName>), PartFault>
        ensures { Takes result (tokens_of self.new.rest.now) (part_of Target (tokens_of self.old.rest.now)) }
    {
        let alloc = self.alloc;
        target_of(alloc, self.part()?)
    }

    /// `HEX`
    #[tactic(auto, unfolding(crate::specs::Part::part_of))]
    pub fn payload(&mut self) -> Result<Payload, PartFault>
        ensures { Takes result (tokens_of self.new.rest.now) (part_of Hex (tokens_of self.old.rest.now)) }
    {
        let alloc = self.alloc;
        payload_of(alloc, self.part()?)
    }

    /// `BYTE`
    #[tactic(auto, unfolding(crate::specs::Part::part_of))]
    pub fn byte(&mut self) -> Result<u8, PartFault>
        ensures { Takes result (tokens_of self.new.rest.now) (part_of ByteIn (tokens_of self.old.rest.now)) }
    {
        byte_of(self.part()?)
    }

    /// `SITE`
    #[tactic(auto, unfolding(crate::specs::Part::part_of))]
    pub fn site(&mut self) -> Result<SiteId, PartFault>
        ensures { Takes result (tokens_of self.new.rest.now) (part_of Site (tokens_of self.old.rest.now)) }
    {
        site_of(self.part()?)
    }

    /// The word of an operation's kind.
    #[tactic(auto, unfolding(crate::specs::Part::part_of))]
    pub fn kind(&mut self) -> Result<OpKind, PartFault>
        ensures { Takes result (tokens_of self.new.rest.now) (part_of Kind (tokens_of self.old.rest.now)) }
    {
        kind_of(self.part()?)
    }

    /// The name of a session that was declared.
    #[tactic(auto, unfolding(crate::specs::Part::part_of))]
    pub fn session(&mut self, sessions: &Sessions) -> Result<SessionNo, PartFault>
        requires { length sessions.now ≤ 32 }
        ensures { Takes result (tokens_of self.new.rest.now)
            (part_of (Session sessions.now) (tokens_of self.old.rest.now)) }
    {
        session_of(sessions, self.part()?)
    }

    /// The name of one more session.
    #[tactic(auto, unfolding(crate::specs::Part::part_of))]
    pub fn new_session(&mut self, sessions: &Sessions) -> Result<Name, PartFault>
        ensures name { Takes result (tokens_of self.new.rest.now)
            (part_of (NewSession sessions.now) (tokens_of self.old.rest.now)) }
        ensures few { OnOk result (length sessions.now < 32) }
    {
        let alloc = self.alloc;
        new_session_of(alloc, sessions, self.part()?)
    }

    /// The first word of a command.
    #[tactic(auto, unfolding(crate::specs::Part::part_of))]
    pub fn verb(&mut self) -> Result<Verb, PartFault>
        ensures { Takes result (tokens_of self.new.rest.now) (part_of CommandWord (tokens_of self.old.rest.now)) }
    {
        Verb::of(self.part()?)
    }

    /// The word behind `snap`.
    #[tactic(auto, unfolding(crate::specs::Part::part_of))]
    pub fn snap_verb(&mut self) -> Result<SnapVerb, PartFault>
        ensures { Takes result (tokens_of self.new.rest.now) (part_of SnapWord (tokens_of self.old.rest.now)) }
    {
        SnapVerb::of(self.part()?)
    }

    /// The word behind `mirror`.
    #[tactic(auto, unfolding(crate::specs::Part::part_of))]
    pub fn mirror_verb(&mut self) -> Result<MirrorVerb, PartFault>
        ensures { Takes result (tokens_of self.new.rest.now) (part_of MirrorWord (tokens_of self.old.rest.now)) }
    {
        MirrorVerb::of(self.part()?)
    }

    /// The first word of a schedule's line.
    #[tactic(auto, unfolding(crate::specs::Part::part_of))]
    pub fn schedule_verb(&mut self) -> Result<ScheduleVerb, PartFault>
        ensures { Takes result (tokens_of self.new.rest.now) (part_of ScheduleWord (tokens_of self.old.rest.now)) }
    {
        ScheduleVerb::of(self.part()?)
    }

    /// The value, where no token is left.
    #[tactic(auto, unfolding(crate::specs::Form::form))]
    pub fn end<T: Drop>(mut self, value: T) -> Result<T, PartFault>
        ensures { Gives result (form [] value (tokens_of self.entry.rest.now)) }
    {
        match self.take() {
            Some(_) => Err(PartFault::Cause(LineCause::ExtraPart)),
            None => Ok(value),
        }
    }
}

/// How many spaces the line begins with.
fn blanks(line: &[u8]) -> usize
    ensures within { result ≤ length line.now }
    ensures place { result ≡ position_or_len (λ b. not (b == 32)) line.now }
{
    for (i, &byte) in line.iter().enumerate() {
        if byte != b' ' {
            return i;
        }
    }
    line.len()
}
