//! Commands of snapshots.
ghost use Rattle.std.specs.Prelude.{◌≡◌};
ghost use Rattle.rbd_script.specs.Command.{snap_command as command_in, snap_form};
ghost use Rattle.rbd_script.specs.Fault.{Gives};
ghost use Rattle.rbd_script.specs.Token.{tokens_of};
ghost use Rattle.rbd_script.specs.Word.{all_snap_verbs, snap_verb_of, snap_word, with_word as with_word_in};

use crate::fault::{PartFault, known};
use crate::tokens::Tokens;
use crate::word::is;
use rbd_kinds::{AskedName, Command};

/// The words behind `snap`.
#[derive(Clone, Copy)]
pub enum SnapVerb {
    Of(OfSnap),
    List,
}

/// What is done to one snapshot.
#[derive(Clone, Copy)]
pub enum OfSnap {
    Create,
    Remove,
    Protect,
    Unprotect,
    Rollback,
}

impl SnapVerb {
    const ALL: [SnapVerb; 6] = [
        SnapVerb::Of(OfSnap::Create),
        SnapVerb::Of(OfSnap::Remove),
        SnapVerb::Of(OfSnap::Protect),
        SnapVerb::Of(OfSnap::Unprotect),
        SnapVerb::Of(OfSnap::Rollback),
        SnapVerb::List,
    ];

    fn word(self) -> &'static str
        ensures { result.now ≡ snap_word self }
    {
        match self {
            SnapVerb::Of(OfSnap::Create) => "create",
            SnapVerb::Of(OfSnap::Remove) => "rm",
            SnapVerb::Of(OfSnap::Protect) => "protect",
            SnapVerb::Of(OfSnap::Unprotect) => "unprotect",
            SnapVerb::Of(OfSnap::Rollback) => "rollback",
            SnapVerb::List => "ls",
        }
    }

    /// The word of the token.
    #[tactic(auto, unfolding(crate::specs::Word::snap_verb_of))]
    pub fn of(token: &[u8]) -> Result<SnapVerb, PartFault>
        ensures { Gives result (snap_verb_of token.now) }
    {
        known(SnapVerb::with_word(token))
    }

    fn with_word(token: &[u8]) -> Option<SnapVerb>
        ensures { result ≡ with_word_in snap_word all_snap_verbs token.now }
    {
        SnapVerb::ALL
            .iter()
            .copied()
            .find(|verb| is(token, verb.word()))
    }
}

impl OfSnap {
    fn command(self, image: AskedName, snap: AskedName) -> Command
        ensures { result ≡ command_in self (image, snap) }
    {
        match self {
            OfSnap::Create => Command::SnapCreate { image, snap },
            OfSnap::Remove => Command::SnapRemove { image, snap },
            OfSnap::Protect => Command::SnapProtect { image, snap },
            OfSnap::Unprotect => Command::SnapUnprotect { image, snap },
            OfSnap::Rollback => Command::SnapRollback { image, snap },
        }
    }
}

/// The command of a word behind `snap`.
#[tactic(auto, unfolding(crate::specs::Form::form))]
pub fn snap_command(verb: SnapVerb, mut tokens: Tokens<'_>) -> Result<Command, PartFault>
    ensures { Gives result (snap_form verb (tokens_of tokens.entry.rest.now)) }
{
    match verb {
        SnapVerb::Of(verb) => {
            let (image, snap) = tokens.snap()?;
            tokens.end(verb.command(image, snap))
        }
        SnapVerb::List => {
            let image = tokens.name()?;
            tokens.end(Command::SnapList { image })
        }
    }
}
