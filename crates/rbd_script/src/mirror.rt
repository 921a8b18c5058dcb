//! Commands of mirrored images.
ghost use Rattle.std.specs.Prelude.{◌≡◌};
ghost use Rattle.rbd_script.specs.Command.{mirror_command as command_in, mirror_form};
ghost use Rattle.rbd_script.specs.Fault.{Gives};
ghost use Rattle.rbd_script.specs.Token.{tokens_of};
ghost use Rattle.rbd_script.specs.Word.{all_mirror_verbs, mirror_verb_of, mirror_word, with_word as with_word_in};

use crate::fault::{PartFault, known};
use crate::tokens::Tokens;
use crate::word::is;
use rbd_kinds::{AskedName, Command};

/// The words behind `mirror`.
#[derive(Clone, Copy)]
pub enum MirrorVerb {
    Of(OfMirrored),
    Promote,
}

/// What is done to a mirrored image that is named alone.
#[derive(Clone, Copy)]
pub enum OfMirrored {
    Enable,
    Demote,
    Resync,
    Status,
    Follow,
}

impl MirrorVerb {
    const ALL: [MirrorVerb; 6] = [
        MirrorVerb::Of(OfMirrored::Enable),
        MirrorVerb::Of(OfMirrored::Demote),
        MirrorVerb::Of(OfMirrored::Resync),
        MirrorVerb::Of(OfMirrored::Status),
        MirrorVerb::Of(OfMirrored::Follow),
        MirrorVerb::Promote,
    ];

    fn word(self) -> &'static str
        ensures { result.now ≡ mirror_word self }
    {
        match self {
            MirrorVerb::Of(OfMirrored::Enable) => "enable",
            MirrorVerb::Of(OfMirrored::Demote) => "demote",
            MirrorVerb::Of(OfMirrored::Resync) => "resync",
            MirrorVerb::Of(OfMirrored::Status) => "status",
            MirrorVerb::Of(OfMirrored::Follow) => "follow",
            MirrorVerb::Promote => "promote",
        }
    }

    /// The word of the token.
    #[tactic(auto, unfolding(crate::specs::Word::mirror_verb_of))]
    pub fn of(token: &[u8]) -> Result<MirrorVerb, PartFault>
        ensures { Gives result (mirror_verb_of token.now) }
    {
        known(MirrorVerb::with_word(token))
    }

    fn with_word(token: &[u8]) -> Option<MirrorVerb>
        ensures { result ≡ with_word_in mirror_word all_mirror_verbs token.now }
    {
        MirrorVerb::ALL
            .iter()
            .copied()
            .find(|verb| is(token, verb.word()))
    }
}

impl OfMirrored {
    fn command(self, image: AskedName) -> Command
        ensures { result ≡ command_in self image }
    {
        match self {
            OfMirrored::Enable => Command::MirrorEnable { image },
            OfMirrored::Demote => Command::MirrorDemote { image },
            OfMirrored::Resync => Command::MirrorResync { image },
            OfMirrored::Status => Command::MirrorStatus { image },
            OfMirrored::Follow => Command::MirrorFollow { image },
        }
    }
}

/// The command of a word behind `mirror`.
#[tactic(auto, unfolding(crate::specs::Form::form))]
pub fn mirror_command(verb: MirrorVerb, mut tokens: Tokens<'_>) -> Result<Command, PartFault>
    ensures { Gives result (mirror_form verb (tokens_of tokens.entry.rest.now)) }
{
    match verb {
        MirrorVerb::Of(verb) => {
            let image = tokens.name()?;
            tokens.end(verb.command(image))
        }
        MirrorVerb::Promote => {
            let image = tokens.name()?;
            let force = tokens.flag("force")?;
            tokens.end(Command::MirrorPromote { image, force })
        }
    }
}
