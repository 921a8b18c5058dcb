//! The first words of commands.
ghost use Rattle.std.specs.Prelude.{◌≡◌};
ghost use Rattle.rbd_script.specs.Fault.{Gives};
ghost use Rattle.rbd_script.specs.Verbs.{all_verbs, image_command, image_word, verb_of, verb_word};
ghost use Rattle.rbd_script.specs.Word.{with_word as with_word_in};

use crate::fault::{PartFault, known};
use crate::word::is;
use rbd_kinds::{AskedName, Command};

/// The first word of a command.
#[derive(Clone, Copy)]
pub enum Verb {
    Create,
    Clone,
    Write,
    Fill,
    Discard,
    Read,
    Resize,
    Rename,
    Image(ImageVerb),
    List,
    Children,
    Tell,
    Snap,
    Mirror,
}

/// The words of the commands that name an image and nothing else.
#[derive(Clone, Copy)]
pub enum ImageVerb {
    Remove,
    Info,
    Used,
    Flatten,
    Quiesce,
    Resume,
    Close,
}

impl Verb {
    const ALL: [Verb; 20] = [
        Verb::Create,
        Verb::Clone,
        Verb::Write,
        Verb::Fill,
        Verb::Discard,
        Verb::Read,
        Verb::Resize,
        Verb::Rename,
        Verb::Image(ImageVerb::Remove),
        Verb::Image(ImageVerb::Info),
        Verb::Image(ImageVerb::Used),
        Verb::Image(ImageVerb::Flatten),
        Verb::Image(ImageVerb::Quiesce),
        Verb::Image(ImageVerb::Resume),
        Verb::Image(ImageVerb::Close),
        Verb::List,
        Verb::Children,
        Verb::Tell,
        Verb::Snap,
        Verb::Mirror,
    ];

    fn word(self) -> &'static str
        ensures { result.now ≡ verb_word self }
    {
        match self {
            Verb::Create => "create",
            Verb::Clone => "clone",
            Verb::Write => "write",
            Verb::Fill => "fill",
            Verb::Discard => "discard",
            Verb::Read => "read",
            Verb::Resize => "resize",
            Verb::Rename => "rename",
            Verb::Image(verb) => verb.word(),
            Verb::List => "ls",
            Verb::Children => "children",
            Verb::Tell => "tell",
            Verb::Snap => "snap",
            Verb::Mirror => "mirror",
        }
    }

    /// The verb that a token spells. Any other token is an unknown word.
    #[tactic(auto, unfolding(crate::specs::Verbs::verb_of))]
    pub fn of(token: &[u8]) -> Result<Verb, PartFault>
        ensures { Gives result (verb_of token.now) }
    {
        known(Verb::with_word(token))
    }

    fn with_word(token: &[u8]) -> Option<Verb>
        ensures { result ≡ with_word_in verb_word all_verbs token.now }
    {
        Verb::ALL
            .iter()
            .copied()
            .find(|verb| is(token, verb.word()))
    }
}

impl ImageVerb {
    fn word(self) -> &'static str
        ensures { result.now ≡ image_word self }
    {
        match self {
            ImageVerb::Remove => "rm",
            ImageVerb::Info => "info",
            ImageVerb::Used => "du",
            ImageVerb::Flatten => "flatten",
            ImageVerb::Quiesce => "quiesce",
            ImageVerb::Resume => "resume",
            ImageVerb::Close => "close",
        }
    }

    /// Its command of an image.
    pub fn command(self, image: AskedName) -> Command
        ensures { result ≡ image_command self image }
    {
        match self {
            ImageVerb::Remove => Command::Remove { image },
            ImageVerb::Info => Command::Info { image },
            ImageVerb::Used => Command::Used { image },
            ImageVerb::Flatten => Command::Flatten { image },
            ImageVerb::Quiesce => Command::Quiesce { image },
            ImageVerb::Resume => Command::Resume { image },
            ImageVerb::Close => Command::Close { image },
        }
    }
}
