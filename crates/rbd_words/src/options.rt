//! The options of `gen`.
ghost use Rattle.std.specs.Prelude.{◌≡◌, ◌≤◌, ℕ, decimal, IfNone, IfSome, option_and_then};
ghost use Rattle.clap.specs.Words.{first_of, found_of, rows_of};
ghost use Rattle.rbd_words.specs.Command.{read, told_options};
ghost use Rattle.rbd_words.specs.Load.{IsLoad};
ghost use Rattle.rbd_words.specs.Words.{load_of as load_in};

use crate::load::Load;
use clap::ArgMatches;
use itoa::Buffer;

/// The options that were told so far.
#[derive(Clone, Copy, Debug, PartialEq, Eq, Hash)]
pub struct Options {
    pub seed: Option<u32>,
    pub clients: Option<u32>,
    pub commands: Option<u32>,
}

/// The load that the options of `gen` ask for, or `None` where they ask for none.
pub fn load<'a>(matches: &ArgMatches<'a>) -> Option<Load>
    ensures asked { result ≡ option_and_then load_in (told_options (rows_of (found_of matches.now))) }
    ensures range { IfSome result IsLoad }
{
    let told = Options {
        seed: value(matches, "seed")?,
        clients: value(matches, "clients")?,
        commands: value(matches, "commands")?,
    };
    told.load()
}

/// The number of an option, where it was told, or `None` where its value isn't a number.
fn value<'a>(matches: &ArgMatches<'a>, name: &str) -> Option<Option<u32>>
    ensures { result ≡ read (first_of name.now (rows_of (found_of matches.now))) }
{
    match matches.get_str(name) {
        None => Some(None),
        Some(text) => Some(Some(number(text)?)),
    }
}

impl Options {
    /// All three options, where their numbers are in their ranges.
    fn load(&self) -> Option<Load>
        ensures asked { result ≡ load_in self.now }
        ensures range { IfSome result IsLoad }
    {
        let seed = self.seed?;
        let clients = self.clients?;
        let commands = self.commands?;
        if clients < 1 || clients > 16 || commands > 10_000 {
            return None;
        }
        Some(Load {
            seed,
            clients,
            commands,
        })
    }
}

/// A number as scripts have numbers: decimal, without sign or leading zeros.
fn number(value: &str) -> Option<u32>
    ensures found { IfSome result (λ n. (value.now ≡ decimal n) × (n ≤ 4294967295)) }
    ensures none { IfNone result ((n : ℕ) → value.now ≡ decimal n → n ≤ 4294967295 → ⊥) }
{
    let Ok(number) = value.parse::<u32>() else {
        return None;
    };
    if Buffer::new().format(number) == value {
        Some(number)
    } else {
        None
    }
}
