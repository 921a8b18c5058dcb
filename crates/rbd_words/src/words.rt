//! The words.
ghost use Rattle.std.specs.Prelude.{◌≡◌, ℕ, List, Some, codes, map, IfOk, IfSome};
ghost use Rattle.std.specs.List.{list_any};
ghost use Rattle.std.specs.String.{string_bytes};
ghost use Rattle.clap.specs.Words.{found_of, one_of, rows_of};
ghost use Rattle.rbd_script.specs.Token.{is};
ghost use Rattle.rbd_words.specs.Command.{IsMatched};
ghost use Rattle.rbd_words.specs.Words.{IsInRange, asked_for_by};

use crate::asked::{Asked, Mode};
use crate::command::lab;
use crate::options::load;
use clap::ArgMatches;
use clap::error::ErrorKind;
use rbd_values::NoMemory;
use std::alloc::Global;

impl Asked {
    /// What the words behind the program's name ask for, or `None` where they are others. Fails
    /// where memory is refused.
    pub fn of(alloc: Global, words: &[String]) -> Result<Option<Asked>, NoMemory>
        ensures asked { IfOk result (λ asked. asked ≡ asked_for_by (map (λ w. string_bytes w) words.now)) }
        ensures range { IfOk result (λ asked. IfSome asked IsInRange) }
    {
        if has_end(words) {
            return Ok(None);
        }
        match lab(alloc)?.try_get_matches_from(words) {
            Ok(matches) => Ok(asked(&matches)),
            Err(error) => {
                if error.kind() == ErrorKind::OutOfMemory {
                    return Err(NoMemory);
                }
                Ok(None)
            }
        }
    }
}

/// Whether a word is `--`, which `clap` takes for the end of the options.
fn has_end(words: &[String]) -> bool
    ensures { result ≡ list_any (λ w. is (codes "--") (string_bytes w)) words.now }
{
    words.iter().any(|word| word.as_str() == "--")
}

/// What is asked for by the matches of these words.
fn asked<'a>(matches: &ArgMatches<'a>) -> Option<Asked>
    ensures asked { (words : List (List ℕ)) → IsMatched words matches.now → result ≡ asked_for_by words }
    ensures range { IfSome result IsInRange }
{
    let (name, options) = matches.subcommand()?;
    if name == "run" {
        return Some(Asked::Run(mode(options)));
    }
    Some(Asked::Generate(load(options)?))
}

/// What the options of `run` ask for.
fn mode<'a>(matches: &ArgMatches<'a>) -> Mode
    ensures trace { one_of (codes "trace") (rows_of (found_of matches.now)) ≡ Some (codes "true")
        → result ≡ Mode.Trace }
    ensures replies { one_of (codes "trace") (rows_of (found_of matches.now)) ≡ Some (codes "false")
        → result ≡ Mode.Replies }
{
    if matches.get_flag("trace") {
        Mode::Trace
    } else {
        Mode::Replies
    }
}
