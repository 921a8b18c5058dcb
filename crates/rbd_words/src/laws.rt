//! What the words of `gen` are: each law is the contract of a function that does nothing.
ghost use Rattle.std.specs.Prelude.{◌≡◌, ℕ, List, ◌∷◌, codes, Some};
ghost use Rattle.rbd_words.specs.Load.{IsLoad};
ghost use Rattle.rbd_words.specs.Spelling.{AsksForLoad, SpellsLoad};
ghost use Rattle.rbd_words.specs.Words.{asked_for_by};
ghost use Rattle.rbd_words.specs.declared.asked.Asked.TheVariants.{Generate};
ghost use Rattle.rbd_words.specs.declared.load.Load.{Load};

/// A load in its range is asked for by its three options, in each order, with each value as the next
/// word or behind `=`.
pub fn loads_are_spelled()
    ensures { (load : Load) (words : List (List ℕ)) → IsLoad load → SpellsLoad load words
        → asked_for_by (codes "gen" ∷ words) ≡ Some (Generate load) }
{}

/// No other words ask for a load, and none for one that is out of its range.
pub fn only_such_words_ask_for_loads()
    ensures { (load : Load) (words : List (List ℕ)) → asked_for_by words ≡ Some (Generate load) → AsksForLoad load words
        × IsLoad load }
{}
