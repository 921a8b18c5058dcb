//! What the definitions of places mean: each law is the contract of a function that does nothing.
ghost use Rattle.std.specs.Prelude.{◌≡◌, length, List};
ghost use Rattle.rbd_pages.specs.Most.{AreStates, most_named};
ghost use Rattle.rbd_pages.specs.Places.{KeepsMost};
ghost use Rattle.rbd_pages.specs.Sheets.{Sheet};

/// An arena has as many places as pages were named when the most were, and so have sheaves. A call
/// that leaves the number of places keeps to that, as one does that takes a free place first.
pub fn places_are_the_most_named()
    ensures most { (earlier : List (List Sheet)) (now : List Sheet)
        → AreStates earlier now → length now ≡ most_named earlier now }

    ensures left { (old new : List Sheet) → length new ≡ length old → KeepsMost old new }
{}
