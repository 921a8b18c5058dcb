//! What the definitions of a journal mean for its readers: each law is the contract of a function
//! that does nothing. `frame_at` is what `read` answers.
ghost use Rattle.std.specs.Prelude.{◌≡◌, ◌≢◌, ℕ, ◌+◌, ◌<◌, ◌≤◌, List, All, AllPairs, None, Some, IsSome, slice_get};
ghost use Rattle.rbd_kinds.specs.declared.journal.JournalClient.{JournalClient};
ghost use Rattle.rbd_kinds.specs.declared.journal.Position.{Position};
ghost use Rattle.rbd_kinds.specs.declared.journal.Span.{Span};
ghost use Rattle.rbd_kinds.specs.Spans.{RunFrom};
ghost use Rattle.rbd_journal.specs.Calls.{Call, tags_drawn};
ghost use Rattle.rbd_journal.specs.Records.{IsSoundJournal, JournalRecords, appended, based_on, committed, frame_at, least_commit, mirror_registered, tag_drawn, tag_of, frames_trimmed, journal_view};

/// After an append its position and frame are read at its number, and what was read at each other
/// number before.
pub fn reads_after_an_append()
    ensures here { (j : JournalRecords) (p : Position) (frame : List ℕ)
        → IsSoundJournal j → p.seq ≡ j.end + 1 → frame_at (appended p frame j) p.seq ≡ Some (p, frame) }

    ensures elsewhere { (j : JournalRecords) (p : Position) (frame : List ℕ) (seq : ℕ)
        → IsSoundJournal j → p.seq ≡ j.end + 1 → seq ≢ p.seq → frame_at (appended p frame j) seq ≡ frame_at j seq }
{}

/// A trim takes the frames that every client has committed, and no other.
pub fn reads_after_a_trim()
    ensures committed { (j : JournalRecords) (seq : ℕ)
        → IsSoundJournal j → seq ≤ least_commit j → frame_at (frames_trimmed j) seq ≡ None }

    ensures needed { (j : JournalRecords) (seq : ℕ)
        → IsSoundJournal j → least_commit j < seq → frame_at (frames_trimmed j) seq ≡ frame_at j seq }
{}

/// Each frame that the owner hasn't committed is held, so a new owner can always replay the rest.
pub fn uncommitted_frames_are_held()
    ensures { (j : JournalRecords) (seq : ℕ) → IsSoundJournal j → j.local < seq → seq ≤ j.end
        → IsSome (frame_at j seq) }
{}

/// What is read with a number has that number, and the tag of the span that has it in the view:
/// there is such a span, and whichever has it bears that tag.
pub fn tags_of_held_frames()
    ensures number { (j : JournalRecords) (seq : ℕ) (p : Position) (frame : List ℕ)
        → frame_at j seq ≡ Some (p, frame) → p.seq ≡ seq }

    ensures tag { (j : JournalRecords) (seq : ℕ) (p : Position) (frame : List ℕ)
        → IsSoundJournal j → frame_at j seq ≡ Some (p, frame) → tag_of (journal_view j).spans seq ≡ Some p.tag }

    ensures only { (j : JournalRecords) (k seq : ℕ) (s : Span)
        → IsSoundJournal j → slice_get (journal_view j).spans k ≡ Some s → s.first ≤ seq → seq ≤ s.last
        → tag_of (journal_view j).spans seq ≡ Some s.tag }
{}

/// A new journal is sound, and each call leaves it sound.
pub fn soundness_is_kept()
    ensures based { (spans : List Span) → RunFrom 1 spans → IsSoundJournal (based_on spans) }

    ensures appended { (j : JournalRecords) (p : Position) (frame : List ℕ)
        → IsSoundJournal j → p.seq ≡ j.end + 1 → IsSoundJournal (appended p frame j) }

    ensures committed { (j : JournalRecords) (client : JournalClient) (seq : ℕ)
        → IsSoundJournal j → seq ≤ j.end → IsSoundJournal (committed client seq j) }

    ensures registered { (j : JournalRecords) → IsSoundJournal j → IsSoundJournal (mirror_registered j) }
    ensures trimmed { (j : JournalRecords) → IsSoundJournal j → IsSoundJournal (frames_trimmed j) }
    ensures tag_drawn { (j : JournalRecords) → IsSoundJournal j → IsSoundJournal (tag_drawn j) }
{}

/// No journal draws a tag twice, whatever is called between: each tag's number is above all that
/// were drawn before.
pub fn tags_are_drawn_once()
    ensures new { (calls : List Call) (j : JournalRecords) → All (λ t. j.drawn < t.no) (tags_drawn calls j) }
    ensures once { (calls : List Call) (j : JournalRecords) → AllPairs (λ t u. t ≢ u) (tags_drawn calls j) }
{}
