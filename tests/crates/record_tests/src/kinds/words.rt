//! Words and numbers: of refusals, of operations, and the limits of numbers.
use crate::holds;
use rbd_kinds::{NoMemory, Number, OpKind, ReadLength, Refusal};
use std::alloc::Global;
use std::process::Abort;

/// Whether the refusal has this number, errno and word.
fn is_told(alloc: Global, refusal: Refusal, want: &str) -> bool {
    let (number, errno, word) = (refusal.number(), refusal.errno(), refusal.word());
    match format!(in alloc; "{number} {errno} {word}") {
        Ok(text) => text.as_str() == want,
        Err(_) => false,
    }
}

fn are_told(rt: &impl Abort, alloc: Global, table: &[(Refusal, &str)]) {
    for (refusal, want) in table {
        assert!(rt; is_told(alloc, *refusal, want), "{want}");
    }
}

/// The numbers are this project's; the errno are those of Linux.
#[test]
fn refusals_have_their_numbers_and_words(rt: HostRuntime) {
    are_told(
        &rt,
        rt.alloc(),
        &[
            (Refusal::BadRange, "1 22 BadRange"),
            (Refusal::NoImage, "2 2 NoImage"),
            (Refusal::ImageExists, "3 17 ImageExists"),
            (Refusal::NoSnap, "4 2 NoSnap"),
            (Refusal::SnapExists, "5 17 SnapExists"),
            (Refusal::SnapProtected, "6 16 SnapProtected"),
            (Refusal::NotProtected, "7 22 NotProtected"),
            (Refusal::HasChildren, "8 16 HasChildren"),
            (Refusal::HasSnaps, "9 39 HasSnaps"),
            (Refusal::InUse, "10 16 InUse"),
            (Refusal::NonPrimary, "11 30 NonPrimary"),
            (Refusal::Fenced, "12 108 Fenced"),
            (Refusal::BadShape, "13 22 BadShape"),
            (Refusal::NotMirrored, "14 22 NotMirrored"),
            (Refusal::IsPrimary, "15 22 IsPrimary"),
            (Refusal::NotDemoted, "16 16 NotDemoted"),
            (Refusal::TooDeep, "17 22 TooDeep"),
            (Refusal::NotJournaled, "18 22 NotJournaled"),
            (Refusal::NoParent, "19 22 NoParent"),
        ],
    );
}

fn is_printed(alloc: Global, refusal: Refusal, want: &str) -> bool {
    match format!(in alloc; "{refusal}") {
        Ok(text) => text.as_str() == want,
        Err(_) => false,
    }
}

#[test]
fn a_refusal_is_printed_with_its_errno(rt: HostRuntime) {
    assert!(rt; is_printed(rt.alloc(), Refusal::Fenced, "error 108 Fenced"));
}

fn no_memory_is_printed(alloc: Global, want: &str) -> bool {
    match format!(in alloc; "{NoMemory}") {
        Ok(text) => text.as_str() == want,
        Err(_) => false,
    }
}

#[test]
fn refused_memory_is_printed(rt: HostRuntime) {
    assert!(rt; no_memory_is_printed(rt.alloc(), "out of memory"));
}

/// Whether the kind has the word, and the word leads to it.
fn has_word(kind: OpKind, word: &str) -> bool {
    kind.word() == word && OpKind::from_word(word.as_bytes()) == Some(kind)
}

fn words_are_those_of_their_kinds(rt: &impl Abort, table: &[(OpKind, &str)]) {
    for (kind, word) in table {
        assert!(rt; has_word(*kind, word), "{word}");
    }
}

#[test]
fn operations_on_names_and_headers_have_their_words(rt: HostRuntime) {
    words_are_those_of_their_kinds(
        &rt,
        &[
            (OpKind::DirFind, "dir-find"),
            (OpKind::DirAdd, "dir-add"),
            (OpKind::DirRemove, "dir-remove"),
            (OpKind::DirRename, "dir-rename"),
            (OpKind::DirList, "dir-list"),
            (OpKind::ChildAdd, "child-add"),
            (OpKind::ChildRemove, "child-remove"),
            (OpKind::ChildList, "child-list"),
            (OpKind::BlockAdd, "block-add"),
            (OpKind::HeaderCreate, "header-create"),
            (OpKind::HeaderGet, "header-get"),
            (OpKind::HeaderSetSize, "header-set-size"),
            (OpKind::HeaderSnapAdd, "header-snap-add"),
            (OpKind::HeaderSnapRemove, "header-snap-remove"),
            (OpKind::HeaderSnapStatus, "header-snap-status"),
            (OpKind::HeaderDetach, "header-detach"),
            (OpKind::HeaderRole, "header-role"),
            (OpKind::HeaderMirror, "header-mirror"),
            (OpKind::HeaderSynced, "header-synced"),
            (OpKind::HeaderRemove, "header-remove"),
            (OpKind::LockTake, "lock-take"),
            (OpKind::LockDrop, "lock-drop"),
            (OpKind::LockBreak, "lock-break"),
            (OpKind::Watch, "watch"),
            (OpKind::Unwatch, "unwatch"),
            (OpKind::WatchersGet, "watchers-get"),
            (OpKind::Notify, "notify"),
        ],
    );
}

#[test]
fn operations_on_data_maps_and_journals_have_their_words(rt: HostRuntime) {
    words_are_those_of_their_kinds(
        &rt,
        &[
            (OpKind::DataRead, "data-read"),
            (OpKind::DataWrite, "data-write"),
            (OpKind::DataWriteFull, "data-write-full"),
            (OpKind::DataZero, "data-zero"),
            (OpKind::DataEmpty, "data-empty"),
            (OpKind::DataRemove, "data-remove"),
            (OpKind::DataCopyUp, "data-copy-up"),
            (OpKind::MapResize, "map-resize"),
            (OpKind::MapGet, "map-get"),
            (OpKind::MapPut, "map-put"),
            (OpKind::MapSet, "map-set"),
            (OpKind::MapRemove, "map-remove"),
            (OpKind::JournalCreate, "journal-create"),
            (OpKind::JournalTag, "journal-tag"),
            (OpKind::JournalAppend, "journal-append"),
            (OpKind::JournalRead, "journal-read"),
            (OpKind::JournalSpans, "journal-spans"),
            (OpKind::JournalRegister, "journal-register"),
            (OpKind::JournalCommit, "journal-commit"),
            (OpKind::JournalRemove, "journal-remove"),
        ],
    );
}

#[test]
fn other_words_are_of_no_operation(rt: HostRuntime) {
    for word in "|dir|dir-find |DIR-FIND|data-writes|locktake".split('|') {
        let found = OpKind::from_word(word.as_bytes());
        assert!(rt; found.is_none(), "{word}");
    }
}

fn is_length(value: u64) -> bool {
    match ReadLength::new(value) {
        Some(number) => number.get() == value,
        None => false,
    }
}

#[test]
fn numbers_end_at_their_limit(rt: HostRuntime) {
    assert!(rt; is_length(0));
    assert!(rt; is_length(65_536));
    assert!(rt; ReadLength::new(65_537).is_none());
    assert!(rt; Number::new(9_223_372_036_854_775_807).is_some());
    assert!(rt; Number::new(9_223_372_036_854_775_808).is_none());
}
