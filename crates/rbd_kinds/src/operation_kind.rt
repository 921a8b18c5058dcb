//! The kinds of operations, and their words.
ghost use Rattle.std.specs.Prelude.{◌≡◌, ◌≢◌, IfSome, IsNone};
ghost use Rattle.rbd_kinds.specs.declared.operation_kind.OpKind.{OpKind};
ghost use Rattle.rbd_kinds.specs.Operation.{op_word};

/// What an operation does to its one object. The words stand in scripts and traces.
#[derive(Clone, Copy, Debug, PartialEq, Eq)]
pub enum OpKind {
    DirFind,
    DirAdd,
    DirRemove,
    DirRename,
    DirList,
    ChildAdd,
    ChildRemove,
    ChildList,
    BlockAdd,
    HeaderCreate,
    HeaderGet,
    HeaderSetSize,
    HeaderSnapAdd,
    HeaderSnapRemove,
    HeaderSnapStatus,
    HeaderDetach,
    HeaderRole,
    HeaderMirror,
    HeaderSynced,
    HeaderRemove,
    LockTake,
    LockDrop,
    LockBreak,
    Watch,
    Unwatch,
    WatchersGet,
    Notify,
    DataRead,
    DataWrite,
    DataWriteFull,
    DataZero,
    DataEmpty,
    DataRemove,
    DataCopyUp,
    MapResize,
    MapGet,
    MapPut,
    MapSet,
    MapRemove,
    JournalCreate,
    JournalTag,
    JournalAppend,
    JournalRead,
    JournalSpans,
    JournalRegister,
    JournalCommit,
    JournalRemove,
}

impl OpKind {
    /// All kinds, in the order of their declaration.
    pub const ALL: [OpKind; 47] = [
        OpKind::DirFind,
        OpKind::DirAdd,
        OpKind::DirRemove,
        OpKind::DirRename,
        OpKind::DirList,
        OpKind::ChildAdd,
        OpKind::ChildRemove,
        OpKind::ChildList,
        OpKind::BlockAdd,
        OpKind::HeaderCreate,
        OpKind::HeaderGet,
        OpKind::HeaderSetSize,
        OpKind::HeaderSnapAdd,
        OpKind::HeaderSnapRemove,
        OpKind::HeaderSnapStatus,
        OpKind::HeaderDetach,
        OpKind::HeaderRole,
        OpKind::HeaderMirror,
        OpKind::HeaderSynced,
        OpKind::HeaderRemove,
        OpKind::LockTake,
        OpKind::LockDrop,
        OpKind::LockBreak,
        OpKind::Watch,
        OpKind::Unwatch,
        OpKind::WatchersGet,
        OpKind::Notify,
        OpKind::DataRead,
        OpKind::DataWrite,
        OpKind::DataWriteFull,
        OpKind::DataZero,
        OpKind::DataEmpty,
        OpKind::DataRemove,
        OpKind::DataCopyUp,
        OpKind::MapResize,
        OpKind::MapGet,
        OpKind::MapPut,
        OpKind::MapSet,
        OpKind::MapRemove,
        OpKind::JournalCreate,
        OpKind::JournalTag,
        OpKind::JournalAppend,
        OpKind::JournalRead,
        OpKind::JournalSpans,
        OpKind::JournalRegister,
        OpKind::JournalCommit,
        OpKind::JournalRemove,
    ];

    /// Its word, as `dir-find`.
    pub fn word(self) -> &'static str
        ensures { result.now ≡ op_word self }
    {
        match self {
            OpKind::DirFind => "dir-find",
            OpKind::DirAdd => "dir-add",
            OpKind::DirRemove => "dir-remove",
            OpKind::DirRename => "dir-rename",
            OpKind::DirList => "dir-list",
            OpKind::ChildAdd => "child-add",
            OpKind::ChildRemove => "child-remove",
            OpKind::ChildList => "child-list",
            OpKind::BlockAdd => "block-add",
            OpKind::HeaderCreate => "header-create",
            OpKind::HeaderGet => "header-get",
            OpKind::HeaderSetSize => "header-set-size",
            OpKind::HeaderSnapAdd => "header-snap-add",
            OpKind::HeaderSnapRemove => "header-snap-remove",
            OpKind::HeaderSnapStatus => "header-snap-status",
            OpKind::HeaderDetach => "header-detach",
            OpKind::HeaderRole => "header-role",
            OpKind::HeaderMirror => "header-mirror",
            OpKind::HeaderSynced => "header-synced",
            OpKind::HeaderRemove => "header-remove",
            OpKind::LockTake => "lock-take",
            OpKind::LockDrop => "lock-drop",
            OpKind::LockBreak => "lock-break",
            OpKind::Watch => "watch",
            OpKind::Unwatch => "unwatch",
            OpKind::WatchersGet => "watchers-get",
            OpKind::Notify => "notify",
            OpKind::DataRead => "data-read",
            OpKind::DataWrite => "data-write",
            OpKind::DataWriteFull => "data-write-full",
            OpKind::DataZero => "data-zero",
            OpKind::DataEmpty => "data-empty",
            OpKind::DataRemove => "data-remove",
            OpKind::DataCopyUp => "data-copy-up",
            OpKind::MapResize => "map-resize",
            OpKind::MapGet => "map-get",
            OpKind::MapPut => "map-put",
            OpKind::MapSet => "map-set",
            OpKind::MapRemove => "map-remove",
            OpKind::JournalCreate => "journal-create",
            OpKind::JournalTag => "journal-tag",
            OpKind::JournalAppend => "journal-append",
            OpKind::JournalRead => "journal-read",
            OpKind::JournalSpans => "journal-spans",
            OpKind::JournalRegister => "journal-register",
            OpKind::JournalCommit => "journal-commit",
            OpKind::JournalRemove => "journal-remove",
        }
    }

    /// The kind of a word, or `None` where no kind has it.
    pub fn from_word(word: &[u8]) -> Option<OpKind>
        ensures some { IfSome result (λ kind. op_word kind ≡ word.now) }
        ensures none { IsNone result → (kind : OpKind) → op_word kind ≢ word.now }
    {
        for kind in OpKind::ALL {
            if kind.word().as_bytes() == word {
                return Some(kind);
            }
        }
        None
    }
}
