//! What a journal tells after some steps. The wanted answers were worked out from the rules in
//! prose.
use rbd_journal::Journal;
use rbd_kinds::{ImageId, JournalClient, NoMemory, Position, SiteId, Span, Spans, Tag};
use std::process::Abort;
use std::test::Fail;

const IMAGE: ImageId = ImageId(7);

const FIRST: Tag = Tag {
    site: SiteId::A,
    image: IMAGE,
    no: 1,
};

/// Whether this frame is held with this number, under the first tag.
fn reads(journal: &Journal, seq: u64, wanted: &[u8]) -> bool {
    match journal.read(seq) {
        Some((position, frame)) => position == Position { tag: FIRST, seq } && frame == wanted,
        None => false,
    }
}

/// The number of the first frame that is held, the counters of both clients, and the last number
/// that was drawn.
type Told = (u64, u64, Option<u64>, u64);

fn told(journal: &Journal) -> Result<Told, NoMemory> {
    let view = journal.view()?;
    Ok((view.first, view.local, view.mirror, view.drawn))
}

/// Appends a frame under a tag.
fn append(journal: &mut Journal, tag: Tag, seq: u64, frame: &[u8]) -> Result<(), Fail> {
    journal.append(Position { tag, seq }, frame)?;
    Ok(())
}

/// Three frames, for a mirror that hasn't read any: nothing is trimmed.
fn append_three(rt: &impl Abort, journal: &mut Journal) -> Result<(), Fail> {
    assert!(rt; journal.tag(SiteId::A, IMAGE) == FIRST);
    append(journal, FIRST, 1, b"one")?;
    append(journal, FIRST, 2, b"two")?;
    append(journal, FIRST, 3, b"three")?;
    journal.register();
    journal.trim();
    assert!(rt; told(journal)?.0 == 1);
    Ok(())
}

/// The mirror's second count is below its first, and changes nothing.
fn trim_to_mirror(rt: &impl Abort, journal: &mut Journal) -> Result<(), Fail> {
    journal.commit(JournalClient::Local, 3);
    journal.commit(JournalClient::Mirror, 2);
    journal.commit(JournalClient::Mirror, 1);
    journal.trim();
    assert!(rt; told(journal)? == (3, 3, Some(2), 1));
    assert!(rt; journal.read(2).is_none());
    assert!(rt; reads(journal, 3, b"three"));
    Ok(())
}

fn trims(rt: &impl Abort, journal: &mut Journal) -> Result<(), Fail> {
    append_three(rt, journal)?;
    trim_to_mirror(rt, journal)
}

#[test]
fn a_trim_leaves_what_the_mirror_needs(rt: HostRuntime) -> Result<(), Fail> {
    let mut journal = Journal::based(rt.alloc(), &Spans::new(rt.alloc()))?;
    trims(&rt, &mut journal)
}

const OLDEST: Span = Span {
    tag: Tag {
        site: SiteId::B,
        image: IMAGE,
        no: 4,
    },
    first: 1,
    last: 4,
};

const SPANS: [Span; 2] = [
    OLDEST,
    Span {
        tag: Tag {
            site: SiteId::A,
            image: IMAGE,
            no: 6,
        },
        first: 5,
        last: 9,
    },
];

const SAME: Tag = Tag {
    site: SiteId::A,
    image: IMAGE,
    no: 6,
};

const OTHER: Tag = Tag {
    site: SiteId::B,
    image: IMAGE,
    no: 6,
};

/// The spans after two more frames, one under the same tag and one under another.
const GROWN: [Span; 3] = [
    OLDEST,
    Span {
        tag: SAME,
        first: 5,
        last: 10,
    },
    Span {
        tag: OTHER,
        first: 11,
        last: 11,
    },
];

fn has_spans(journal: &Journal, wanted: &[Span]) -> Result<bool, NoMemory> {
    let view = journal.view()?;
    Ok(view.spans.as_slice() == wanted)
}

fn goes_on(rt: &impl Abort, journal: &mut Journal) -> Result<(), Fail> {
    assert!(rt; has_spans(journal, &SPANS)?);
    assert!(rt; told(journal)? == (10, 9, None, 0));
    assert!(rt; journal.read(9).is_none());
    append(journal, SAME, 10, b"ten")?;
    append(journal, OTHER, 11, b"eleven")?;
    assert!(rt; has_spans(journal, &GROWN)?);
    assert!(rt; told(journal)?.0 == 10);
    Ok(())
}

#[test]
fn a_based_journal_goes_on_where_its_spans_end(rt: HostRuntime) -> Result<(), Fail> {
    let alloc = rt.alloc();
    let spans = Spans::from_vec(Vec::from_slice(alloc, &SPANS)?);
    let mut journal = Journal::based(alloc, &spans)?;
    goes_on(&rt, &mut journal)
}
