//! The spans of a journal.
ghost use Rattle.std.specs.Prelude.{◌≡◌, OnOk, OnErr};
ghost use Rattle.rbd_kinds.specs.Spans.{end_after};
ghost use Rattle.rbd_journal.specs.Records.{extended, newest_bears, same_tag};

use rbd_kinds::{NoMemory, Position, Span, Tag};

/// The last number of some spans, or 0.
pub fn end_of(spans: &[Span]) -> u64
    ensures { result ≡ end_after 0 spans.now }
{
    match spans.last() {
        Some(span) => span.last,
        None => 0,
    }
}

/// Adds a position behind the last: to the newest span, or as a span of its own. NoMemory where the
/// memory for that is refused.
pub fn extend(spans: &mut Vec<Span>, position: Position) -> Result<(), NoMemory>
    ensures ok { OnOk result (spans.new.items ≡ extended position spans.old.items) }
    ensures err { OnErr result (spans.new.items ≡ spans.old.items) }
{
    if newest_bears(spans.as_slice(), position.tag) {
        let newest = spans.len() - 1;
        spans[newest].last = position.seq;
    } else {
        spans.push(Span {
            tag: position.tag,
            first: position.seq,
            last: position.seq,
        })?;
    }
    Ok(())
}

/// Whether the newest span bears this tag.
fn newest_bears(spans: &[Span], tag: Tag) -> bool
    ensures { result ≡ newest_bears tag spans.now }
{
    match spans.last() {
        Some(span) => is_same(span.tag, tag),
        None => false,
    }
}

fn is_same(a: Tag, b: Tag) -> bool
    ensures { result ≡ same_tag a b }
{
    a == b
}
