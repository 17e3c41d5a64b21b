// What no program does and no clause says: that a stream is copied while there is memory, with its entries, its groups
// and what is pending.
use sr_bytes::{Fields, Name};
use sr_ids::{Id, Spec};
use sr_stream::Stream;
use std::alloc::{AllocError, Global};
use std::test::Fail;

/// Adds an entry with a field, and delivers it to a reader of a new group.
fn fill(stream: &mut Stream, alloc: Global, name: &Name) -> Result<(), Fail> {
    let mut fields = Fields::new(alloc);
    fields.add(b"f", b"v")?;
    stream.add(Spec::Written(Id { ms: 1, seq: 1 }), 0, fields)?;
    stream.create_group(alloc, name, Id { ms: 0, seq: 0 })?;
    Ok(deliver(stream, alloc, name)?)
}

/// Delivers what is new to a reader of a group, both of this name.
fn deliver(stream: &mut Stream, alloc: Global, name: &Name) -> Result<(), AllocError> {
    if stream.has_group(name) {
        let (entries, group) = stream.entries_and_group(name);
        let shown = group.deliver(alloc, name, 10, entries, None, false)?;
        group.show(shown);
    }
    Ok(())
}

/// How many entries a stream has, and how many are pending in a group.
fn counts(stream: &Stream, name: &Name) -> (usize, usize) {
    match stream.group(name) {
        Some(group) => (stream.entries().len(), group.pending().len()),
        None => (stream.entries().len(), 0),
    }
}

/// Fills a stream, and counts what a copy has.
fn count_copied(stream: &mut Stream, alloc: Global, name: &Name) -> Result<(usize, usize), Fail> {
    fill(stream, alloc, name)?;
    let copy = stream.copy(alloc)?;
    Ok(counts(&copy, name))
}

#[test]
fn a_stream_is_copied_with_its_groups(rt: HostRuntime) -> Result<(), Fail> {
    let name = Name::new(Vec::from_slice(rt.alloc(), b"g")?);
    let mut stream = Stream::new(rt.alloc());
    let counted = count_copied(&mut stream, rt.alloc(), &name)?;
    assert!(rt; counted == (1, 1));
    Ok(())
}
