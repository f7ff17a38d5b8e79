//! The journal of a display: a list of events in chunks that copies share.
ghost use Rattle.std.specs.Prelude.{◌≡◌, ◌+◌, ◌<◌, ◌≤◌, ◌^◌, [], ◌∷◌, ◌++◌, length, take, slice_get, IfOk, OnOk, OnErr};
ghost use Rattle.std.specs.Option.{option_copied, option_map};
ghost use Rattle.std.specs.Arc.{arc_value};
ghost use Rattle.display_sheet.specs.Chunks.{joined};
ghost use Rattle.display_map.specs.Events.{event_of, events_of};
ghost use Rattle.display_map.specs.Journals.{KeepsEvents};

use crate::event::Event;
use cell_units::NoMemory;
use std::alloc::Global;
use std::marker::Model;
use std::sync::Arc;

/// How many events a chunk has. The last one may have fewer.
const CHUNK: usize = 256;

/// Some events that follow each other, shared with other journals.
#[derive(Debug, Drop)]
struct Chunk {
    events: Arc<Vec<Event>>,
}

impl Model for Chunk {
    ghost use Rattle.std.specs.Prelude.{List};
    ghost use Rattle.display_map.specs.Events.{Event};

    ghost Value = { List Event };

    ghost use Rattle.std.specs.Arc.{arc_value};
    ghost use Rattle.display_map.specs.Events.{events_of};

    ghost view = { λ c. events_of (arc_value c.events).items };
}

/// A copy of events.
fn copied(alloc: Global, events: &[Event]) -> Result<Vec<Event>, NoMemory>
    ensures { IfOk result (λ copy. events_of copy.items ≡ events_of events.now) }
{
    let mut copy = Vec::with_capacity(alloc, events.len())?;
    for event in events {
        copy.push(event.copy(alloc)?)?;
    }
    Ok(copy)
}

impl Chunk {
    /// A chunk of one event.
    fn new(alloc: Global, event: Event) -> Result<Chunk, NoMemory>
        ensures { IfOk result (λ chunk. chunk ≡ event_of event ∷ []) }
    {
        let mut events = Vec::new(alloc);
        events.push(event)?;
        Ok(Chunk {
            events: Arc::new(alloc, events)?,
        })
    }

    /// The same chunk once more.
    fn share(&self) -> Result<Chunk, NoMemory>
        ensures { IfOk result (λ chunk. chunk ≡ self.now) }
    {
        Ok(Chunk {
            events: Arc::try_clone(&self.events)?,
        })
    }

    /// The event at a place.
    fn get(&self, at: usize) -> Option<&Event>
        ensures { option_map event_of (option_copied result) ≡ slice_get self.now at }
    {
        self.events.get(at)
    }

    /// Appends an event after the first `len`, which takes the place of what is there. This is in place where the chunk
    /// isn't shared, and in a copy elsewhere.
    fn push_behind(&mut self, alloc: Global, len: usize, event: Event) -> Result<(), NoMemory>
        requires { len ≤ length self.old }
        ensures appended { OnOk result (self.new ≡ take len self.old ++ event_of event ∷ []) }
        ensures unchanged { OnErr result (take len self.new ≡ take len self.old) }
        ensures no_longer { OnErr result (length self.new ≤ length self.old) }
    {
        match Arc::get_mut(&mut self.events) {
            Some(own) => {
                own.truncate(len);
                own.push(event)?;
            }
            None => {
                let mut copy = copied(alloc, &self.events[..len])?;
                copy.push(event)?;
                self.events = Arc::new(alloc, copy)?;
            }
        }
        Ok(())
    }
}

/// The events of a display, in order. It is seen as the list of what they say.
#[derive(Debug)]
pub struct Journal {
    // Shared with other journals, which may end earlier: the events from `len` on are none of this one's.
    chunks: Option<Arc<Vec<Chunk>>>,
    len: u32,
}

impl Drop for Journal {
    fn drop(self) {
        let Journal { chunks: _, len: _ } = self;
    }
}

impl Model for Journal {
    ghost use Rattle.std.specs.Prelude.{List};
    ghost use Rattle.display_map.specs.Events.{Event};

    ghost Value = { List Event };

    ghost use Rattle.std.specs.Prelude.{take};
    ghost use Rattle.display_sheet.specs.Chunks.{joined};
    ghost use Rattle.display_map.specs.Journals.{KeepsEvents, kept_chunks};

    ghost view = { λ j. take j.len (joined (kept_chunks j.chunks)) };

    ghost invariant = { λ j. KeepsEvents j.len (kept_chunks j.chunks) };
}

/// The same chunks once more, each of them shared.
fn shared_chunks(alloc: Global, chunks: &[Chunk]) -> Result<Vec<Chunk>, NoMemory>
    ensures { IfOk result (λ list. list.items ≡ chunks.now) }
{
    let mut list = Vec::with_capacity(alloc, chunks.len())?;
    for chunk in chunks {
        list.push(chunk.share()?)?;
    }
    Ok(list)
}

/// Appends an event after the first `len` of chunks, which takes the place of what is there.
fn push_into(
    alloc: Global,
    chunks: &mut Vec<Chunk>,
    len: usize,
    event: Event,
) -> Result<(), NoMemory>
    requires { KeepsEvents len chunks.old.items }
    ensures appended { OnOk result (joined chunks.new.items ≡
        take len (joined chunks.old.items) ++ event_of event ∷ []) }
    ensures unchanged { OnErr result (take len (joined chunks.new.items) ≡
        take len (joined chunks.old.items)) }
    ensures kept { KeepsEvents len chunks.new.items }
{
    let full = len / CHUNK;
    let rest = len % CHUNK;
    if rest == 0 {
        chunks.truncate(full);
        chunks.push(Chunk::new(alloc, event)?)?;
    } else {
        chunks.truncate(full + 1);
        chunks[full].push_behind(alloc, rest, event)?;
    }
    Ok(())
}

/// Appends an event after the first `len`, which takes the place of what is there. Where the list of chunks is shared,
/// a list of the same chunks takes its place.
fn push_behind(
    alloc: Global,
    shared: &mut Arc<Vec<Chunk>>,
    len: usize,
    event: Event,
) -> Result<(), NoMemory>
    requires { KeepsEvents len (arc_value shared.old).items }
    ensures appended { OnOk result (joined (arc_value shared.new).items ≡
        take len (joined (arc_value shared.old).items) ++ event_of event ∷ []) }
    ensures unchanged { OnErr result (take len (joined (arc_value shared.new).items) ≡
        take len (joined (arc_value shared.old).items)) }
    ensures kept { KeepsEvents len (arc_value shared.new).items }
{
    match Arc::get_mut(shared) {
        Some(own) => push_into(alloc, own, len, event)?,
        None => {
            let mut list = shared_chunks(alloc, shared.as_slice())?;
            push_into(alloc, &mut list, len, event)?;
            *shared = Arc::new(alloc, list)?;
        }
    }
    Ok(())
}

impl Journal {
    /// The journal without events. It allocates nothing.
    pub fn none(_alloc: Global) -> Journal
        ensures { result ≡ [] }
    {
        Journal {
            chunks: None,
            len: 0,
        }
    }

    /// The event at a place, counted from 0; `None` past the end.
    pub fn get(&self, at: u32) -> Option<&Event>
        ensures { option_map event_of (option_copied result) ≡ slice_get self.now at }
    {
        if at < self.len {
            let at = at as usize;
            self.chunks.as_ref()?.get(at / CHUNK)?.get(at % CHUNK)
        } else {
            None
        }
    }

    /// How many events there are.
    pub fn len(&self) -> u32
        ensures { result ≡ length self.now }
    {
        self.len
    }

    /// The same journal once more.
    pub(crate) fn share(&self) -> Result<Journal, NoMemory>
        ensures { IfOk result (λ journal. journal ≡ self.now) }
    {
        let chunks = match &self.chunks {
            Some(chunks) => Some(Arc::try_clone(chunks)?),
            None => None,
        };
        Ok(Journal {
            chunks,
            len: self.len,
        })
    }

    /// Appends an event. A chunk is altered in place where no other journal shares it, and copied elsewhere.
    pub(crate) fn push(&mut self, alloc: Global, event: Event) -> Result<(), NoMemory>
        requires { length self.old + 1 < 2 ^ 32 }
        ensures appended { OnOk result (self.new ≡ self.old ++ event_of event ∷ []) }
        ensures unchanged { OnErr result (self.new ≡ self.old) }
    {
        let len = self.len as usize;
        match &mut self.chunks {
            None => {
                let mut chunks = Vec::new(alloc);
                chunks.push(Chunk::new(alloc, event)?)?;
                self.chunks = Some(Arc::new(alloc, chunks)?);
            }
            Some(shared) => push_behind(alloc, shared, len, event)?,
        }
        self.len += 1;
        Ok(())
    }

    /// Takes back the events from a place on.
    pub(crate) fn truncate(&mut self, len: u32)
        requires { len ≤ length self.old }
        ensures { self.new ≡ take len self.old }
    {
        self.len = len;
    }
}
