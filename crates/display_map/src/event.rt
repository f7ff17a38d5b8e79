//! What happens to a display, event by event.
ghost use Rattle.std.specs.Prelude.{◌≡◌, IfOk};
ghost use Rattle.display_map.specs.Events.{event_of};

use cell_units::NoMemory;
use display_sheet::Op;
use std::alloc::Global;

/// One event of a display's history.
#[derive(Debug, Drop)]
pub enum Event {
    /// The script line of this number was answered or refused, or its change is about to be done.
    Line { number: u64 },
    /// The operation was done.
    Did { op: Op },
    /// The job of this number was sent, to wrap `count` display lines from `first` on.
    Sent { job: u64, first: u32, count: u32 },
    /// The wraps of this job were taken.
    Landed { job: u64 },
    /// A version was published.
    Published { last: bool },
}

impl Event {
    pub(crate) fn copy(&self, alloc: Global) -> Result<Event, NoMemory>
        ensures { IfOk result (λ copy. event_of copy ≡ event_of self.now) }
    {
        match self {
            Event::Line { number } => Ok(Event::Line { number: *number }),
            Event::Did { op } => Ok(Event::Did {
                op: op.copy(alloc)?,
            }),
            Event::Sent { job, first, count } => Ok(Event::Sent {
                job: *job,
                first: *first,
                count: *count,
            }),
            Event::Landed { job } => Ok(Event::Landed { job: *job }),
            Event::Published { last } => Ok(Event::Published { last: *last }),
        }
    }
}
