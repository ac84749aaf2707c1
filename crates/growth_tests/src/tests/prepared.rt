//! Histories that are prepared, so that only the growths of a few calls are refused in turn.
use super::crowds::Crowd;
use super::growths::{are_granted, may_be_refused};
use super::made::events_of;
use super::playing::{make, refusal_in, step};
use engine::Engine;
use spans::Event;
use std::alloc::Global;

/// A history in parts, which are made one after the other. All but the crowd's are forms.
#[derive(Clone, Copy)]
pub(super) struct Story {
    /// The calls that prepare the engine.
    pub(super) before: &'static str,
    /// The reads that follow them.
    pub(super) crowd: Crowd,
    /// The calls whose growths may be refused.
    pub(super) wanting: &'static str,
    /// The question behind a refusal: whether all that stood before stands.
    pub(super) standing: &'static str,
    /// The question in the end.
    pub(super) after: &'static str,
}

impl Story {
    /// Makes the calls on an engine. How often memory was wanting, unless a reply is another. Growths are granted, but for
    /// those of the calls that may want memory.
    pub(super) fn play(self, alloc: Global) -> Option<u64> {
        are_granted(alloc);
        self.play_on(alloc, &mut Engine::new(alloc))
    }

    fn play_on(self, alloc: Global, engine: &mut Engine) -> Option<u64> {
        make_all(alloc, engine, self.before)?;
        self.crowd.read(alloc, engine)?;
        let wanting = self.make_wanting(alloc, engine)?;
        make_all(alloc, engine, self.after)?;
        Some(wanting)
    }

    fn make_wanting(self, alloc: Global, engine: &mut Engine) -> Option<u64> {
        match events_of(alloc, self.wanting) {
            Some(wanting) => self.make_refused(alloc, engine, &wanting),
            None => None,
        }
    }

    fn make_refused(self, alloc: Global, engine: &mut Engine, wanting: &[Event]) -> Option<u64> {
        match events_of(alloc, self.standing) {
            Some(standing) => make_refused(alloc, engine, wanting, &standing),
            None => None,
        }
    }
}

/// Makes calls whose growths may be refused, with the question behind each that was. How often memory was wanting.
fn make_refused(
    alloc: Global,
    engine: &mut Engine,
    events: &[Event],
    standing: &[Event],
) -> Option<u64> {
    let mut wanting = 0u64;
    for event in events {
        if is_refused(alloc, engine, event)? {
            wanting = wanting.saturating_add(1);
            make_each(alloc, engine, standing)?;
            make_granted(alloc, engine, event)?;
        }
    }
    Some(wanting)
}

/// Makes a call whose growths may be refused. Whether memory was wanting, unless the reply is any other.
fn is_refused(alloc: Global, engine: &mut Engine, event: &Event) -> Option<bool> {
    may_be_refused(alloc);
    let reply = step(engine, event);
    are_granted(alloc);
    refusal_in(alloc, event, &reply)
}

/// Makes the calls of a form, each with its reply.
fn make_all(alloc: Global, engine: &mut Engine, form: &str) -> Option<()> {
    match events_of(alloc, form) {
        Some(events) => make_each(alloc, engine, &events),
        None => None,
    }
}

fn make_each(alloc: Global, engine: &mut Engine, events: &[Event]) -> Option<()> {
    for event in events {
        make_granted(alloc, engine, event)?;
    }
    Some(())
}

/// Makes a call while no growth is refused.
fn make_granted(alloc: Global, engine: &mut Engine, event: &Event) -> Option<()> {
    match make(alloc, engine, event)? {
        0 => Some(()),
        _ => None,
    }
}
