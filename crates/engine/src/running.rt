//! Calls made one after the other on a new engine.
ghost use Rattle.std.specs.Prelude.{◌≡◌, List, [], ◌∷◌, ◌+◌, ◌<◌, ◌≤◌, map, reverse, IfOk, IsOk, vec_capacity, vec_len};
ghost use Rattle.engine.specs.Prelude.{Event};
ghost use Rattle.spans.specs.Legal.{IsGapless};
ghost use Rattle.engine.specs.Engine.{call_of, StandsFor, steps_of};

use crate::Engine;
use spans::{Cmd, Event};
use std::alloc::{AllocError, Global};

impl Engine {
    /// Makes the calls, each a seat's command, in their order on the engine of the empty history. Positions run from 0.
    /// Only the room of the events can be refused, before the engine is made.
    pub fn run(alloc: Global, calls: Vec<(u8, Cmd)>) -> Result<(Engine, Vec<Event>), AllocError>
        ensures history { IfOk result (λ r. StandsFor r.0 (reverse r.1.items)) }
        ensures positions { IfOk result (λ r. IsGapless 0 r.1.items) }
        ensures calls { IfOk result (λ r. map call_of r.1.items ≡ calls.items) }
        ensures none { vec_len calls ≡ 0 → IsOk result }
    {
        let events = Vec::with_capacity(alloc, calls.len())?;
        Ok(Engine::run_in(events, alloc, calls))
    }

    /// The same, where an empty list has room for the event of each call: then nothing can be refused.
    pub fn run_in(
        mut events: Vec<Event>,
        alloc: Global,
        calls: Vec<(u8, Cmd)>,
    ) -> (Engine, Vec<Event>)
        requires empty { events.items ≡ [] }
        requires room { vec_len events + vec_len calls ≤ vec_capacity events }
        ensures history { StandsFor result.0 (reverse result.1.items) }
        ensures positions { IsGapless 0 result.1.items }
        ensures calls { map call_of result.1.items ≡ calls.items }
    {
        let mut engine = Engine::new(alloc);
        for (seat, cmd) in calls {
            let event = engine.event(seat, cmd);
            let Ok(()) = events.push(event) else {
                unreachable!()
            };
        }
        (engine, events)
    }

    /// A seat's command with its answer, at the position of its step.
    fn event(&mut self, seat: u8, cmd: Cmd) -> Event
        requires room { steps_of self.old < 18446744073709551615 }
        ensures call { call_of result ≡ (seat, cmd) }
        ensures position { result.position ≡ steps_of self.old }
        ensures history { (h : List Event) → StandsFor self.old h → StandsFor self.new (result ∷ h) }
        ensures steps { steps_of self.new ≡ steps_of self.old + 1 }
    {
        let position = self.steps();
        let reply = self.step(seat, &cmd);
        Event {
            position,
            seat,
            cmd,
            reply,
        }
    }
}
