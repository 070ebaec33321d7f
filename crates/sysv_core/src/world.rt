//! A world of queues and actors: its opening, its events and its end.

ghost use Rattle.std.specs.Prelude.{ℕ, List, false, IsTrue, ◌≡◌, ◌≢◌, ◌+◌, ◌-◌, ◌^◌, ◌<◌, ◌≤◌, ◌⊎◌, ◌↔◌, ◌++◌, ◌∷◌, [], length, IfOk, IfErr, IfSome, MatchResult, Err, MatchOption, Some, None, slice_set, slice_get, replicate};
ghost use Rattle.sysv_model.specs.declared.limits.TheConstants.{MAX_ACTORS as most_actors, MIN_BLOCKS as least_blocks, MAX_BLOCKS as most_blocks, WORN as worn};
ghost use Rattle.sysv_keys.specs.declared.identifier.TheConstants.{GENERATION_LAST as last_generation};
ghost use Rattle.sysv_core.specs.Headline.{StandsWithPreset, StandsWithEvent, StandsWithEvents, LawsHold};
ghost use Rattle.sysv_core.specs.Seen.{Represents, PresetsSeen, StepsSeen, AreAllFree};
ghost use Rattle.sysv_core.specs.Kept.{doing_led, told_by, returned};
ghost use Rattle.sysv_core.specs.Tallying.{none_taken, messages_given, messages_in};
ghost use Rattle.sysv_queue.specs.Tally.{taken_in};
ghost use Rattle.sysv_core.specs.Standing.{state_at, StandsNowhere, StandsThere};
ghost use Rattle.sysv_core.specs.declared.event.Event.TheVariants.{Start, Step};

use crate::actor::{Doing, Led};
use crate::actor_steps::{advance, begin, chain_in, counted, end_all};
use crate::event::{Answer, Event, Stepped};
use crate::laws::{each_world_is_sound, every_run_obeys};
use crate::preset::preset_queue;
use std::alloc::Global;
use std::marker::Model;
use sysv_keys::{GENERATION_LAST, unused_slots};
use sysv_model::{Body, Cred, MAX_ACTORS, MAX_BLOCKS, MIN_BLOCKS, WORN};
use sysv_objects::{Objects, legal_turns};
use sysv_queue::Tally;
use sysv_steps::{Call, Ended};
use thiserror::Error;

/// The reason why a world cannot be opened.
#[derive(Clone, Copy, PartialEq, Eq, Debug, Error)]
pub enum OpenRefused {
    /// Memory was refused.
    #[error("no memory")]
    NoMemory,
    /// A size is out of its range: 1 to 1,024 actors, 128 to 65,536 blocks, a first step number of
    /// at most 2^62, and a generation up to the last one.
    #[error("a size out of range")]
    BadSize,
}

/// A world of queues and actors that make their calls step by step. Actors count from 1.
///
/// A `World` cannot be dropped; end it with `end`.
pub struct World {
    objects: Objects,
    actors: Vec<Option<Doing>>,
    steps: u64,
    /// The body of the last send that is over, until `spare` returns it.
    spare: Option<Body>,
    /// The messages that the answers returned.
    tally: Tally,
}

impl Model for World {
    ghost use Rattle.std.specs.Prelude.{◌≤◌, ◌^◌};
    ghost use Rattle.sysv_core.specs.Seen.{Seen, IsSeen};

    ghost Value = { Seen };

    ghost use Rattle.std.specs.Coded.{codes};
    ghost use Rattle.sysv_core.specs.Held.{can_code};

    ghost coded = { Prim.hlevel (codes, can_code) };

    ghost use Rattle.sysv_objects.specs.Objects.{CountsUpTo};
    ghost use Rattle.sysv_queue.specs.Tally.{taken_in};

    ghost view = { λ w. record {
      objects = w.objects;
      doings = w.actors.items;
      steps = w.steps;
      tally = w.tally;
    } };

    // The step number bounds the counts of the slots and of the pool, and those of the tally.
    ghost invariant = { λ w. (w.steps ≤ 2 ^ 62) × CountsUpTo w.steps w.objects
        × IsSeen (record {
          objects = w.objects;
          doings = w.actors.items;
          steps = w.steps;
          tally = w.tally;
        })
        × (taken_in w.tally ≤ w.steps) };
}

impl World {
    /// Opens a world of `actors` idle actors (1 to 1,024), vacant slots, a registry without rows,
    /// and a pool of `blocks` blocks (128 to 65,536).
    ///
    /// # Errors
    ///
    /// - `BadSize` if and only if `actors` or `blocks` is out of its range.
    /// - `NoMemory` if memory is refused.
    pub fn open(alloc: Global, actors: u32, blocks: u32) -> Result<World, OpenRefused>
        ensures opened { IfOk result (λ world.
            Represents record { actors = actors; blocks = blocks; first = 0; generation = 0 }
            [] [] world) }
        ensures tally { IfOk result (λ world. world.tally ≡ none_taken) }
        ensures bad_size { (result ≡ Err OpenRefused.BadSize)
            ↔ ((actors < 1) ⊎ (most_actors < actors) ⊎ (blocks < least_blocks)
            ⊎ (most_blocks < blocks)) }
    {
        World::open_at(alloc, actors, blocks, 0, 0)
    }

    /// Opens a world like `open`, but with `first_step` (0 to 2^62) as its first step number, and
    /// with `generation` (up to 8,388,607) as the generation with which the identifiers of all
    /// slots begin.
    ///
    /// # Errors
    ///
    /// - `BadSize` if and only if one of the four arguments is out of its range.
    /// - `NoMemory` if memory is refused.
    pub fn open_at(
        alloc: Global,
        actors: u32,
        blocks: u32,
        first_step: u64,
        generation: u32,
    ) -> Result<World, OpenRefused>
        ensures opened { IfOk result (λ world.
            Represents record {
              actors = actors;
              blocks = blocks;
              first = first_step;
              generation = generation;
            } [] [] world) }
        ensures tally { IfOk result (λ world. world.tally ≡ none_taken) }
        ensures bad_size { (result ≡ Err OpenRefused.BadSize)
            ↔ ((actors < 1) ⊎ (most_actors < actors) ⊎ (blocks < least_blocks)
            ⊎ (most_blocks < blocks)
            ⊎ (worn < first_step) ⊎ (last_generation < generation)) }
    {
        legal_turns();
        if actors < 1 || actors > MAX_ACTORS || blocks < MIN_BLOCKS || blocks > MAX_BLOCKS {
            return Err(OpenRefused::BadSize);
        }
        if first_step > WORN || generation > GENERATION_LAST {
            return Err(OpenRefused::BadSize);
        }
        let actors = idle(alloc, actors as usize)?;
        match Objects::open_at(alloc, generation, blocks) {
            Ok(objects) => Ok(World {
                objects,
                actors,
                steps: first_step,
                spare: None,
                tally: Tally::open(),
            }),
            Err(_) => {
                end_all(actors).end();
                Err(OpenRefused::NoMemory)
            }
        }
    }

    /// Makes queue 0, a private queue of user and group 1000 with mode 0600, and returns whether it
    /// was made.
    ///
    /// The queue is made at time 0 by process 0, as `msgget` makes one for IPC_PRIVATE
    /// (POSIX.1-2017, `msgget`). If slot 0 has a row, or a generation other than 0, the result is
    /// `false` and nothing has changed. A preset is not counted as a step, and allocates nothing.
    pub fn preset(&mut self) -> bool
        // For every list of transitions for which the world stands, it then represents that list
        // and a preset.
        ensures stands { StandsWithPreset self.old self.new }
        // States what the preset makes of each world as which this world is seen.
        ensures single { PresetsSeen self.old result self.new }
        ensures refused { result ≡ false → self.new ≡ self.old }
        ensures tally { self.new.tally ≡ self.old.tally }
    {
        each_world_is_sound();
        unused_slots();
        if !self.objects.is_unused(0) {
            return false;
        }
        preset_queue(&mut self.objects)
    }

    /// Makes one event happen and returns its result.
    ///
    /// An event is the start of a call or one step of it: one turn at its object, or one look at
    /// the count for which it waits (POSIX.1-2017, `msgget`, `msgsnd`, `msgrcv` and `msgctl`; the
    /// steps are this project's profile). The result is `Answer` if the call is over, else
    /// `Nothing`. An event that is not possible changes nothing, and its result is `Nothing`: its
    /// actor does not exist, is in a call at a start, is idle at a step, or still has to wait.
    /// From step number 2^62 on, the result is `Worn` and nothing changes. Allocates nothing.
    pub fn step(&mut self, event: Event) -> Stepped
        // For every list of transitions for which the world stands, it then represents that list
        // and the event, and the result is that of the run.
        ensures stands { StandsWithEvent self.old event result self.new }
        // States what the event makes of each world as which this world is seen.
        ensures single { StepsSeen self.old event result self.new }
        ensures worn { (result ≡ Stepped.Worn) ↔ (worn ≤ self.old.steps) }
        ensures unchanged { result ≡ Stepped.Worn → self.new ≡ self.old }
        // A message that the result returns is counted as written, and no message as lost.
        ensures written { self.new.tally.written ≡ self.old.tally.written + messages_given result }
        ensures lost { self.new.tally.lost ≡ self.old.tally.lost }
    {
        if self.steps >= WORN {
            return Stepped::Worn;
        }
        match event {
            Event::Start { actor, cred, call } => self.start(actor, cred, call),
            Event::Step { actor, now } => self.turn(actor, now),
        }
    }

    /// Makes the events happen in order and returns their answers, in order. The run ends after the
    /// last event, or before the first event that finds the world worn out; the remaining events
    /// are dropped.
    ///
    /// # Errors
    ///
    /// If there is no memory for the answers, the events are returned, and nothing has happened.
    pub fn run(&mut self, alloc: Global, events: Vec<Event>) -> Result<Vec<Answer>, Vec<Event>>
        // For every list of transitions for which the world stands, it then represents that list
        // and the events that happened, and the answers are those of that run.
        ensures stands { IfOk result (λ answers.
            StandsWithEvents self.old events.items answers.items self.new) }
        // The world of each list obeys the laws.
        ensures law { LawsHold self.new }
        // Each message that the answers return is counted as written, and no message as lost.
        ensures written { IfOk result (λ answers.
            self.new.tally.written ≡ self.old.tally.written + messages_in answers.items) }
        ensures lost { self.new.tally.lost ≡ self.old.tally.lost }
        ensures refused { IfErr result (λ back. (back.items ≡ events.items)
            × (self.new ≡ self.old)) }
    {
        every_run_obeys();
        let Ok(mut answers) = Vec::with_capacity(alloc, events.len()) else {
            return Err(events);
        };
        for event in events {
            match self.step(event) {
                Stepped::Nothing => {}
                Stepped::Answer(answer) => answers.push(answer).unwrap(),
                Stepped::Worn => break,
            }
        }
        Ok(answers)
    }

    /// Returns an empty body that can be used for another call: that of the last send that is over.
    /// Returns `None` if no send has ended, or if that body was returned before. Allocates nothing.
    pub fn spare(&mut self) -> Option<Body>
        ensures empty { IfSome result (λ body. body ≡ []) }
        ensures kept { self.new ≡ self.old }
    {
        let mut body = self.spare.take()?;
        body.clear();
        Some(body)
    }

    /// Returns the counts of the messages that the answers of the world returned: each is counted
    /// as written. Allocates nothing.
    pub fn tally(&self) -> Tally
        ensures { result ≡ self.now.tally }
    {
        self.tally
    }

    /// Returns the call of `actor` pending: before a step, or in a wait. Returns `None` if the
    /// actor is idle or does not exist. Actors count from 1.
    pub fn doing(&self, actor: u32) -> Option<&Doing>
        ensures { MatchOption result (StandsNowhere (state_at self.now.doings actor)) (λ doing.
            StandsThere (state_at self.now.doings actor) doing.now) }
    {
        let place = self.place_of(actor)?;
        match &self.actors[place] {
            Some(doing) => Some(doing),
            None => None,
        }
    }

    /// Ends the world and returns the number of blocks that are then free: all blocks with which
    /// the world was opened.
    ///
    /// The blocks of queued messages, and those that pending calls hold, are returned to the pool
    /// first. A message that a pending receive has taken is lost. Allocates nothing.
    pub fn end(self) -> u32
        // This holds for every list of transitions for which the world stands.
        ensures { AreAllFree self result }
    {
        let World {
            objects,
            actors,
            steps: _steps,
            spare: _spare,
            tally: _tally,
        } = self;
        objects.end(end_all(actors))
    }

    /// Starts a call of an idle actor.
    fn start(&mut self, actor: u32, cred: Cred, call: Call) -> Stepped
        requires { self.old.steps < worn }
        ensures single { StepsSeen self.old (Start actor cred call) result self.new }
        ensures not_worn { result ≢ Stepped.Worn }
        ensures written { self.new.tally.written ≡ self.old.tally.written + messages_given result }
        ensures lost { self.new.tally.lost ≡ self.old.tally.lost }
    {
        each_world_is_sound();
        let Some(place) = self.place_of(actor) else {
            return Stepped::Nothing;
        };
        if self.actors[place].is_some() {
            return Stepped::Nothing;
        }
        self.steps += 1;
        let released = self.objects.released();
        let led = begin(cred, call, released);
        settle(
            &mut self.actors,
            &mut self.spare,
            &mut self.tally,
            actor,
            place,
            led,
        )
    }

    /// Makes one step of the actor's call. The step is counted unless the call still has to wait.
    fn turn(&mut self, actor: u32, now: u64) -> Stepped
        requires { self.old.steps < worn }
        ensures single { StepsSeen self.old (Step actor now) result self.new }
        ensures not_worn { result ≢ Stepped.Worn }
        ensures written { self.new.tally.written ≡ self.old.tally.written + messages_given result }
        ensures lost { self.new.tally.lost ≡ self.old.tally.lost }
    {
        each_world_is_sound();
        let Some(place) = self.place_of(actor) else {
            return Stepped::Nothing;
        };
        let Some(doing) = self.actors[place].take() else {
            return Stepped::Nothing;
        };
        let led = advance(&mut self.objects, doing, now);
        self.steps += counted(&led);
        settle(
            &mut self.actors,
            &mut self.spare,
            &mut self.tally,
            actor,
            place,
            led,
        )
    }

    /// Returns the place of the actor in the list, if the actor exists.
    fn place_of(&self, actor: u32) -> Option<usize>
        ensures { MatchOption result ((actor ≡ 0) ⊎ (length self.now.doings < actor))
            (λ place. (actor ≡ place + 1) × (place < length self.now.doings)) }
    {
        let place = (actor as usize).checked_sub(1)?;
        (place < self.actors.len()).then_some(place)
    }
}

/// Stores the result of a start or a step for the actor at that place. Either the actor continues
/// with its call, or it is idle and its answer is returned. A spare body replaces the one that was
/// kept before, and a message that the answer returns is counted as written.
#[inline(always)]
fn settle(
    actors: &mut Vec<Option<Doing>>,
    kept: &mut Option<Body>,
    tally: &mut Tally,
    actor: u32,
    place: usize,
    led: Led,
) -> Stepped
    requires idle { slice_get actors.old.items place ≡ Some None }
    requires few { taken_in tally.old < 2 ^ 64 - 1 }
    ensures kept { actors.new.items ≡ slice_set actors.old.items place (doing_led led) }
    ensures told { result ≡ told_by actor led }
    ensures written { tally.new.written ≡ tally.old.written + messages_given result }
    ensures lost { tally.new.lost ≡ tally.old.lost }
{
    match led {
        Led::To(doing) | Led::Stays(doing) => {
            if let Some(before) = actors[place].replace(doing) {
                chain_in(before).end();
            }
            Stepped::Nothing
        }
        Led::Over(ended, brought) => {
            let Ended {
                outcome: result,
                receives,
                delivery,
            } = ended;
            let (body, spare) = shared_out(receives, brought);
            if spare.is_some() {
                *kept = spare;
            }
            if let Some(delivery) = delivery {
                delivery.written(tally);
            }
            Stepped::Answer(Answer {
                actor,
                result,
                body,
            })
        }
    }
}

/// Returns the body that the answer returns, which is that of a receive, and the body that is spare.
fn shared_out(receives: bool, brought: Option<Body>) -> (Option<Body>, Option<Body>)
    ensures { result.0 ≡ returned receives brought }
{
    if receives {
        (brought, None)
    } else {
        (None, brought)
    }
}

/// Returns a list of `actors` idle actors.
fn idle(alloc: Global, actors: usize) -> Result<Vec<Option<Doing>>, OpenRefused>
    ensures { MatchResult result (λ made. made.items ≡ replicate actors None) (λ e.
        e ≡ OpenRefused.NoMemory) }
{
    let mut idle = Vec::with_capacity(alloc, actors).map_err(|_| OpenRefused::NoMemory)?;
    for _ in 0..actors {
        idle.push_reserved(None);
    }
    Ok(idle)
}
