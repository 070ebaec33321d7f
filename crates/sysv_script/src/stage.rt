//! The world of a script, with what its lines refer to.

ghost use Rattle.std.specs.Prelude.{false, ◌≡◌, ◌+◌, ◌<◌, ◌++◌, List, ℕ, replicate, map, IfOk, IsOk, OnOk, OnErr, [], ◌∷◌, ◌≤◌, length, Some};
ghost use Rattle.std.specs.List.{range_with_len};
ghost use Rattle.sysv_lists.specs.Prefix.{IsPrefixOf};
ghost use Rattle.sysv_model.specs.declared.limits.TheConstants.{BLOCK_BYTES, BODY_ROOM};
ghost use Rattle.sysv_script.specs.Heads.{head_text};
ghost use Rattle.sysv_script.specs.ScriptState.{ScriptState, opening_script_state, Advances, LineRuns, LineActs, PoolGiven, StartRuns, StartsAs, call_for, GoesOn, StepsRun, OneRuns, AllRun, printed, standing_line, first_cred as script_cred, pending as doing_at, most_steps as steps_at_start};
ghost use Rattle.sysv_core.specs.World.{actor_at};
ghost use Rattle.sysv_core.specs.Seen.{Represents};
ghost use Rattle.sysv_script.specs.declared.actor.TheConstants.{SCRIPT_ACTORS};
ghost use Rattle.sysv_script.specs.SaidBy.{CallFits, FitsBody, LineFits, IsOfActors, IsPoolSize, text_bytes, call_asked, said_of};
ghost use Rattle.sysv_script.specs.Staged.{IsScriptStateOf};

use crate::output::Output;
use crate::{Head, Line, Operation, SCRIPT_ACTORS, Text};
use std::alloc::Global;
use std::mem;
use sysv_core::{Answer, Call, Event, Stepped, World};
use sysv_model::{BLOCK_BYTES, Body, Cred, NoMemory};

/// The number of blocks of a script's world.
const SCRIPT_BLOCKS: u32 = 1024;

/// A block of letters, for a message body that is given by its length.
const LETTERS: [u8; BLOCK_BYTES] = [b'x'; BLOCK_BYTES];

/// The maximum number of steps of a call at one line.
const MAX_STEPS: u32 = 16;

/// The world of a script, the credentials of its actors, the time of each step, and the bodies that
/// no pending call has.
pub struct Stage {
    world: World,
    /// The credentials of actor A are at place A - 1.
    creds: [Cred; SCRIPT_ACTORS as usize],
    moment: u64,
    /// Whether every line so far was skipped.
    fresh: bool,
    /// At most one body for each actor, because a body is opened only if there is no spare one.
    spares: Vec<Body>,
}

impl Stage {
    /// Opens a world of 16 actors in which nothing has happened, with the first credentials of each
    /// actor.
    ///
    /// # Errors
    ///
    /// `NoMemory` if memory is refused.
    pub fn open(alloc: Global) -> Result<Stage, NoMemory>
        ensures { IfOk result (λ stage. IsScriptStateOf opening_script_state stage) }
    {
        let Ok(spares) = Vec::with_capacity(alloc, SCRIPT_ACTORS as usize) else {
            return Err(NoMemory);
        };
        let world = open_world(alloc, SCRIPT_BLOCKS)?;
        Ok(Stage {
            world,
            creds: first_creds(),
            moment: 0,
            fresh: true,
            spares,
        })
    }

    /// Ends the world of the script.
    pub fn end(self) {
        let Stage {
            world,
            creds: _creds,
            moment: _moment,
            fresh: _fresh,
            spares: _spares,
        } = self;
        let _blocks = world.end();
    }

    /// Does what a line means, and composes what it prints. Returns `false` if the line is bad: a
    /// `preset` or a `pool` that comes too late. A bad line composes nothing.
    ///
    /// # Errors
    ///
    /// `NoMemory` if memory is refused. A prefix of what was composed before is left.
    ///
    /// # Conditions
    ///
    /// An actor of the line must be 1 to 16, a body must have at most 8,256 bytes, and a number of
    /// blocks must be one that a pool can have, as in each line that `line_of` returns.
    pub fn run(
        &mut self,
        alloc: Global,
        line: Line<'_>,
        output: &mut Output,
    ) -> Result<bool, NoMemory>
        requires { LineFits line }
        ensures runs { IfOk result (λ understood. (s : ScriptState) → IsScriptStateOf s self.old →
            (after : ScriptState) × (out : List ℕ)
            × LineRuns s (said_of line.entry) understood out after
            × IsScriptStateOf after self.new × (output.new ≡ output.old ++ out)) }
        // A bad line composes nothing. If memory is refused, a prefix of what was composed is left.
        ensures quiet { IfOk result (λ understood. understood ≡ false → output.new ≡ output.old) }
        ensures err { OnErr result (IsPrefixOf output.new output.old) }
    {
        match line {
            Line::Skipped => Ok(true),
            Line::Pool { blocks } => self.size_pool(alloc, blocks),
            _ => {
                self.fresh = false;
                self.act(alloc, line, output)
            }
        }
    }

    /// Opens a new world with `blocks` blocks, if every line so far was skipped.
    fn size_pool(&mut self, alloc: Global, blocks: u32) -> Result<bool, NoMemory>
        requires { IsPoolSize blocks }
        ensures { IfOk result (λ understood. (s : ScriptState) → IsScriptStateOf s self.old →
            (after : ScriptState) × PoolGiven s blocks understood after
            × IsScriptStateOf after self.new) }
    {
        if !self.fresh {
            return Ok(false);
        }
        let world = open_world(alloc, blocks)?;
        let _blocks = mem::replace(&mut self.world, world).end();
        self.fresh = false;
        Ok(true)
    }

    /// Does what a line means, if it is not the first one that sizes the pool, and composes what it
    /// prints.
    fn act(&mut self, alloc: Global, line: Line<'_>, output: &mut Output) -> Result<bool, NoMemory>
        requires { LineFits line }
        ensures runs { IfOk result (λ understood. (s : ScriptState) → IsScriptStateOf s self.old →
            (after : ScriptState) × (out : List ℕ)
            × LineActs s (said_of line.entry) understood out after
            × IsScriptStateOf after self.new × (output.new ≡ output.old ++ out)) }
        ensures quiet { IfOk result (λ understood. understood ≡ false → output.new ≡ output.old) }
        ensures err { OnErr result (IsPrefixOf output.new output.old) }
    {
        match line {
            Line::Preset => return Ok(self.world.preset()),
            Line::Pool { .. } => return Ok(false),
            Line::Skipped => {}
            Line::Cred { actor, cred } => self.creds[actor as usize - 1] = cred,
            Line::Moment(moment) => self.moment = moment,
            Line::Start { actor, call, goes } => self.start(alloc, actor, call, goes, output)?,
            Line::Step { actor } => self.take_on(actor, 1, output)?,
            Line::Go { actor } => self.take_on(actor, MAX_STEPS, output)?,
            Line::All => self.take_all_on(output)?,
        }
        Ok(true)
    }

    /// Starts a call of an actor, makes its steps if it continues, and composes the line that it
    /// prints. An actor that is in a call starts no other one.
    fn start(
        &mut self,
        alloc: Global,
        actor: u32,
        call: Call<Text<'_>, ()>,
        goes: bool,
        output: &mut Output,
    ) -> Result<(), NoMemory>
        requires actor { IsOfActors actor }
        requires fits { CallFits call }
        ensures runs { OnOk result ((s : ScriptState) → IsScriptStateOf s self.old →
            (after : ScriptState)
            × (out : List ℕ)
            × StartRuns s actor (call_asked call.entry) goes
            (doing_at (actor_at s.world.actors actor)) out after
            × IsScriptStateOf after self.new × (output.new ≡ output.old ++ out)) }
        ensures err { OnErr result (IsPrefixOf output.new output.old) }
    {
        if let Some(_operation) = self.pending(actor) {
            return output.tell(Head::Busy { actor });
        }
        let operation = Operation::of_call(&call);
        let call = self.with_body(alloc, call)?;
        let first = self.begin(actor, call);
        let given = self.go(actor, first, most_steps(goes));
        self.tell(actor, operation, given, output)
    }

    /// Makes at most `steps` steps of an actor's call, and composes the line that it prints.
    fn take_on(&mut self, actor: u32, steps: u32, output: &mut Output) -> Result<(), NoMemory>
        ensures runs { OnOk result ((s : ScriptState) → IsScriptStateOf s self.old →
            (after : ScriptState)
            × (out : List ℕ)
            × StepsRun steps s actor (doing_at (actor_at s.world.actors actor)) out after
            × IsScriptStateOf after self.new × (output.new ≡ output.old ++ out)) }
        ensures err { OnErr result (output.new ≡ []) }
    {
        match self.pending(actor) {
            Some(operation) => self.go_on(actor, operation, steps, output),
            None => output.tell(Head::Idle { actor }),
        }
    }

    /// Continues each pending call, in the order of the actors.
    fn take_all_on(&mut self, output: &mut Output) -> Result<(), NoMemory>
        ensures runs { OnOk result ((s : ScriptState) → IsScriptStateOf s self.old →
            (after : ScriptState)
            × (out : List ℕ)
            × AllRun (range_with_len 1 SCRIPT_ACTORS) s out after
            × IsScriptStateOf after self.new × (output.new ≡ output.old ++ out)) }
        ensures err { OnErr result (IsPrefixOf output.new output.old) }
    {
        for actor in 1..SCRIPT_ACTORS + 1 {
            self.take_one_on(actor, output)?;
        }
        Ok(())
    }

    /// Continues the call of an actor, if it is in one.
    fn take_one_on(&mut self, actor: u32, output: &mut Output) -> Result<(), NoMemory>
        ensures runs { OnOk result ((s : ScriptState) → IsScriptStateOf s self.old →
            (after : ScriptState)
            × (out : List ℕ)
            × OneRuns s actor (doing_at (actor_at s.world.actors actor)) out after
            × IsScriptStateOf after self.new × (output.new ≡ output.old ++ out)) }
        ensures err { OnErr result (output.new ≡ []) }
    {
        match self.pending(actor) {
            Some(operation) => self.go_on(actor, operation, MAX_STEPS, output),
            None => Ok(()),
        }
    }

    /// Makes at most `steps` steps of an actor's call, which is of the kind `operation`, and
    /// composes the line that it prints.
    fn go_on(
        &mut self,
        actor: u32,
        operation: Operation,
        steps: u32,
        output: &mut Output,
    ) -> Result<(), NoMemory>
        ensures runs { OnOk result ((s : ScriptState) → IsScriptStateOf s self.old →
            (after : ScriptState)
            × (out : List ℕ)
            × StepsRun steps s actor (Some operation) out after
            × IsScriptStateOf after self.new × (output.new ≡ output.old ++ out)) }
        ensures err { OnErr result (output.new ≡ []) }
    {
        let given = self.go(actor, Stepped::Nothing, steps);
        self.tell(actor, operation, given, output)
    }

    /// Returns the kind of the call that an actor is in, if it is in one.
    fn pending(&self, actor: u32) -> Option<Operation>
        ensures { (s : ScriptState) → IsScriptStateOf s self.now →
            result ≡ doing_at (actor_at s.world.actors actor) }
    {
        Some(Operation::of_doing(self.world.doing(actor)?))
    }

    /// Returns the call with a body: that of a send has the bytes on its line, and that of a
    /// receive is empty.
    fn with_body(&mut self, alloc: Global, call: Call<Text<'_>, ()>) -> Result<Call, NoMemory>
        requires { CallFits call }
        ensures call { IfOk result (λ given. given ≡ call_for (call_asked call.entry)) }
        ensures kept { self.new ≡ record self.old { spares = self.new.spares } }
    {
        match call {
            Call::Get { key, flags } => Ok(Call::Get { key, flags }),
            Call::Stat { id } => Ok(Call::Stat { id }),
            Call::Set { id, to } => Ok(Call::Set { id, to }),
            Call::Remove { id } => Ok(Call::Remove { id }),
            Call::Send {
                id,
                mtype,
                flags,
                body: text,
            } => {
                let mut body = self.spare_body(alloc)?;
                fill(&mut body, text);
                Ok(Call::Send {
                    id,
                    mtype,
                    flags,
                    body,
                })
            }
            Call::Receive {
                id,
                size,
                mtype,
                flags,
                body: (),
            } => {
                let body = self.spare_body(alloc)?;
                Ok(Call::Receive {
                    id,
                    size,
                    mtype,
                    flags,
                    body,
                })
            }
        }
    }

    /// Returns a spare body, or a new one if there is none.
    fn spare_body(&mut self, alloc: Global) -> Result<Body, NoMemory>
        ensures empty { IfOk result (λ body. body ≡ []) }
        ensures spared { 0 < length self.old.spares.items → IsOk result }
        ensures kept { self.new ≡ record self.old { spares = self.new.spares } }
    {
        match self.spares.pop() {
            Some(mut body) => {
                body.clear();
                Ok(body)
            }
            None => Body::open(alloc),
        }
    }

    /// Starts a call with the present credentials of the actor.
    fn begin(&mut self, actor: u32, call: Call) -> Stepped
        requires { IsOfActors actor }
        ensures { (s : ScriptState) → IsScriptStateOf s self.old →
            (after : ScriptState) × StartsAs s actor call result after
            × IsScriptStateOf after self.new }
    {
        let cred = self.creds[actor as usize - 1];
        self.world.step(Event::Start { actor, cred, call })
    }

    /// Makes at most `steps` steps of a call whose last result was `last`, until the call is over.
    fn go(&mut self, actor: u32, last: Stepped, steps: u32) -> Stepped
        ensures { (s : ScriptState) → IsScriptStateOf s self.old →
            (after : ScriptState) × GoesOn steps s actor last result after
            × IsScriptStateOf after self.new }
    {
        let mut given = last;
        for _ in 0..steps {
            match given {
                Stepped::Nothing => {
                    let now = self.moment;
                    given = self.world.step(Event::Step { actor, now });
                }
                _ => break,
            }
        }
        given
    }

    /// Composes the line of a result, and keeps the body of a send or a receive that is over.
    fn tell(
        &mut self,
        actor: u32,
        operation: Operation,
        stepped: Stepped,
        output: &mut Output,
    ) -> Result<(), NoMemory>
        ensures told { OnOk result ((s : ScriptState) → IsScriptStateOf s self.old →
            output.new ≡ output.old ++ printed s.world actor operation stepped) }
        ensures err { OnErr result (output.new ≡ []) }
        ensures kept { self.new ≡ record self.old { spares = self.new.spares } }
    {
        match stepped {
            Stepped::Nothing => output.tell(self.stands(actor)),
            Stepped::Worn => output.tell(Head::Worn { actor }),
            Stepped::Answer(answer) => {
                let Answer {
                    actor,
                    result: outcome,
                    body,
                } = answer;
                let head = Head::Answers {
                    actor,
                    operation,
                    outcome,
                };
                match body {
                    None => {
                        self.keep_spare();
                        output.tell(head)
                    }
                    Some(body) => self.tell_body(head, body, output),
                }
            }
        }
    }

    /// Returns the line for the present state of an actor's call.
    fn stands(&self, actor: u32) -> Head
        ensures { (s : ScriptState) → IsScriptStateOf s self.now →
            head_text result ++ 10 ∷ [] ≡ standing_line actor (actor_at s.world.actors actor) }
    {
        match self.world.doing(actor) {
            Some(doing) => Head::of_doing(actor, doing),
            None => Head::Idle { actor },
        }
    }

    /// Composes the line of a receive that is over, and keeps its body.
    fn tell_body(&mut self, head: Head, body: Body, output: &mut Output) -> Result<(), NoMemory>
        ensures told { OnOk result (output.new ≡ output.old
            ++ (head_text head ++ (body ++ 10 ∷ []))) }
        ensures err { OnErr result (output.new ≡ []) }
        ensures kept { self.new ≡ record self.old { spares = self.new.spares } }
    {
        let told = output.tell_text(head, &body);
        let _kept = self.spares.push(body);
        told
    }

    /// Keeps the body of a send that is over.
    fn keep_spare(&mut self)
        ensures { self.new ≡ record self.old { spares = self.new.spares } }
    {
        if let Some(body) = self.world.spare() {
            let _kept = self.spares.push(body);
        }
    }
}

/// Opens a world with `blocks` blocks in which nothing has happened.
fn open_world(alloc: Global, blocks: u32) -> Result<World, NoMemory>
    ensures { IfOk result (λ world.
        Represents record {
          actors = SCRIPT_ACTORS;
          blocks = blocks;
          first = 0;
          generation = 0;
        } [] [] world) }
{
    match World::open(alloc, SCRIPT_ACTORS, blocks) {
        Ok(world) => Ok(world),
        Err(_) => Err(NoMemory),
    }
}

/// Puts the bytes of a text into an empty body.
fn fill(body: &mut Body, text: Text<'_>)
    requires empty { body.old ≡ [] }
    requires fits { FitsBody text }
    ensures { body.new ≡ text_bytes text.entry }
{
    match text {
        Text::Given(bytes) => {
            let _fits = body.push_piece(bytes);
        }
        Text::Letters(count) => {
            let mut left = count;
            while left > 0 {
                let piece = left.min(BLOCK_BYTES);
                push_letters(body, piece);
                left -= piece;
            }
        }
    }
}

/// Appends at most one block of letters to a body.
fn push_letters(body: &mut Body, count: usize)
    requires block { count ≤ BLOCK_BYTES }
    requires room { length body.old + count ≤ BODY_ROOM }
    ensures { body.new ≡ body.old ++ replicate count 120 }
{
    let _fits = body.push_piece(&LETTERS[..count]);
}

/// Returns the first credentials of the actors 1 to 16.
fn first_creds() -> [Cred; SCRIPT_ACTORS as usize]
    ensures { result ≡ map script_cred (range_with_len 1 SCRIPT_ACTORS) }
{
    let mut creds = [first_cred(1); SCRIPT_ACTORS as usize];
    for place in 1..SCRIPT_ACTORS {
        creds[place as usize] = first_cred(place + 1);
    }
    creds
}

/// Returns the first credentials of an actor: user and group 1000, and a process of its own.
fn first_cred(actor: u32) -> Cred
    requires { actor ≤ SCRIPT_ACTORS }
    ensures { result ≡ script_cred actor }
{
    Cred {
        uid: 1000,
        gid: 1000,
        pid: 100 + actor,
    }
}

/// Returns the maximum number of steps of a call at the line that starts it.
fn most_steps(goes: bool) -> u32
    ensures { result ≡ steps_at_start goes }
{
    if goes { MAX_STEPS } else { 0 }
}
