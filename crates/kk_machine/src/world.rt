//! The world: words, actors, and what each actor has seen, changed by one move at a time.
ghost use Rattle.std.specs.Prelude.{◌≡◌, ◌≤◌, ◌<◌, ◌↔◌, ◌^◌, length, true, false, [], ◌∷◌, ◌++◌, IsTrue, IfOk, OnOk, OnErr};
ghost use Rattle.kk_rows.specs.Rows.{numbers};
ghost use Rattle.kk_machine.specs.declared.log.TheConstants.{MAX_WIDTH};
ghost use Rattle.kk_machine.specs.Sights.{seen as sight_of};
ghost use Rattle.kk_machine.specs.World.{new_world, actor as actor_in, sight, word, with_actors, newcomer, tried, tried_reply, moved, reply_by, IsPass, MayTry, May};

use super::{Call, Move, Reply, Sight, Spaces};
use kk_rows::{Alloc, Row};
use std::alloc::Global;
use std::marker::Model;

/// How many actors can be made: their numbers are `u32`.
const MAX_ACTORS: u64 = 1 << 32;

/// An actor: the founder, or one that it made.
#[derive(Drop)]
pub(crate) struct Actor {
    live: bool,
    seen: Spaces,
}

/// The shared words as a pure machine. Every list of allowed moves has a legal history
/// ([`crate::laws::every_run_is_legal`]), whatever the order in which threads would make them.
///
/// A generation has width + 1 words: its rows, then [`crate::CLOSED`] once it is closed, then zeros.
#[derive(Drop)]
pub struct World {
    width: u32,
    words: Vec<Vec<u128>>,
    actors: Vec<Actor>,
}

impl Model for World {
    ghost use Rattle.kk_machine.specs.World.{World as WorldValue};
    ghost use Rattle.kk_machine.specs.Worlds.{words_in, actors_in, IsWorld};

    ghost Value = { WorldValue };

    ghost view = { λ w. record { width = w.width; words = words_in w.words.items; actors = actors_in w.actors.items } };

    ghost invariant = { λ w. IsWorld w.width w.words.items w.actors.items };
}

impl World {
    /// All words are 0, and the founder, actor 0, is alone. The width is from 1 to 63.
    pub fn new(alloc: Global, generations: u32, width: u32) -> Result<World, Alloc>
        requires some { 1 ≤ width }
        requires fits { width ≤ MAX_WIDTH }
        ensures { IfOk result (λ w. w ≡ new_world generations width) }
    {
        let mut words = Vec::with_capacity(alloc, generations as usize)?;
        for _ in 0..generations {
            words.push(vec![in alloc; 0u128; width as usize + 1]?)?;
        }
        let founder = Actor {
            live: true,
            seen: Spaces::new(alloc, generations, width)?,
        };
        let mut actors = Vec::new(alloc);
        actors.push(founder)?;
        Ok(World {
            width,
            words,
            actors,
        })
    }

    /// Whether `step` is allowed.
    pub fn may(&self, step: &Move) -> bool
        ensures { IsTrue result ↔ May self.now step.now }
    {
        match *step {
            Move::Look { actor, call } => self.may_try(actor, false, &call),
            Move::Put {
                actor,
                generation,
                row,
            } => self.may_try(actor, true, &Call::Insert { generation, row }),
            Move::Shut { actor, generation } => self.may_try(
                actor,
                true,
                &Call::Freeze { generation },
            ),
            Move::Split => (self.actors.len() as u64) < MAX_ACTORS,
            Move::Join { actor } => self.is_pass(actor),
        }
    }

    /// Makes `step`, which is allowed. `Some` of the reply where the move decides a call. Only a split takes memory, and
    /// after [`Alloc`] the world is unchanged.
    pub fn step(&mut self, alloc: Global, step: &Move) -> Result<Option<Reply>, Alloc>
        requires { May self.old step.now }
        ensures after { OnOk result (self.new ≡ moved self.old step.now) }
        ensures reply { IfOk result (λ reply. reply ≡ reply_by self.old step.now) }
        ensures err { OnErr result (self.new ≡ self.old) }
        ensures only_split { OnErr result (step.now ≡ Move.Split) }
    {
        Ok(match *step {
            Move::Look { actor, call } => self.attempt(actor, false, &call),
            Move::Put {
                actor,
                generation,
                row,
            } => self.attempt(actor, true, &Call::Insert { generation, row }),
            Move::Shut { actor, generation } => self.attempt(
                actor,
                true,
                &Call::Freeze { generation },
            ),
            Move::Split => {
                self.split(alloc)?;
                None
            }
            Move::Join { actor } => {
                self.join(actor);
                None
            }
        })
    }

    /// The word at a place from 0 to the width.
    pub fn word(&self, generation: u32, place: u32) -> u128
        requires generation { generation < length self.now.words }
        requires place { place ≤ self.now.width }
        ensures { result ≡ word self.now generation place }
    {
        let words = &self.words[generation as usize];
        words[place as usize]
    }

    /// The rows that a live actor has seen of the generation.
    pub fn seen(&self, actor: u32, generation: u32) -> &[Row]
        requires live { (actor_in self.now actor).live ≡ true }
        requires generation { generation < length self.now.words }
        ensures { numbers result.now ≡ (sight self.now actor generation).rows }
    {
        self.sight(actor, generation).rows()
    }

    /// What a live actor has seen of the generation.
    fn sight(&self, actor: u32, generation: u32) -> &Sight
        requires live { (actor_in self.now actor).live ≡ true }
        requires generation { generation < length self.now.words }
        ensures { result.now ≡ sight_of self.now.width (sight self.now actor generation) }
    {
        let actor = &self.actors[actor as usize];
        actor.seen.sight(generation)
    }

    /// Whether the actor is live, and isn't the founder.
    fn is_pass(&self, actor: u32) -> bool
        ensures { IsTrue result ↔ IsPass self.now actor }
    {
        actor != 0 && (actor as usize) < self.actors.len() && self.actors[actor as usize].live
    }

    /// Whether a load of the actor's next word is allowed for `call`, or an exchange, where `changing`.
    fn may_try(&self, actor: u32, changing: bool, call: &Call) -> bool
        ensures { IsTrue result ↔ MayTry self.now actor changing call.now }
    {
        if !self.is_pass(actor)
            || (call.generation() as usize) >= self.words.len()
            || !call.fits(self.width)
        {
            return false;
        }
        let sight = self.sight(actor, call.generation());
        !changing || (!sight.is_closed() && sight.changes(call))
    }

    /// Loads the actor's next word for `call`, or where `changing` exchanges it from 0 to the word of the call. The
    /// actor then has seen what the word is.
    fn attempt(&mut self, actor: u32, changing: bool, call: &Call) -> Option<Reply>
        requires { MayTry self.old actor changing call.now }
        ensures after { self.new ≡ tried self.old actor changing call.now }
        ensures reply { result ≡ tried_reply self.old actor changing call.now }
    {
        let generation = call.generation();
        let sight = self.sight(actor, generation);
        let place = sight.len();
        let found = self.word(generation, place);
        let reply = sight.decide(changing, changing || sight.changes(call), found, call);
        let left = call.leaves(changing, found);
        let words = &mut self.words[generation as usize];
        words[place as usize] = left;
        let actor = &mut self.actors[actor as usize];
        actor.seen.tell(generation, left);
        reply
    }

    /// Makes an actor that has seen nothing.
    fn split(&mut self, alloc: Global) -> Result<(), Alloc>
        requires { length self.old.actors < 2 ^ 32 }
        ensures ok { OnOk result (self.new ≡ with_actors self.old (self.old.actors ++ newcomer (length self.old.words) ∷ [])) }
        ensures err { OnErr result (self.new ≡ self.old) }
    {
        let seen = Spaces::new(alloc, self.words.len() as u32, self.width)?;
        self.actors.push(Actor { live: true, seen })?;
        Ok(())
    }

    /// Takes an actor back.
    fn join(&mut self, actor: u32)
        requires { IsPass self.old actor }
        ensures { self.new ≡ moved self.old (Move.Join actor) }
    {
        let actor = &mut self.actors[actor as usize];
        actor.live = false;
    }
}
