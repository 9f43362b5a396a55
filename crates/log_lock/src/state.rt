//! What each pass of a lock knows, and the steps that change it, for the proofs alone.
use crate::story::{Story, Tick};
use crossbeam_queue::protocol::{Join, Lesson, Outcome, Protocol, Split};
use std::alloc::Global;
use std::collections::LinkedList;

/// What a pass knows. No value of it is made.
pub struct PassState<B> {
    /// Whether the pass is still there: one that was brought together with the other isn't.
    pub alive: bool,
    /// Which of the two passes it is.
    pub number: u32,
    /// Whether it is the pass of the other number too, before it is split in two and after both are
    /// brought together.
    pub both: bool,
    /// Whether it has the turn: the value is out, with this pass.
    pub turn: bool,
    /// The value's brand.
    pub brand: LinkedList<B>,
    /// With the turn, the story that the value had when it was taken out.
    pub bound: LinkedList<Tick>,
    /// The story that the value had when this pass last gave it back.
    pub seen: LinkedList<Tick>,
    /// The ticks of this pass, in order.
    pub mine: LinkedList<Tick>,
    /// The same three of the other number, where it is the pass of both.
    pub other_brand: LinkedList<B>,
    pub other_seen: LinkedList<Tick>,
    pub other_mine: LinkedList<Tick>,
}

/// The rule of a lock: the queue of one place holds the value, or it is empty and one pass has the
/// turn.
pub struct InTurn;

impl<V: Story<B>, B> Protocol<Box<V, Global>, PassState<B>> for InTurn {
    ghost use Rattle.log_lock.specs.States.{IsLocked, whole};

    ghost holds = { IsLocked (λ b. V.brand b.value) (λ b. V.story b.value) };

    ghost first = { whole };
}

/// The two passes of a lock.
pub struct Two;

impl<B> Split<PassState<B>> for Two {
    ghost use Rattle.log_lock.specs.States.{first_pass, second_pass};

    ghost left = { first_pass };

    ghost right = { second_pass };
}

impl<B> Join<PassState<B>> for Two {
    ghost use Rattle.log_lock.specs.States.{both_passes, spent as nothing};

    ghost both = { both_passes };

    ghost spent = { nothing };
}

/// The turn is given up for the first time: the value goes in.
pub struct Opened;

impl<V: Story<B>, B> Outcome<Box<V, Global>, PassState<B>> for Opened {
    ghost use Rattle.log_lock.specs.States.{Opens};

    ghost then = { Opens (λ b. V.brand b.value) (λ b. V.story b.value) };
}

impl<V, B> Lesson<V, PassState<B>> for Opened {
    ghost use Rattle.log_lock.specs.States.{KnowsEmpty};

    ghost fact = { KnowsEmpty };
}

/// The turn is given up: the value goes back.
pub struct GaveUp;

impl<V: Story<B>, B> Outcome<Box<V, Global>, PassState<B>> for GaveUp {
    ghost use Rattle.log_lock.specs.States.{GivesUp};

    ghost then = { GivesUp (λ b. V.brand b.value) (λ b. V.story b.value) };
}

impl<V, B> Lesson<V, PassState<B>> for GaveUp {
    ghost use Rattle.log_lock.specs.States.{KnowsEmpty};

    ghost fact = { KnowsEmpty };
}

/// The turn is taken.
pub struct GotTurn;

impl<V: Story<B>, B> Outcome<Box<V, Global>, PassState<B>> for GotTurn {
    ghost use Rattle.log_lock.specs.States.{HasTurn};

    ghost then = { HasTurn (λ b. V.brand b.value) (λ b. V.story b.value) };
}

impl<V, B> Lesson<V, PassState<B>> for GotTurn {
    ghost use Rattle.log_lock.specs.States.{KnowsValue};

    ghost fact = { KnowsValue };
}
