//! What a seat knows, the rule of the turnstile, and what each step on its table tells.
ghost use Rattle.std.specs.Prelude.{ℕ, Option, None};
ghost use Rattle.turnstile.specs.Steps.{Draws, Looks, Passes, Settles, newcomer, joined, spent};

use acra_base::Machine;
use atomic_table::{Join, Play, Seat, Shared, Split, Table, TableRule};
use std::alloc::Global;
use std::collections::LinkedList;
use std::marker::{Brand, PhantomData};
use std::snapshot::Snapshot;

/// What a seat knows, by the calls and the replies of its machine. It is for proofs alone, and no
/// value of it is made.
pub struct View<C, R> {
    /// The ticket, from the draw to the end of the turn.
    pub ticket: Option<u64>,
    /// The turn is this seat's.
    pub marked: bool,
    /// The history, as far as the seat knows it.
    pub known: LinkedList<(C, R)>,
    /// Empty, or from a join to the look after it the shorter of the two histories.
    pub heard: LinkedList<(C, R)>,
    /// The places of the seat's own calls in the history.
    pub places: LinkedList<u64>,
}

/// The rule of the turnstile, over the table that it stands on.
pub struct Turns;

impl<M: Machine> TableRule<Option<M>, View<M::Call, M::Reply>, Snapshot<M>> for Turns {
    ghost use Rattle.turnstile.specs.Rule.{IsKept};
    ghost use Rattle.turnstile.specs.Steps.{spent};

    ghost holds = { λ key. IsKept M.steps key.value };

    ghost first = { λ _. spent };
}

/// What the proof of a call picks for a look: the state in which the machine began, and the seat's
/// ticket.
pub trait Awaited<M> {
    ghost opening: { Option M };

    ghost ticket: { ℕ };
}

impl<M> Awaited<M> for Brand {
    ghost opening = { None };

    ghost ticket = { 0 };
}

/// The entry that the proof of a call picks for a pass: the call and its reply.
pub trait Said<C, R> {
    ghost said: { Option (C × R) };
}

impl<C, R> Said<C, R> for Brand {
    ghost said = { None };
}

pub(crate) struct Draw;

impl<M: Machine> Play<Option<M>, View<M::Call, M::Reply>> for Draw {
    ghost then = { Draws };
}

pub(crate) struct Look<J> {
    awaited: PhantomData<J>,
}

impl<M: Machine, J: Awaited<M>> Play<Option<M>, View<M::Call, M::Reply>> for Look<J> {
    ghost then = { Looks M.steps J.opening J.ticket };
}

pub(crate) struct Pass<E> {
    said: PhantomData<E>,
}

impl<M: Machine, E: Said<M::Call, M::Reply>> Play<Option<M>, View<M::Call, M::Reply>> for Pass<E> {
    ghost then = { Passes E.said };
}

pub(crate) struct Settle<J> {
    awaited: PhantomData<J>,
}

impl<M: Machine, J: Awaited<M>> Play<Option<M>, View<M::Call, M::Reply>> for Settle<J> {
    ghost then = { Settles M.steps J.opening };
}

pub(crate) struct Cut;

impl<C, R> Split<View<C, R>> for Cut {
    ghost left = { λ v. v };

    ghost right = { newcomer };
}

pub(crate) struct Glue;

impl<C, R> Join<View<C, R>> for Glue {
    ghost both = { joined };

    ghost spent = { spent };
}

pub(crate) type TurnTable<M> = Table<
    Option<M>,
    View<<M as Machine>::Call, <M as Machine>::Reply>,
    Snapshot<M>,
    Turns,
    Global,
>;

pub(crate) type TurnSeat<M> = Seat<Option<M>, View<<M as Machine>::Call, <M as Machine>::Reply>>;

pub(crate) type TurnShared<M> = Shared<
    Option<M>,
    View<<M as Machine>::Call, <M as Machine>::Reply>,
    Snapshot<M>,
    Turns,
>;
