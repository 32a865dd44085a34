//! The rule of a lane's queue: what is taken of a sender, and then what the queue holds of it, is
//! what it sent.
//!
//! Each end of a lane has a pass of the queue, and each step changes the view of the pass that
//! makes it: a push that of a sender, a pop that of the receiver. A pass that is dealt out or taken
//! in changes that of the receiver, as a lane is opened and closed. A push that finds the queue
//! full and a pop that finds it empty change none.
use crate::parcel::Parcel;
use crossbeam_queue::RuledArrayQueue;
use crossbeam_queue::protocol::{Join, Lesson, Outcome, Protocol, Split};
use std::collections::LinkedList;

// What one sender has put. No value of it is made.
pub struct Log<T> {
    pub from: usize,
    pub items: LinkedList<T>,
    pub ended: bool,
}

// What a pass knows: a sender what it has put; the receiver how many senders were made, what it
// took, and the senders that it took in. No value of it is made.
pub enum View<T> {
    Sends(Log<T>),
    Receives(usize, LinkedList<Parcel<T>>, LinkedList<Log<T>>),
    Spent,
}

pub struct InOrder;

impl<T> Protocol<Parcel<T>, View<T>> for InOrder {
    ghost use Rattle.std.specs.Prelude.{[]};
    ghost use Rattle.xa_lane.specs.declared.order.View.TheVariants.{Receives};
    ghost use Rattle.xa_lane.specs.Order.{Delivers};

    ghost holds = { Delivers };

    ghost first = { Receives 0 [] [] };
}

// The receiver makes a sender, with the next number.
pub struct Deals;

impl<T> Split<View<T>> for Deals {
    ghost use Rattle.xa_lane.specs.Order.{after_deal, dealt_view};

    ghost left = { after_deal };

    ghost right = { dealt_view };
}

// The receiver takes a sender in, whose pass is then spent.
pub struct TakesIn;

impl<T> Join<View<T>> for TakesIn {
    ghost use Rattle.xa_lane.specs.declared.order.View.TheVariants.{Spent};
    ghost use Rattle.xa_lane.specs.Order.{after_join};

    ghost both = { after_join };

    ghost spent = { Spent };
}

// A sender puts a parcel, or learns that the queue was full.
pub struct Pushes;

impl<T> Outcome<Parcel<T>, View<T>> for Pushes {
    ghost use Rattle.std.specs.Prelude.{◌≡◌};
    ghost use Rattle.xa_lane.specs.Order.{after_put};

    ghost then = { λ v x w. w ≡ after_put v x };
}

impl<T> Lesson<Parcel<T>, View<T>> for Pushes {
    ghost use Rattle.xa_lane.specs.Order.{sender_learns};

    ghost fact = { sender_learns };
}

// The receiver takes a parcel, or learns that the queue was empty.
pub struct Gets;

impl<T> Outcome<Parcel<T>, View<T>> for Gets {
    ghost use Rattle.xa_lane.specs.Order.{Popped};

    ghost then = { Popped };
}

impl<T> Lesson<Parcel<T>, View<T>> for Gets {
    ghost use Rattle.xa_lane.specs.Order.{receiver_learns};

    ghost fact = { receiver_learns };
}

pub type ParcelQueue<T> = RuledArrayQueue<Parcel<T>, View<T>, InOrder>;
