//! What goes through a lane.

/// An item of a sender, or its end mark.
#[derive(Drop)]
pub struct Parcel<T> {
    /// The sender's number, from 0.
    pub from: usize,
    /// None for the end mark.
    pub item: Option<T>,
}

/// What a receiver has taken.
#[derive(Drop)]
pub enum Taken<T> {
    /// An item of the sender with this number, from 0.
    Item(usize, T),
    /// The end mark of the sender with this number, from 0.
    EndOf(usize),
    /// Nothing: there was a moment at which nothing stood in the lane.
    Empty,
}

/// The lane was full. The item comes back, and was not sent.
#[derive(Drop)]
pub struct Full<T> {
    pub item: T,
}
