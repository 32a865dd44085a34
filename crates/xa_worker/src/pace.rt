//! What is told of each request that a worker carries out.
ghost use Rattle.std.specs.Prelude.{◌≡◌};
ghost use Rattle.xa_words.specs.declared.request.Request.{Request as Asked};

use std::sync::Wait;
use xa_words::Request;

/// What a worker tells of each request that it took and carries out, a late one too, before it does.
///
/// A pace names what it does to the value to be told of a request. What steps a worker says by it of which requests
/// the pace was told (`paced`); nothing else that a worker promises rests on it.
pub trait Pace {
    /// What it does to the value to be told of this request.
    ghost told: { Asked → Self → Self → Type 0 };

    /// Is told of the request that is carried out next.
    fn before<R: Wait>(&mut self, rt: &R, request: &Request)
        ensures { told request.now self.old self.new };
}

/// Does nothing.
#[derive(Clone, Copy, Debug)]
pub struct Free;

impl Pace for Free {
    ghost told = { λ request before after. after ≡ before };

    fn before<R: Wait>(&mut self, _rt: &R, _request: &Request) {}
}
