//! A program whose moves are counted once.
ghost use Rattle.std.specs.Prelude.{◌≡◌, ◌<◌, IfSome, length, slice_get};
ghost use Rattle.jcl_meaning.specs.Programs.{ending_in, moves_in};
ghost use Rattle.prog_core.specs.Moves.{ending_by, is_move, move_by};

use jcl_meaning::program::{Move, Request};
use jcl_plan::outcome::{Abend, Code, Outcome};
use jname_core::name8::Name8;
use kept_requests::requests::{Requests, SharedRequests};
use std::marker::Model;

/// A program, and how many records it moves: each of so many requests is a move, and the next one is its end.
#[derive(Drop)]
pub(crate) struct CountedProgram {
    name: Name8,
    requests: SharedRequests,
    moves: usize,
}

impl Model for CountedProgram {
    ghost use Rattle.std.specs.Prelude.{◌≡◌, length};
    ghost use Rattle.jcl_meaning.specs.Programs.{moves_in};
    ghost use Rattle.jcl_meaning.specs.declared.program.SoloProgram.{SoloProgram};

    ghost Value = { SoloProgram };

    ghost view = { λ c. record { name = c.name; requests = c.requests } };

    ghost invariant = { λ c. c.moves ≡ length (moves_in c.requests) };
}

/// Whether there is a request that moves a record.
fn is_move(request: Option<Request>) -> bool
    ensures { result ≡ is_move request }
{
    match request {
        None => false,
        Some(Request::Get(_)) => true,
        Some(Request::Put { .. }) => true,
        Some(Request::End(_)) => false,
        Some(Request::Abend(_)) => false,
    }
}

/// How many requests come before the end.
fn count_moves(requests: &Requests) -> usize
    ensures { result ≡ length (moves_in requests.now) }
{
    for at in 0..requests.len() {
        if !is_move(requests.at(at)) {
            return at;
        }
    }
    requests.len()
}

/// The move that a request asks for, if it is no end.
fn move_by(request: &Request) -> Option<Move>
    ensures { result ≡ move_by request.now }
{
    match request {
        Request::Get(dd) => Some(Move::From(*dd)),
        Request::Put { dd, text } => Some(Move::To {
            dd: *dd,
            text: *text,
        }),
        Request::End(_) => None,
        Request::Abend(_) => None,
    }
}

/// How a program ends whose moves are before this request.
fn ending_by(request: &Option<Request>) -> Outcome
    ensures { result ≡ ending_by request.now }
{
    match request {
        None => Outcome::Code(Code::zero()),
        Some(Request::Get(_)) => Outcome::Code(Code::zero()),
        Some(Request::Put { .. }) => Outcome::Code(Code::zero()),
        Some(Request::End(code)) => Outcome::Code(*code),
        Some(Request::Abend(code)) => Outcome::Abend(Abend::User(*code)),
    }
}

impl CountedProgram {
    pub(crate) fn new(name: Name8, requests: SharedRequests) -> CountedProgram
        ensures { result ≡ record { name = name; requests = requests } }
    {
        let moves = count_moves(requests.get());
        CountedProgram {
            name,
            requests,
            moves,
        }
    }

    pub(crate) fn move_count(&self) -> usize
        ensures { result ≡ length (moves_in self.now.requests) }
    {
        self.moves
    }

    /// The move at a place, from 0.
    pub(crate) fn move_at(&self, place: usize) -> Option<Move>
        ensures value { result ≡ slice_get (moves_in self.now.requests) place }
        ensures fits { IfSome result (λ _. place < usize.MAX) }
    {
        if place >= self.moves {
            return None;
        }
        match self.requests.get().at(place) {
            None => None,
            Some(request) => move_by(&request),
        }
    }

    /// How the program ends by itself: the request after its moves tells.
    pub(crate) fn ending(&self) -> Outcome
        ensures { result ≡ ending_in self.now.requests }
    {
        ending_by(&self.requests.get().at(self.moves))
    }
}
