//! The requests of a program in order.
ghost use Rattle.std.specs.Prelude.{◌≡◌, ◌++◌, ◌∷◌, [], All, IfOk, OnErr, OnOk, length, slice_get};
ghost use Rattle.jcl_meaning.specs.WellFormed.{IsRequest};
ghost use Rattle.kept_requests.specs.Heads.{head_of, request_by, requests_of, text_of};

use jcl_meaning::program::Request;
use jcl_plan::outcome::Code;
use jname_core::name8::Name8;
use set_core::records::Records;
use std::alloc::{AllocError, Global};
use std::marker::Model;
use std::rc::Rc;

/// A request without what it puts.
#[derive(Clone, Copy)]
pub(crate) enum Head {
    Get(Name8),
    Put(Name8),
    End(Code),
    Abend(Code),
}

/// The requests of a program. Of the record that one puts only the text takes memory.
#[derive(Drop)]
pub struct Requests {
    heads: Vec<Head>,
    /// What each of them puts; blank where it puts nothing.
    texts: Records,
}

impl Model for Requests {
    ghost use Rattle.std.specs.Prelude.{List};
    ghost use Rattle.jcl_meaning.specs.declared.program.Request.{Request};
    ghost use Rattle.kept_requests.specs.Heads.{AreParts, requests_of};

    ghost Value = { List Request };

    ghost view = { λ r. requests_of r.heads.items r.texts };

    ghost invariant = { λ r. AreParts r.heads.items r.texts };
}

/// The code of a request is at most 4095, which its type says. This does nothing.
fn is_request(request: &Request)
    ensures { IsRequest request.now }
{
    match request {
        Request::Get(_) => {}
        Request::Put { .. } => {}
        Request::End(code) => {
            let _ = code.number();
        }
        Request::Abend(code) => {
            let _ = code.number();
        }
    }
}

fn head_of(request: &Request) -> Head
    ensures { result ≡ head_of request.now }
{
    match request {
        Request::Get(dd) => Head::Get(*dd),
        Request::Put { dd, .. } => Head::Put(*dd),
        Request::End(code) => Head::End(*code),
        Request::Abend(code) => Head::Abend(*code),
    }
}

/// Puts what a request puts behind the others, or a blank record. An `Err` changes nothing.
fn push_text(texts: &mut Records, request: &Request) -> Result<(), AllocError>
    ensures ok { OnOk result (texts.new ≡ texts.old ++ text_of request.now ∷ []) }
    ensures err { OnErr result (texts.new ≡ texts.old) }
{
    match request {
        Request::Get(_) => texts.append_text(b""),
        Request::Put { text, .. } => texts.append(*text),
        Request::End(_) => texts.append_text(b""),
        Request::Abend(_) => texts.append_text(b""),
    }
}

/// Puts the parts of a request behind the others. An `Err` changes neither.
fn push_parts(
    heads: &mut Vec<Head>,
    texts: &mut Records,
    request: &Request,
) -> Result<(), AllocError>
    ensures heads { OnOk result (heads.new.items ≡ heads.old.items ++ head_of request.now ∷ []) }
    ensures texts { OnOk result (texts.new ≡ texts.old ++ text_of request.now ∷ []) }
    ensures same_heads { OnErr result (heads.new.items ≡ heads.old.items) }
    ensures same_texts { OnErr result (texts.new ≡ texts.old) }
{
    heads.reserve(1)?;
    push_text(texts, request)?;
    let Ok(()) = heads.push(head_of(request)) else {
        unreachable!();
    };
    Ok(())
}

fn head_at(heads: &[Head], place: usize) -> Option<Head>
    ensures { result ≡ slice_get heads.now place }
{
    heads.get(place).copied()
}

/// The request of a head, with the record of its place, where it puts one.
fn with_text(head: Head, texts: &Records, place: usize) -> Option<Request>
    ensures { result ≡ request_by head (slice_get texts.now place) }
{
    match head {
        Head::Get(dd) => Some(Request::Get(dd)),
        Head::Put(dd) => match texts.read_at(place) {
            None => None,
            Some(text) => Some(Request::Put { dd, text }),
        },
        Head::End(code) => Some(Request::End(code)),
        Head::Abend(code) => Some(Request::Abend(code)),
    }
}

/// The request of a place that counts from 0, of those that have these parts.
fn request_at(heads: &[Head], texts: &Records, place: usize) -> Option<Request>
    requires { length heads.now ≡ length texts.now }
    ensures { result ≡ slice_get (requests_of heads.now texts.now) place }
{
    match head_at(heads, place) {
        None => None,
        Some(head) => with_text(head, texts, place),
    }
}

impl Requests {
    pub fn new(alloc: Global) -> Requests
        ensures { result ≡ [] }
    {
        Requests {
            heads: Vec::new(alloc),
            texts: Records::new(alloc),
        }
    }

    #[tactic(auto, using(crate::proofs::Parts::as_many))]
    pub fn len(&self) -> usize
        ensures { result ≡ length self.now }
    {
        self.heads.len()
    }

    /// Puts a request behind the others. An `Err` changes nothing.
    pub fn push(&mut self, request: Request) -> Result<(), AllocError>
        ensures ok { OnOk result (self.new ≡ self.old ++ request ∷ []) }
        ensures err { OnErr result (self.new ≡ self.old) }
    {
        is_request(&request);
        push_parts(&mut self.heads, &mut self.texts, &request)?;
        Ok(())
    }

    /// The codes of the requests are at most 4095. This does nothing.
    pub fn are_requests(&self)
        ensures { All IsRequest self.now }
    {
        let _ = &self.heads;
    }

    /// The request of a place that counts from 0.
    pub fn at(&self, place: usize) -> Option<Request>
        ensures { result ≡ slice_get self.now place }
    {
        request_at(self.heads.as_slice(), &self.texts, place)
    }
}

/// Requests that do not change any more. A copy takes no more memory: it shares them.
#[derive(Drop)]
pub struct SharedRequests {
    shared: Rc<Requests>,
}

impl Model for SharedRequests {
    ghost use Rattle.std.specs.Prelude.{List};
    ghost use Rattle.jcl_meaning.specs.declared.program.Request.{Request};

    ghost Value = { List Request };

    ghost view = { λ s. s.shared.value };
}

impl Clone for SharedRequests {
    ghost use Rattle.std.specs.Prelude.{◌≡◌};

    ghost is_clone = { λ s copy. copy ≡ s };

    fn clone(&self) -> Result<SharedRequests, AllocError> {
        let shared = self.shared.clone()?;
        Ok(SharedRequests { shared })
    }
}

impl SharedRequests {
    pub fn new(alloc: Global, requests: Requests) -> Result<SharedRequests, AllocError>
        ensures { IfOk result (λ shared. shared ≡ requests) }
    {
        let shared = Rc::new(alloc, requests)?;
        Ok(SharedRequests { shared })
    }

    pub fn get(&self) -> &Requests
        ensures { result.now ≡ self.now }
    {
        self.shared.as_ref()
    }
}
