//! The reader of commands.

ghost use Rattle.std.specs.Prelude.{◌≡◌, ◌≢◌, ◌≤◌, ◌<◌, ◌↔◌, [], ◌++◌, length, take, IsTrue, IfOk, OnOk, OnSome, IsErrOf};
ghost use Rattle.std.specs.Option.{option_to_list};
ghost use Rattle.std.specs.Bool.{MatchBool};

use crate::heard::{Heard, InputError};
use crate::step::{Payload, hear};
use std::alloc::Global;
use std::marker::Model;

/// Hears commands in an input that comes in pieces, each byte of which it looks at once. It holds
/// what is begun and not ended: a line, and behind its line feed a payload.
#[derive(Drop)]
pub struct Reader {
    line: Vec<u8>,
    payload: Option<Payload>,
    ready: Option<Heard>,
}

impl Model for Reader {
    ghost use Rattle.dm_proto.specs.Reading.{Reading};
    ghost use Rattle.dm_proto.specs.Holding.{IsReader, begun_of};

    ghost Value = { Reading };

    ghost view = { λ r. record { begun = begun_of r.line.items r.payload; ready = r.ready } };

    ghost invariant = { λ r. IsReader r.line.items r.payload r.ready };
}

impl Reader {
    ghost use Rattle.dm_proto.specs.Stream.{Consumes, Ends, Inside, IsTooLong};
    ghost use Rattle.dm_proto.specs.Reading.{MayBegin};

    /// A reader of which nothing is begun. It takes no memory until it is fed.
    pub fn new(alloc: Global) -> Reader
        ensures begun { result.begun ≡ [] }
        ensures ready { result.ready ≡ None }
    {
        Reader {
            line: Vec::new(alloc),
            payload: None,
            ready: None,
        }
    }

    /// Takes a piece of the input, or its front up to the end of the first command or syntax line
    /// that ends in it, which is ready then. An error ends the input: what the reader holds behind
    /// it is left open.
    pub fn feed(&mut self, alloc: Global, bytes: &[u8]) -> Result<usize, InputError>
        requires { self.old.ready ≡ None }

        ensures fits { IfOk result (λ n. n ≤ length bytes.now) }
        ensures goes { IfOk result (λ n. 0 < length bytes.now → 0 < n) }
        ensures all { IfOk result (λ n. self.new.ready ≡ None → n ≡ length bytes.now) }

        // What was begun and the bytes that were taken say what is ready; what is begun now is left.
        ensures heard { IfOk result (λ n.
            Consumes (self.old.begun ++ take n bytes.now) (option_to_list self.new.ready) self.new.begun) }
        ensures idle { OnOk result (OnSome self.new.ready (self.new.begun ≡ [])) }
        ensures begun { OnOk result (MayBegin self.new.begun) }

        ensures long { IsErrOf result InputError.LongLine → IsTooLong (self.old.begun ++ bytes.now) }
    {
        let mut taken = 0;
        'pieces: while self.ready.is_none() && taken < bytes.len() {
            taken += self.step(alloc, bytes.split_at(taken).1)?;
        }
        Ok(taken)
    }

    /// Hands out what is ready.
    pub fn take(&mut self) -> Option<Heard>
        ensures taken { result ≡ self.old.ready }
        ensures ready { self.new.ready ≡ None }
        ensures begun { self.new.begun ≡ self.old.begun }
    {
        self.ready.take()
    }

    /// Whether a command is begun and not ended, so that the input would end inside of it.
    pub fn inside(&self) -> bool
        ensures begun { IsTrue result ↔ (self.now.begun ≢ []) }
        ensures ends { MatchBool result (Ends self.now.begun Inside) (self.now.begun ≡ []) }
    {
        !self.line.is_empty()
    }

    // Takes a piece of the line or of the payload, up to its end.
    fn step(&mut self, alloc: Global, bytes: &[u8]) -> Result<usize, InputError>
        requires { self.old.ready ≡ None }

        ensures fits { IfOk result (λ n. n ≤ length bytes.now) }
        ensures goes { IfOk result (λ n. 0 < length bytes.now → 0 < n) }
        ensures heard { IfOk result (λ n.
            Consumes (self.old.begun ++ take n bytes.now) (option_to_list self.new.ready) self.new.begun) }
        ensures long { IsErrOf result InputError.LongLine → IsTooLong (self.old.begun ++ bytes.now) }
    {
        let payload = self.payload.take();
        let step = hear(alloc, &mut self.line, payload, bytes)?;
        self.payload = step.payload;
        self.ready = step.ready;
        Ok(step.taken)
    }
}
