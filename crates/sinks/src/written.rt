ghost use Rattle.std.specs.Prelude.{◌≤◌, min, length, take};
ghost use Rattle.sinks.specs.LentBytes.{most};
ghost use Rattle.sinks.specs.Spellings.{Clean};

use crate::sink::{Full, MOST, Sink};
use crate::spelling::Spelling;
use crate::step::Step;
use std::marker::PhantomData;

// A sink over lent bytes: the codes are in the first `len` of these, which are just those of the steps read from them.
// The length stands beside the bytes since they are lent: the device has no heap.
#[derive(Drop)]
pub struct Written<'a, S: Spelling> {
    bytes: &'a mut [u8],
    len: usize,
    of: PhantomData<S>,
    ghost inside: { len ≤ min (length bytes.now) most },
    ghost clean: { Clean S.code S.reads (take len bytes.now) },
}

impl<'a, S: Spelling> Written<'a, S> {
    ghost use Rattle.std.specs.Prelude.{◌≡◌, ◌/◌, []};
    ghost use Rattle.std.specs.List.{flat_map};
    ghost use Rattle.sinks.specs.Meaning.{bytes_on, steps_on, room_on};

    // A sink without a step over these bytes, which stay as they are.
    pub fn new(bytes: &'a mut [u8]) -> Written<'a, S>
        ensures items { steps_on result ≡ [] }
        ensures room { room_on result ≡ min (length bytes.old) most / S.WIDTH }
        ensures len { result.len ≡ 0 }
        ensures row { result.bytes.now ≡ bytes.old }
        ensures lender { result.bytes.ghost_name ≡ bytes.entry.ghost_name }
    {
        Written {
            bytes,
            len: 0,
            of: PhantomData,
        }
    }

    // The bytes that it has written, which are the codes of its steps.
    pub fn bytes(&self) -> &[u8]
        ensures row { result.now ≡ bytes_on self.now }
        ensures items { result.now ≡ flat_map S.code (steps_on self.now) }
    {
        &self.bytes[..self.len]
    }
}

impl<'a, S: Spelling> Sink for Written<'a, S> {
    ghost use Rattle.sinks.specs.Meaning.{steps_on, room_on};

    ghost steps = { steps_on };

    ghost room = { room_on };

    ghost row = { λ sink. sink.bytes.now };

    ghost used = { λ sink. sink.len };

    ghost lender = { λ sink. sink.bytes.ghost_name };

    fn room(&self) -> usize {
        (self.bytes.len().min(MOST) - self.len) / S::WIDTH
    }

    fn step(&mut self, step: Step) -> Result<(), Full> {
        if self.room() == 0 {
            return Err(Full);
        }
        let line = S::spell(step);
        let code = line.text();
        let end = self.len + code.len();
        self.bytes[self.len..end].copy_from_slice(code);
        self.len = end;
        Ok(())
    }
}
