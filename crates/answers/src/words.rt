//! Words, one after the other.
ghost use Rattle.std.specs.Prelude.{◌≡◌, ◌<◌, ◌^◌, ◌==◌, ◌++◌, List, ℕ, [], length, codes, IfOk, MatchResult};
ghost use Rattle.answers.specs.Texts.{Has, Puts, refusal, hexadecimal};

use crate::text::{ROOM, Text};
use hex::encode_to_slice;
use itoa::{Buffer, Integer};
use mysql::Fault;
use std::alloc::{AllocError, Global};

impl Text {
    pub(crate) fn new(heap: Global) -> Result<Text, AllocError>
        ensures { IfOk result (λ text. Has text []) }
    {
        Ok(Text {
            bytes: Vec::with_capacity(heap, ROOM)?,
            is_cut: false,
        })
    }

    pub(crate) fn clear(&mut self)
        ensures { Has self.new [] }
    {
        self.bytes.clear();
        self.is_cut = false;
    }

    /// Goes on with the last word.
    pub(crate) fn part(&mut self, part: &[u8])
        ensures { Puts self.old self.new part.now }
    {
        if !self.is_cut && self.bytes.extend_from_slice(part).is_err() {
            self.is_cut = true;
        }
    }

    /// Whether there are no words.
    pub(crate) fn is_empty(&self) -> bool
        ensures { (words : List ℕ) → Has self.now words → result ≡ (length words == 0) }
    {
        !self.is_cut && self.bytes.is_empty()
    }

    /// The words.
    pub(crate) fn words(&self) -> Result<&[u8], AllocError>
        ensures { (words : List ℕ) → Has self.now words → MatchResult result (λ text. text.now ≡ words) (λ _. 2 ^ 20 < length words) }
    {
        if self.is_cut {
            Err(AllocError)
        } else {
            Ok(self.bytes.as_slice())
        }
    }

    pub(crate) fn digits<I: Integer>(&mut self, number: I)
        ensures { Puts self.old self.new (I.Integer.text number) }
    {
        let mut digits = Buffer::new();
        self.part(digits.format(number).as_bytes());
    }

    /// Bytes in hexadecimal; `-` is none.
    pub(crate) fn hexadecimal(&mut self, bytes: &[u8])
        ensures { Puts self.old self.new (hexadecimal bytes.now) }
    {
        if bytes.is_empty() {
            return self.part(b"-");
        }
        for byte in bytes {
            let mut pair = [0; 2];
            let _ = encode_to_slice([*byte], &mut pair);
            self.part(&pair);
        }
    }

    pub(crate) fn number<I: Integer>(&mut self, number: I)
        ensures { Puts self.old self.new (codes " " ++ I.Integer.text number) }
    {
        self.part(b" ");
        self.digits(number);
    }

    /// A refusal goes by its number.
    pub(crate) fn refusal(&mut self, fault: Fault)
        ensures { Puts self.old self.new (refusal fault) }
    {
        self.part(b" !");
        self.digits(fault.number());
    }
}
