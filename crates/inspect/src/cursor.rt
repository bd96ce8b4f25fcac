// The reading cursor of a file (source: Input): it goes in by value and comes back moved.
ghost use Rattle.std.specs.Prelude.{◌≡◌, ◌+◌, ◌≤◌, ◌<◌, leb, length, take};
ghost use Rattle.inspect.specs.Cursors.{to, word_at, long_at, pair_at, held_at, headed_at};

use field::{read_u32, read_u64};
use rules::{Held, HintHeader};
use tables::{kind_of, signed};

// The place in the body that is read next.
#[derive(Clone, Copy)]
pub struct Cursor {
    pub at: usize,
}

// The refusal, or the number and the cursor behind it.
#[derive(Clone, Copy)]
pub enum Word {
    Refused(u32),
    Number(u32, Cursor),
}

#[derive(Clone, Copy)]
pub enum Long {
    Refused(u32),
    Number(u64, Cursor),
}

// The refusal, or two numbers and the cursor behind them.
#[derive(Clone, Copy)]
pub enum Pair {
    Refused(u32),
    Numbers(u32, u32, Cursor),
}

// The refusal, or a held part and the cursor behind it.
#[derive(Clone, Copy)]
pub enum OneHeld {
    Refused(u32),
    Part(Held, Cursor),
}

// The refusal, or the hint section's header and the cursor behind what was read.
#[derive(Clone, Copy)]
pub enum Headed {
    Refused(u32),
    Header(HintHeader, Cursor),
}

// The first len bytes of s.
pub fn cut(s: &[u8], len: usize) -> &[u8]
    requires { len ≤ length s.now }
    ensures { result.now ≡ take len s.now }
{
    &s[..len]
}

impl Cursor {
    // Are w bytes there?
    #[tactic(auto, using(std::proofs::lemmas::Bool::Decides::nat_tests))]
    pub fn holds(self, body: &[u8], w: usize) -> bool
        ensures { result ≡ leb (self.at + w) (length body.now) }
    {
        w <= body.len() && self.at <= body.len() - w
    }

    // Behind n bytes.
    pub fn past(self, n: usize) -> Cursor
        requires { self.at + n < 18446744073709551616 }
        ensures { result ≡ to (self.at + n) }
    {
        Cursor { at: self.at + n }
    }

    #[tactic(auto, using(std::proofs::lemmas::Bool::Decides::nat_tests), unfolding(crate::specs::Cursors::word_at))]
    pub fn u32(self, body: &[u8]) -> Word
        ensures { result ≡ word_at body.now self.at }
    {
        if !self.holds(body, 4) {
            return Word::Refused(20);
        }
        Word::Number(read_u32(body, self.at), self.past(4))
    }

    #[tactic(auto, using(std::proofs::lemmas::Bool::Decides::nat_tests), unfolding(crate::specs::Cursors::long_at))]
    pub fn u64(self, body: &[u8]) -> Long
        ensures { result ≡ long_at body.now self.at }
    {
        if !self.holds(body, 8) {
            return Long::Refused(20);
        }
        Long::Number(read_u64(body, self.at), self.past(8))
    }

    // Two numbers, one behind the other.
    pub fn pair(self, body: &[u8]) -> Pair
        ensures { result ≡ pair_at body.now self.at }
    {
        let Word::Number(first, c) = self.u32(body) else {
            return Pair::Refused(20);
        };
        let Word::Number(second, d) = c.u32(body) else {
            return Pair::Refused(20);
        };
        Pair::Numbers(first, second, d)
    }

    // A held part, number by number; 33 where its kind is above 1.
    pub fn held(self, body: &[u8]) -> OneHeld
        ensures { result ≡ held_at body.now self.at }
    {
        let Pair::Numbers(at, frame, c) = self.pair(body) else {
            return OneHeld::Refused(20);
        };
        let Pair::Numbers(len, number, d) = c.pair(body) else {
            return OneHeld::Refused(20);
        };
        let Pair::Numbers(remaining, kind, e) = d.pair(body) else {
            return OneHeld::Refused(20);
        };
        if 1 < kind {
            return OneHeld::Refused(33);
        }
        let p = Held {
            at,
            frame,
            len,
            number,
            kind: kind_of(kind),
            remaining: signed(remaining),
        };
        OneHeld::Part(p, e)
    }

    // The header of the hint section, field by field.
    pub fn hint_header(self, body: &[u8]) -> Headed
        ensures { result ≡ headed_at body.now self.at }
    {
        let Long::Number(fingerprint, c) = self.u64(body) else {
            return Headed::Refused(20);
        };
        let Pair::Numbers(spacing, most, d) = c.pair(body) else {
            return Headed::Refused(20);
        };
        let Pair::Numbers(count, zero20, e) = d.pair(body) else {
            return Headed::Refused(20);
        };
        let g = HintHeader {
            fingerprint,
            spacing,
            most,
            count,
            zero20,
        };
        Headed::Header(g, e)
    }
}
