// A term is one word: kind * 2^32 + L * 2^16 + R.
#![tactic(auto)]

ghost use Rattle.std.specs.Prelude.{◌≡◌, ◌+◌, ◌*◌};
ghost use Rattle.words.specs.Word.{packed, term_of, word_of, KindRead};

pub const PRINCIPAL: u64 = 0;

pub const TIME: u64 = 1;

pub const NONCE: u64 = 2;

pub const LONG_TERM_KEY: u64 = 3;

pub const SESSION_KEY: u64 = 4;

pub const PAIR: u64 = 5;

pub const ENCRYPTED: u64 = 6;

// The kinds, by their numbers.
#[derive(Clone, Copy, Debug, PartialEq, Eq)]
pub enum Kind {
    Principal = 0,
    Time = 1,
    Nonce = 2,
    LongTermKey = 3,
    SessionKey = 4,
    Pair = 5,
    Encrypted = 6,
}

// A number that is no kind's.
#[derive(Clone, Copy, Debug, PartialEq, Eq)]
pub struct UnknownKind(pub u64);

impl TryFrom<u64> for Kind {
    type Error = UnknownKind;

    ghost try_from_gives = { KindRead };

    fn try_from(number: u64) -> Result<Kind, UnknownKind> {
        match number {
            PRINCIPAL => Ok(Kind::Principal),
            TIME => Ok(Kind::Time),
            NONCE => Ok(Kind::Nonce),
            LONG_TERM_KEY => Ok(Kind::LongTermKey),
            SESSION_KEY => Ok(Kind::SessionKey),
            PAIR => Ok(Kind::Pair),
            ENCRYPTED => Ok(Kind::Encrypted),
            _ => Err(UnknownKind(number)),
        }
    }
}

// A term taken apart. The operands of a pair and of an encryption (body, then key) are numbers of terms.
#[derive(Clone, Copy, Debug, PartialEq, Eq)]
pub enum Term {
    Principal(u16),
    Time(u32),
    Nonce(u16),
    LongTermKey(u16),
    SessionKey(u16),
    Pair(u16, u16),
    Encrypted(u16, u16),
    // A kind above 6.
    Unknown,
}

// The term of a word.
impl From<u64> for Term {
    ghost from_gives = { λ word t. t ≡ term_of word };

    fn from(word: u64) -> Term {
        let left = (word / 65536 % 65536) as u16;
        let right = (word % 65536) as u16;
        match Kind::try_from(word / 4294967296) {
            Ok(Kind::Principal) => Term::Principal(left),
            Ok(Kind::Time) => Term::Time((left as u32) * 65536 + (right as u32)),
            Ok(Kind::Nonce) => Term::Nonce(left),
            Ok(Kind::LongTermKey) => Term::LongTermKey(left),
            Ok(Kind::SessionKey) => Term::SessionKey(left),
            Ok(Kind::Pair) => Term::Pair(left, right),
            Ok(Kind::Encrypted) => Term::Encrypted(left, right),
            Err(_) => Term::Unknown,
        }
    }
}

// The word of a kind and two fields.
pub fn pack(kind: u8, left: u16, right: u16) -> u64
    ensures { result ≡ packed kind left right }
{
    (kind as u64) * 4294967296 + (left as u64) * 65536 + (right as u64)
}

// The word of a term.
impl From<Term> for u64 {
    ghost from_gives = { λ t word. word ≡ word_of t };

    fn from(t: Term) -> u64 {
        match t {
            Term::Principal(p) => pack(Kind::Principal as u8, p, 0),
            Term::Time(x) => 4294967296 + (x as u64),
            Term::Nonce(i) => pack(Kind::Nonce as u8, i, 0),
            Term::LongTermKey(p) => pack(Kind::LongTermKey as u8, p, 0),
            Term::SessionKey(i) => pack(Kind::SessionKey as u8, i, 0),
            Term::Pair(l, r) => pack(Kind::Pair as u8, l, r),
            Term::Encrypted(b, k) => pack(Kind::Encrypted as u8, b, k),
            Term::Unknown => pack(7, 0, 0),
        }
    }
}
