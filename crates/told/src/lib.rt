//! What a C caller is told of an answer of the machine (01, sections 2 and 8): the answer as five numbers.
#![tactic(auto)]

ghost use Rattle.std.specs.Prelude.{◌≡◌, get_or};
ghost use Rattle.accepting.specs.Accepting.{reply_of};
ghost use Rattle.making.specs.Making.{made_of};
ghost use Rattle.ends.specs.Ends.{popped_of, top_of};
ghost use Rattle.told.specs.Told.{told, made_told, refused_told, reply_told, popped_told, top_reply_told};

use accepting::Answer;
use making::Unmade;
use refusals::Refusal;

/// What a call is answered. `kind` 0: refused, `refusal` is 01's number and `value` the place of a sheet's fault; 1: made; 2: match, `value` is the content flag; 3: waits for attributes; 4: `value` elements were popped; 5: ids of the top open element; 6: nothing is open. Id i is bit i of `low`, or bit i - 64 of `high`.
#[repr(C)]
#[derive(Clone, Copy)]
pub struct Told {
    pub kind: u32,
    pub refusal: u32,
    pub value: u64,
    pub low: u64,
    pub high: u64,
}

// What every answer begins from.
const NOTHING: Told = Told {
    kind: 0,
    refusal: 0,
    value: 0,
    low: 0,
    high: 0,
};

impl Told {
    /// A refusal, by any number and place.
    pub fn refused(number: u32, place: u64) -> Told
        ensures { result ≡ refused_told number place }
    {
        Told {
            refusal: number,
            value: place,
            ..NOTHING
        }
    }

    /// The same with id words beside it.
    pub fn with_ids(self, ids: [u64; 2]) -> Told
        ensures { result ≡ told self.kind self.refusal self.value (get_or ids 0 0) (get_or ids 1 0) }
    {
        Told {
            low: ids[0],
            high: ids[1],
            ..self
        }
    }
}

/// What the making of a machine is answered.
impl From<Result<(), Unmade>> for Told {
    ghost from_gives = { λ made told. told ≡ made_told (made_of made) };

    #[tactic(auto, unfolding(crate::specs::Told::made_told))]
    fn from(made: Result<(), Unmade>) -> Told {
        match made {
            Ok(()) => Told { kind: 1, ..NOTHING },
            Err(Unmade::Sheet(fault)) => {
                Told::refused(u32::from(fault.refusal.number()), fault.place as u64)
            }
            Err(Unmade::Refused(refusal)) => Told::refused(refusal.number(), 0),
        }
    }
}

/// What a start tag or attributes are answered.
impl From<Result<Answer, Refusal>> for Told {
    ghost from_gives = { λ reply told. told ≡ reply_told (reply_of reply) };

    #[tactic(auto, unfolding(crate::specs::Told::reply_told, crate::specs::Told::answer_told))]
    fn from(reply: Result<Answer, Refusal>) -> Told {
        match reply {
            Ok(Answer::Match { ids, content }) => {
                let matched = Told {
                    kind: 2,
                    value: content as u64,
                    ..NOTHING
                };
                matched.with_ids(ids)
            }
            Ok(Answer::Attributes) => Told { kind: 3, ..NOTHING },
            Err(refusal) => Told::refused(refusal.number(), 0),
        }
    }
}

/// What an end tag is answered.
impl From<Result<usize, Refusal>> for Told {
    ghost from_gives = { λ popped told. told ≡ popped_told (popped_of popped) };

    #[tactic(auto, unfolding(crate::specs::Told::popped_told))]
    fn from(popped: Result<usize, Refusal>) -> Told {
        match popped {
            Ok(count) => Told {
                kind: 4,
                value: count as u64,
                ..NOTHING
            },
            Err(refusal) => Told::refused(refusal.number(), 0),
        }
    }
}

/// What is told of the top open element.
impl From<Result<Option<[u64; 2]>, Refusal>> for Told {
    ghost from_gives = { λ top told. told ≡ top_reply_told (top_of top) };

    #[tactic(auto, unfolding(crate::specs::Told::top_reply_told, crate::specs::Told::top_told))]
    fn from(top: Result<Option<[u64; 2]>, Refusal>) -> Told {
        match top {
            Ok(Some(words)) => Told { kind: 5, ..NOTHING }.with_ids(words),
            Ok(None) => Told { kind: 6, ..NOTHING },
            Err(refusal) => Told::refused(refusal.number(), 0),
        }
    }
}
