// The numbered replies that every call gives, each by a name of its own; the refusal that a step ends with, and the answer of a call.
#![tactic(auto)]

pub mod calls;

ghost use Rattle.std.specs.Prelude.{◌≡◌, Ok};
ghost use Rattle.reply.specs.Reply.{reply_number};
ghost use Rattle.reply.specs.Told.{answered, refusal_in};

// In the order of their numbers, 0 to 19. A further reply is one more case here, in `u32::from` and in `reply_number`.
#[derive(Clone, Copy, Debug, PartialEq, Eq)]
pub enum Reply {
    Done,
    // The file.
    FileEnds,
    MalformedNumber,
    WrongVersion,
    OutOfRange,
    BadPair,
    BadChannel,
    BadAction,
    BytesLeft,
    TooLarge,
    // Lent memory.
    ShortBuffer,
    // A plan.
    WrongProcessor,
    BeforeRelease,
    EndsLate,
    Overlaps,
    BeforePredecessor,
    // What a run is given.
    BadSample,
    WrongTurn,
    LongDuration,
    // The planner's rule.
    MissesDeadline,
}

// Why a step went no further: its reply, and the place that the reply speaks of.
#[derive(Clone, Copy, Debug, PartialEq, Eq)]
pub struct Refusal {
    pub reply: Reply,
    pub place: usize,
}

// What a call answers: its reply, and the place that the reply speaks of (0 when it is done).
#[derive(Clone, Copy, Debug, PartialEq, Eq)]
pub struct Answer {
    pub reply: Reply,
    pub place: usize,
}

impl From<Reply> for u32 {
    ghost from_gives = { λ reply number. number ≡ reply_number reply };

    fn from(reply: Reply) -> u32 {
        match reply {
            Reply::Done => 0,
            Reply::FileEnds => 1,
            Reply::MalformedNumber => 2,
            Reply::WrongVersion => 3,
            Reply::OutOfRange => 4,
            Reply::BadPair => 5,
            Reply::BadChannel => 6,
            Reply::BadAction => 7,
            Reply::BytesLeft => 8,
            Reply::TooLarge => 9,
            Reply::ShortBuffer => 10,
            Reply::WrongProcessor => 11,
            Reply::BeforeRelease => 12,
            Reply::EndsLate => 13,
            Reply::Overlaps => 14,
            Reply::BeforePredecessor => 15,
            Reply::BadSample => 16,
            Reply::WrongTurn => 17,
            Reply::LongDuration => 18,
            Reply::MissesDeadline => 19,
        }
    }
}

impl From<Refusal> for Answer {
    ghost from_gives = { λ refusal answer. answer ≡ record { reply = refusal.reply; place = refusal.place } };

    fn from(refusal: Refusal) -> Answer {
        Answer {
            reply: refusal.reply,
            place: refusal.place,
        }
    }
}

impl From<Result<(), Refusal>> for Answer {
    ghost from_gives = { λ outcome answer. answer ≡ answered outcome };

    fn from(outcome: Result<(), Refusal>) -> Answer {
        match outcome {
            Ok(()) => Answer::done(),
            Err(refusal) => Answer::from(refusal),
        }
    }
}

impl Answer {
    // The answer of a call that is done.
    pub fn done() -> Answer
        ensures { result ≡ answered (Ok tt) }
    {
        Answer {
            reply: Reply::Done,
            place: 0,
        }
    }

    // The refusal that the answer is, if it is one.
    pub fn ok(self) -> Result<(), Refusal>
        ensures { result ≡ refusal_in self }
    {
        match self.reply {
            Reply::Done => Ok(()),
            reply => Err(Refusal {
                reply,
                place: self.place,
            }),
        }
    }
}
