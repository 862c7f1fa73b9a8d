// Answers as C takes them: numbers and rows of numbers, laid out as C lays them out. An enum's case is a number here, and its place in the
// enum where `as` says so, since C has neither `Option` nor `Result`.
#![tactic(auto)]

ghost use Rattle.std.specs.Prelude.{◌≡◌};
ghost use Rattle.numbers.specs.Verdicts.{verdict_number, verdict_transition};

use amounts::Kind;
use judged::Verdict as Judged;
use pairs::Answer;
use reader::{Counts, Target as Goal};
use reduction::Form;
use refusals::Refusal;
use sheet::Weights;
use std::ops::Range;
use terms::{Claim, Place};
use traces::Halt;
use values::HalfSpace;
use walk::Marking;

// Both are 0 where nothing is refused.
#[repr(C)]
#[derive(Clone, Copy, Debug, PartialEq, Eq)]
pub struct Refused {
    pub number: u8,
    pub detail: usize,
}

#[repr(C)]
#[derive(Clone, Copy, Debug, PartialEq, Eq)]
pub struct Counted {
    pub refusal: Refused,
    pub places: usize,
    pub transitions: usize,
    pub claims: usize,
}

#[repr(C)]
#[derive(Clone, Copy, Debug, PartialEq, Eq)]
pub struct Weighted {
    pub refusal: Refused,
    pub taken: [u8; Place::MOST],
    pub put: [u8; Place::MOST],
}

#[repr(C)]
#[derive(Clone, Copy, Debug, PartialEq, Eq)]
pub struct Tokens {
    pub refusal: Refused,
    pub tokens: [u16; Place::MOST],
}

// Kind 0 is one exact marking, kind 1 every marking at or above it.
#[repr(C)]
#[derive(Clone, Copy, Debug, PartialEq, Eq)]
pub struct Target {
    pub refusal: Refused,
    pub kind: u8,
    pub tokens: [u16; Place::MOST],
}

#[repr(C)]
#[derive(Clone, Copy, Debug, PartialEq, Eq)]
pub struct Space {
    pub refusal: Refused,
    pub coefficients: [i8; Place::MOST],
    pub constant: i16,
}

// Where a claim's record stands in the sheet, and its bytes.
#[repr(C)]
#[derive(Clone, Copy, Debug, PartialEq, Eq)]
pub struct Record {
    pub refusal: Refused,
    pub offset: usize,
    pub length: usize,
}

// 0 refused, 1 kept, 2 broken.
#[repr(C)]
#[derive(Clone, Copy, Debug, PartialEq, Eq)]
pub struct Paired {
    pub refusal: Refused,
    pub answer: u8,
    pub marking: [u16; Place::MOST],
}

// 0 refused, then document 01's four verdicts in their order. The transition is 0 but where the claim is broken.
#[repr(C)]
#[derive(Clone, Copy, Debug, PartialEq, Eq)]
pub struct Verdict {
    pub refusal: Refused,
    pub answer: u8,
    pub transition: usize,
    pub marking: [u16; Place::MOST],
}

// The claim is 0 where no earlier one is a twin.
#[repr(C)]
#[derive(Clone, Copy, Debug, PartialEq, Eq)]
pub struct Twinned {
    pub refusal: Refused,
    pub claim: usize,
}

// The position is that of the step that is refused, counted from 1; 0 where none is.
#[repr(C)]
#[derive(Clone, Copy, Debug, PartialEq, Eq)]
pub struct Fired {
    pub refusal: Refused,
    pub position: usize,
}

// Number 0 and the text's length, or a refusal's number and its detail. Two words, so that an export needs no hidden pointer to it.
#[repr(C)]
#[derive(Clone, Copy, Debug, PartialEq, Eq)]
pub struct Written {
    pub number: u8,
    pub value: usize,
}

impl Refused {
    const NOTHING: Refused = Refused {
        number: 0,
        detail: 0,
    };
}

impl From<Refusal> for Refused {
    ghost use Rattle.std.specs.Prelude.{◌≡◌};
    ghost use Rattle.numbers.specs.Numbers.{refusal_is};

    ghost from_gives = { λ refusal told. told ≡ refusal_is refusal };

    fn from(refusal: Refusal) -> Refused {
        Refused {
            number: refusal.number(),
            detail: refusal.detail(),
        }
    }
}

impl From<Result<(), Refusal>> for Refused {
    ghost use Rattle.std.specs.Prelude.{◌≡◌};
    ghost use Rattle.numbers.specs.Numbers.{check_is};

    ghost from_gives = { λ check told. told ≡ check_is check };

    fn from(check: Result<(), Refusal>) -> Refused {
        match check {
            Ok(()) => Refused::NOTHING,
            Err(refusal) => Refused::from(refusal),
        }
    }
}

// A refused sheet has no counts.
impl From<Result<Counts, Refusal>> for Counted {
    ghost use Rattle.std.specs.Prelude.{◌≡◌};
    ghost use Rattle.numbers.specs.Numbers.{counts_are};

    ghost from_gives = { λ answer told. told ≡ counts_are answer };

    fn from(answer: Result<Counts, Refusal>) -> Counted {
        match answer {
            Ok(counts) => Counted {
                refusal: Refused::NOTHING,
                places: counts.places,
                transitions: counts.transitions,
                claims: counts.claims,
            },
            Err(refusal) => Counted {
                refusal: Refused::from(refusal),
                places: 0,
                transitions: 0,
                claims: 0,
            },
        }
    }
}

impl From<Result<Weights, Refusal>> for Weighted {
    ghost use Rattle.std.specs.Prelude.{◌≡◌};
    ghost use Rattle.numbers.specs.Numbers.{weights_are};

    ghost from_gives = { λ answer told. told ≡ weights_are answer };

    fn from(answer: Result<Weights, Refusal>) -> Weighted {
        match answer {
            Ok(weights) => {
                let taken = weights.taken;
                let put = weights.put;
                Weighted {
                    refusal: Refused::NOTHING,
                    taken,
                    put,
                }
            }
            Err(refusal) => Weighted {
                refusal: Refused::from(refusal),
                taken: [0; Place::MOST],
                put: [0; Place::MOST],
            },
        }
    }
}

impl From<Result<[u16; Place::MOST], Refusal>> for Tokens {
    ghost use Rattle.std.specs.Prelude.{◌≡◌};
    ghost use Rattle.numbers.specs.Numbers.{tokens_are};

    ghost from_gives = { λ answer told. told ≡ tokens_are answer };

    fn from(answer: Result<[u16; Place::MOST], Refusal>) -> Tokens {
        match answer {
            Ok(tokens) => Tokens {
                refusal: Refused::NOTHING,
                tokens,
            },
            Err(refusal) => Tokens {
                refusal: Refused::from(refusal),
                tokens: [0; Place::MOST],
            },
        }
    }
}

impl From<Result<Marking, Refusal>> for Tokens {
    ghost use Rattle.std.specs.Prelude.{◌≡◌};
    ghost use Rattle.numbers.specs.Numbers.{marking_is};

    ghost from_gives = { λ answer told. told ≡ marking_is answer };

    fn from(answer: Result<Marking, Refusal>) -> Tokens {
        match answer {
            Ok(marking) => {
                let tokens = marking.tokens;
                Tokens {
                    refusal: Refused::NOTHING,
                    tokens,
                }
            }
            Err(refusal) => Tokens {
                refusal: Refused::from(refusal),
                tokens: [0; Place::MOST],
            },
        }
    }
}

impl From<Result<Goal, Refusal>> for Target {
    ghost use Rattle.std.specs.Prelude.{◌≡◌};
    ghost use Rattle.numbers.specs.Numbers.{target_is};

    ghost from_gives = { λ answer told. told ≡ target_is answer };

    fn from(answer: Result<Goal, Refusal>) -> Target {
        match answer {
            Ok(target) => {
                let tokens = target.tokens;
                Target {
                    refusal: Refused::NOTHING,
                    kind: target.kind as u8,
                    tokens,
                }
            }
            Err(refusal) => Target {
                refusal: Refused::from(refusal),
                kind: Kind::Exact as u8,
                tokens: [0; Place::MOST],
            },
        }
    }
}

impl From<Result<HalfSpace, Refusal>> for Space {
    ghost use Rattle.std.specs.Prelude.{◌≡◌};
    ghost use Rattle.numbers.specs.Numbers.{half_space_is};

    ghost from_gives = { λ answer told. told ≡ half_space_is answer };

    fn from(answer: Result<HalfSpace, Refusal>) -> Space {
        match answer {
            Ok(half_space) => Space {
                refusal: Refused::NOTHING,
                coefficients: half_space.sixteen(),
                constant: half_space.constant(),
            },
            Err(refusal) => Space {
                refusal: Refused::from(refusal),
                coefficients: [0; Place::MOST],
                constant: 0,
            },
        }
    }
}

impl From<Result<Form, Refusal>> for Space {
    ghost use Rattle.std.specs.Prelude.{◌≡◌};
    ghost use Rattle.numbers.specs.Numbers.{form_is};

    ghost from_gives = { λ answer told. told ≡ form_is answer };

    fn from(answer: Result<Form, Refusal>) -> Space {
        match answer {
            Ok(form) => {
                let coefficients = form.coefficients;
                Space {
                    refusal: Refused::NOTHING,
                    coefficients,
                    constant: form.constant,
                }
            }
            Err(refusal) => Space {
                refusal: Refused::from(refusal),
                coefficients: [0; Place::MOST],
                constant: 0,
            },
        }
    }
}

impl From<Result<Range<usize>, Refusal>> for Record {
    ghost use Rattle.std.specs.Prelude.{◌≡◌};
    ghost use Rattle.numbers.specs.Numbers.{range_is};

    ghost from_gives = { λ answer told. told ≡ range_is answer };

    fn from(answer: Result<Range<usize>, Refusal>) -> Record {
        match answer {
            Ok(range) => Record {
                refusal: Refused::NOTHING,
                offset: range.start,
                length: range.len(),
            },
            Err(refusal) => Record {
                refusal: Refused::from(refusal),
                offset: 0,
                length: 0,
            },
        }
    }
}

impl From<Result<Answer, Refusal>> for Paired {
    ghost use Rattle.std.specs.Prelude.{◌≡◌};
    ghost use Rattle.numbers.specs.Numbers.{pair_is};

    ghost from_gives = { λ answer told. told ≡ pair_is answer };

    fn from(answer: Result<Answer, Refusal>) -> Paired {
        match answer {
            Ok(Answer::Kept) => Paired {
                refusal: Refused::NOTHING,
                answer: 1,
                marking: [0; Place::MOST],
            },
            Ok(Answer::Broken(marking)) => Paired {
                refusal: Refused::NOTHING,
                answer: 2,
                marking,
            },
            Err(refusal) => Paired {
                refusal: Refused::from(refusal),
                answer: 0,
                marking: [0; Place::MOST],
            },
        }
    }
}

pub fn verdict_number(verdict: Judged) -> u8
    ensures { result ≡ verdict_number verdict }
{
    match verdict {
        Judged::StartOutside => 1,
        Judged::TargetInside => 2,
        Judged::Broken(..) => 3,
        Judged::Proof => 4,
    }
}

pub fn verdict_transition(verdict: Judged) -> usize
    ensures { result ≡ verdict_transition verdict }
{
    match verdict {
        Judged::Broken(transition, _) => transition.0,
        Judged::StartOutside | Judged::TargetInside | Judged::Proof => 0,
    }
}

impl From<Result<Judged, Refusal>> for Verdict {
    ghost use Rattle.std.specs.Prelude.{◌≡◌};
    ghost use Rattle.numbers.specs.Numbers.{verdict_is};

    ghost from_gives = { λ answer told. told ≡ verdict_is answer };

    fn from(answer: Result<Judged, Refusal>) -> Verdict {
        match answer {
            Ok(verdict) => Verdict {
                refusal: Refused::NOTHING,
                answer: verdict_number(verdict),
                transition: verdict_transition(verdict),
                marking: verdict.marking(),
            },
            Err(refusal) => Verdict {
                refusal: Refused::from(refusal),
                answer: 0,
                transition: 0,
                marking: [0; Place::MOST],
            },
        }
    }
}

impl From<Result<Option<Claim>, Refusal>> for Twinned {
    ghost use Rattle.std.specs.Prelude.{◌≡◌};
    ghost use Rattle.numbers.specs.Numbers.{twin_is};

    ghost from_gives = { λ answer told. told ≡ twin_is answer };

    fn from(answer: Result<Option<Claim>, Refusal>) -> Twinned {
        match answer {
            Ok(Some(claim)) => Twinned {
                refusal: Refused::NOTHING,
                claim: claim.0,
            },
            Ok(None) => Twinned {
                refusal: Refused::NOTHING,
                claim: 0,
            },
            Err(refusal) => Twinned {
                refusal: Refused::from(refusal),
                claim: 0,
            },
        }
    }
}

impl From<Result<(), Halt>> for Fired {
    ghost use Rattle.std.specs.Prelude.{◌≡◌};
    ghost use Rattle.numbers.specs.Numbers.{halt_is};

    ghost from_gives = { λ answer told. told ≡ halt_is answer };

    fn from(answer: Result<(), Halt>) -> Fired {
        match answer {
            Ok(()) => Fired {
                refusal: Refused::NOTHING,
                position: 0,
            },
            Err(halt) => Fired {
                refusal: Refused::from(halt.refusal),
                position: halt.position,
            },
        }
    }
}

impl From<Result<usize, Refusal>> for Written {
    ghost use Rattle.std.specs.Prelude.{◌≡◌};
    ghost use Rattle.numbers.specs.Numbers.{length_is};

    ghost from_gives = { λ answer told. told ≡ length_is answer };

    fn from(answer: Result<usize, Refusal>) -> Written {
        match answer {
            Ok(length) => Written {
                number: 0,
                value: length,
            },
            Err(refusal) => {
                let refused = Refused::from(refusal);
                Written {
                    number: refused.number,
                    value: refused.detail,
                }
            }
        }
    }
}
