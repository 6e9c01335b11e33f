// What an exported call returns: the three numbers of a refusal, all 0 where there is none, and the values, 0 on a refusal.
// A struct of numbers, since C has no enum that holds values.
ghost use Rattle.std.specs.Prelude.{◌≡◌};
ghost use Rattle.answers.specs.Told.{outcome_of};
ghost use Rattle.replies.specs.Exported.{checked_code, flag_code, number_code, value_code, signed_code, written_reply, answered_reply, part_reply, histogram_code};

use answers::answer::Report;
use answers::refusal::Refusal;
use meaning::{HISTOGRAM_COUNTS, Row};

#[repr(C)]
#[derive(Clone, Copy)]
pub struct ZvChecked {
    pub number: u32,
    pub bitmap: u32,
    pub word: u64,
}

// `value` is 1 for a set row and 0 for another; `first` and `last` are the first and last row of its piece.
#[repr(C)]
#[derive(Clone, Copy)]
pub struct ZvFlag {
    pub number: u32,
    pub bitmap: u32,
    pub word: u64,
    pub value: u32,
    pub first: u32,
    pub last: u32,
}

#[repr(C)]
#[derive(Clone, Copy)]
pub struct ZvNumber {
    pub number: u32,
    pub bitmap: u32,
    pub word: u64,
    pub value: u32,
}

#[repr(C)]
#[derive(Clone, Copy)]
pub struct ZvValue {
    pub number: u32,
    pub bitmap: u32,
    pub word: u64,
    pub value: u64,
}

#[repr(C)]
#[derive(Clone, Copy)]
pub struct ZvSignedValue {
    pub number: u32,
    pub bitmap: u32,
    pub word: u64,
    pub value: i64,
}

#[repr(C)]
#[derive(Clone, Copy)]
pub struct ZvWritten {
    pub number: u32,
    pub bitmap: u32,
    pub word: u64,
    pub words: u64,
}

#[repr(C)]
#[derive(Clone, Copy)]
pub struct ZvAnswered {
    pub number: u32,
    pub bitmap: u32,
    pub word: u64,
    pub words: u64,
    pub stretches: u32,
}

// The part of an index that begins at word `start` and has `length` words.
#[derive(Clone, Copy)]
pub struct Place {
    pub start: usize,
    pub length: usize,
}

#[repr(C)]
#[derive(Clone, Copy)]
pub struct ZvPart {
    pub number: u32,
    pub bitmap: u32,
    pub word: u64,
    pub start: u64,
    pub length: u64,
}

// `counts` has for each c from 0 to the most that a list can name how many rows exactly c of the list have; all 0 on a refusal.
#[repr(C)]
#[derive(Clone, Copy)]
pub struct ZvHistogram {
    pub number: u32,
    pub bitmap: u32,
    pub word: u64,
    pub counts: [u32; HISTOGRAM_COUNTS],
}

#[tactic(auto, unfolding(answers::specs::Told::outcome_of, crate::specs::Exported::number_in, crate::specs::Exported::bitmap_in, crate::specs::Exported::word_in))]
impl From<Result<(), Refusal>> for ZvChecked {
    ghost from_gives = { λ told code. code ≡ checked_code (outcome_of told) };

    fn from(told: Result<(), Refusal>) -> ZvChecked {
        match told {
            Err(refusal) => ZvChecked {
                number: refusal.number(),
                bitmap: refusal.bitmap,
                word: refusal.word,
            },
            Ok(()) => ZvChecked {
                number: 0,
                bitmap: 0,
                word: 0,
            },
        }
    }
}

#[tactic(auto, unfolding(answers::specs::Told::outcome_of, crate::specs::Exported::number_in, crate::specs::Exported::bitmap_in, crate::specs::Exported::word_in, crate::specs::Exported::flag_in, crate::specs::Exported::first_in, crate::specs::Exported::last_in))]
impl From<Result<Row, Refusal>> for ZvFlag {
    ghost from_gives = { λ told code. code ≡ flag_code (outcome_of told) };

    fn from(told: Result<Row, Refusal>) -> ZvFlag {
        match told {
            Err(refusal) => ZvFlag {
                number: refusal.number(),
                bitmap: refusal.bitmap,
                word: refusal.word,
                value: 0,
                first: 0,
                last: 0,
            },
            Ok(row) => ZvFlag {
                number: 0,
                bitmap: 0,
                word: 0,
                value: row.set as u32,
                first: row.first,
                last: row.last,
            },
        }
    }
}

#[tactic(auto, unfolding(answers::specs::Told::outcome_of, crate::specs::Exported::number_in, crate::specs::Exported::bitmap_in, crate::specs::Exported::word_in, crate::specs::Exported::value_in))]
impl From<Result<u32, Refusal>> for ZvNumber {
    ghost from_gives = { λ told code. code ≡ number_code (outcome_of told) };

    fn from(told: Result<u32, Refusal>) -> ZvNumber {
        match told {
            Err(refusal) => ZvNumber {
                number: refusal.number(),
                bitmap: refusal.bitmap,
                word: refusal.word,
                value: 0,
            },
            Ok(value) => ZvNumber {
                number: 0,
                bitmap: 0,
                word: 0,
                value,
            },
        }
    }
}

#[tactic(auto, unfolding(answers::specs::Told::outcome_of, crate::specs::Exported::number_in, crate::specs::Exported::bitmap_in, crate::specs::Exported::word_in, crate::specs::Exported::value_in))]
impl From<Result<u64, Refusal>> for ZvValue {
    ghost from_gives = { λ told code. code ≡ value_code (outcome_of told) };

    fn from(told: Result<u64, Refusal>) -> ZvValue {
        match told {
            Err(refusal) => ZvValue {
                number: refusal.number(),
                bitmap: refusal.bitmap,
                word: refusal.word,
                value: 0,
            },
            Ok(n) => ZvValue {
                number: 0,
                bitmap: 0,
                word: 0,
                value: n,
            },
        }
    }
}

#[tactic(auto, unfolding(answers::specs::Told::outcome_of, crate::specs::Exported::number_in, crate::specs::Exported::bitmap_in, crate::specs::Exported::word_in, crate::specs::Exported::signed_in))]
impl From<Result<i64, Refusal>> for ZvSignedValue {
    ghost from_gives = { λ told code. code ≡ signed_code (outcome_of told) };

    fn from(told: Result<i64, Refusal>) -> ZvSignedValue {
        match told {
            Err(refusal) => ZvSignedValue {
                number: refusal.number(),
                bitmap: refusal.bitmap,
                word: refusal.word,
                value: 0,
            },
            Ok(z) => ZvSignedValue {
                number: 0,
                bitmap: 0,
                word: 0,
                value: z,
            },
        }
    }
}

#[tactic(auto, unfolding(crate::specs::Exported::written_reply))]
impl From<Result<usize, Refusal>> for ZvWritten {
    ghost from_gives = { λ told code. code ≡ written_reply told };

    fn from(told: Result<usize, Refusal>) -> ZvWritten {
        match told {
            Err(refusal) => ZvWritten {
                number: refusal.number(),
                bitmap: refusal.bitmap,
                word: refusal.word,
                words: 0,
            },
            Ok(words) => ZvWritten {
                number: 0,
                bitmap: 0,
                word: 0,
                words: words as u64,
            },
        }
    }
}

#[tactic(auto, unfolding(crate::specs::Exported::answered_reply))]
impl From<Result<Report, Refusal>> for ZvAnswered {
    ghost from_gives = { λ told code. code ≡ answered_reply told };

    fn from(told: Result<Report, Refusal>) -> ZvAnswered {
        match told {
            Err(refusal) => ZvAnswered {
                number: refusal.number(),
                bitmap: refusal.bitmap,
                word: refusal.word,
                words: 0,
                stretches: 0,
            },
            Ok(report) => ZvAnswered {
                number: 0,
                bitmap: 0,
                word: 0,
                words: report.words as u64,
                stretches: report.stretches,
            },
        }
    }
}

#[tactic(auto, unfolding(answers::specs::Told::outcome_of, crate::specs::Exported::number_in, crate::specs::Exported::bitmap_in, crate::specs::Exported::word_in, meaning::specs::Answer::histogram_reported))]
impl From<Result<[u32; HISTOGRAM_COUNTS], Refusal>> for ZvHistogram {
    ghost from_gives = { λ told code. code ≡ histogram_code (outcome_of told) };

    fn from(told: Result<[u32; HISTOGRAM_COUNTS], Refusal>) -> ZvHistogram {
        match told {
            Err(refusal) => ZvHistogram {
                number: refusal.number(),
                bitmap: refusal.bitmap,
                word: refusal.word,
                counts: [0; HISTOGRAM_COUNTS],
            },
            Ok(counts) => ZvHistogram {
                number: 0,
                bitmap: 0,
                word: 0,
                counts,
            },
        }
    }
}

// Where a body lies in an index is told by two numbers: C has no slice to return.
#[tactic(auto, unfolding(crate::specs::Exported::part_reply))]
impl From<Result<Place, Refusal>> for ZvPart {
    ghost from_gives = { λ told code. code ≡ part_reply told };

    fn from(told: Result<Place, Refusal>) -> ZvPart {
        match told {
            Err(refusal) => ZvPart {
                number: refusal.number(),
                bitmap: refusal.bitmap,
                word: refusal.word,
                start: 0,
                length: 0,
            },
            Ok(place) => ZvPart {
                number: 0,
                bitmap: 0,
                word: 0,
                start: place.start as u64,
                length: place.length as u64,
            },
        }
    }
}
