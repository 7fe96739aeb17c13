//! Random steps, chosen evenly from all.

use crate::asks::{Ask, Batch, End, Findings, Step};
use crate::words::Word;
use table::{Access, Need};

/// Numbers and handles are drawn from 0 to 8.
const NUMBERS: u64 = 9;

/// The letter of the name that may be long.
pub const LONG: char = 'c';

/// Random numbers, the same ones in each run.
#[derive(Clone, Copy, Drop)]
pub struct Draws {
    pub x: u64,
    /// How many bytes the name `c` has. The other names have one.
    pub longest: usize,
}

impl Draws {
    fn next(&mut self) -> u64 {
        self.x = self
            .x
            .wrapping_mul(6_364_136_223_846_793_005)
            .wrapping_add(1_442_695_040_888_963_407);
        self.x >> 32
    }

    /// A number below `n`, or 0 if `n` is 0.
    pub fn among(&mut self, n: u64) -> u64 {
        let draw = self.next();
        if n == 0 { 0 } else { draw % n }
    }

    pub fn place(&mut self, len: usize) -> usize {
        self.among(len as u64) as usize
    }

    /// True that many times out of that many.
    pub fn chance(&mut self, times: u64, of: u64) -> bool {
        self.among(of) < times
    }

    /// A number from 0 to 8, of a node or of an open file.
    pub fn any_number(&mut self) -> u64 {
        self.among(NUMBERS)
    }

    pub fn word(&mut self) -> Word {
        match self.among(3) {
            0 => Word::of('a'),
            1 => Word::of('b'),
            _ => Word::Plain {
                letter: LONG,
                bytes: self.longest,
            },
        }
    }

    /// Up to three names.
    pub fn batch(&mut self) -> Batch {
        Batch {
            first: self.word(),
            second: self.word(),
            third: self.word(),
            count: self.place(4),
        }
    }

    pub fn findings(&mut self) -> Findings {
        Findings {
            first: self.chance(1, 2),
            second: self.chance(1, 2),
            third: self.chance(1, 2),
            fourth: self.chance(1, 2),
            count: self.place(5),
        }
    }

    pub fn access(&mut self) -> Access {
        match self.among(3) {
            0 => Access::Reading,
            1 => Access::Writing,
            _ => Access::Both,
        }
    }

    pub fn need(&mut self) -> Need {
        match self.among(3) {
            0 => Need::Reading,
            1 => Need::Writing,
            _ => Need::Any,
        }
    }

    /// The use of a handle, or none.
    fn any_handle(&mut self) -> Option<(u64, Need)> {
        if self.chance(1, 2) {
            Some((self.any_number(), self.need()))
        } else {
            None
        }
    }

    /// Any want.
    pub fn any_ask(&mut self) -> Ask {
        match self.among(11) {
            0 => Ask::Node(self.any_number(), self.any_handle()),
            1 => Ask::Name(self.any_number(), self.word()),
            2 => Ask::Page(self.any_number(), self.batch()),
            3 => Ask::Remove(self.any_number(), self.word(), self.chance(1, 2)),
            4 => Ask::Move(
                self.any_number(),
                self.word(),
                self.any_number(),
                self.word(),
            ),
            5 => Ask::Open(self.any_number(), self.access()),
            6 => Ask::Create(self.any_number(), self.word(), self.access()),
            7 => Ask::Keep(
                self.any_number(),
                self.word(),
                self.any_number(),
                self.word(),
            ),
            8 => Ask::Exchange(
                self.any_number(),
                self.word(),
                self.any_number(),
                self.word(),
            ),
            9 => Ask::Link(self.any_number(), self.any_number(), self.word()),
            _ => Ask::Release(self.any_number(), self.any_number()),
        }
    }

    /// The index of a candidate, or, one time in six, one without a candidate.
    pub fn index(&mut self) -> u8 {
        u8::try_from(self.among(12)).unwrap_or(0)
    }

    /// Any outcome, whether it fits or not.
    pub fn any_end(&mut self) -> End {
        match self.among(6) {
            0 => End::Failed,
            1 => End::Done,
            2 => End::Entry,
            3 => End::Entries(self.findings()),
            4 => End::Hidden(self.index()),
            _ => End::HiddenMove(self.index(), self.chance(1, 2)),
        }
    }

    /// Any step, when that many tickets and answers are pending.
    pub fn any_step(&mut self, tickets: usize, answers: usize) -> Step {
        match self.among(4) {
            0 => Step::Begin(self.any_ask()),
            1 => Step::Finish(self.place(tickets), self.any_end()),
            2 => Step::Settle(self.place(answers), self.chance(1, 2)),
            _ => Step::Forget(self.any_number(), self.any_number()),
        }
    }
}
