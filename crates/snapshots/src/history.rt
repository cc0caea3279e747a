//! The history of a board, which exists in contracts only, and seen prefixes of the history.

ghost use Rattle.std.specs.Prelude.{◌≡◌, ◌+◌, ◌<◌, ◌∷◌, ◌++◌, [], false, None, length, IsTrue, MatchBool};
ghost use mathlib.Core.List.{IsPrefix};
ghost use Rattle.snapshots.specs.declared.marks.Origin.TheVariants.{FirstNames, FromBase};
ghost use Rattle.snapshots.specs.declared.marks.Mark.TheVariants.{Beginning};
ghost use Rattle.snapshots.specs.Origins.{origin_of};
ghost use Rattle.snapshots.specs.History.{published, shown, head_of, max_marks, IsOneLog, AreOneLog, AreComparable};

use crate::marks::Mark;
use logbook::{Gain, Offer, Opening, Plain, Play, Rule, Seen, Start, Word};
use rule_machine::Base;

/// The rule of the history: one word counts the marks after the first.
pub struct Numbered;

impl Rule<Mark, u64> for Numbered {
    ghost use Rattle.std.specs.Prelude.{[]};
    ghost use base.Fml.{ftrue};
    ghost use Rattle.snapshots.specs.History.{AreHistoryCells};

    ghost holds = { λ cells marks. AreHistoryCells cells marks };

    ghost first = { [] };

    ghost hinted = { λ n marks. Unit {0} };

    ghost shows = { λ marks. [] };

    ghost keeps = { λ names marks. ftrue };

    ghost moves = { λ ask before after answer. Unit {0} };
}

pub(crate) struct Nothing;

impl Gain<Mark, u64> for Nothing {
    ghost use base.Fml.{ftrue};

    ghost after = { λ names about answer. ftrue };
}

pub(crate) struct Add;

impl Play<Mark, u64> for Add {
    ghost use Rattle.snapshots.specs.History.{AddsMark};

    ghost then = { AddsMark };
}

/// A prefix of a history that someone has seen, with the number of marks after the first.
#[derive(Drop)]
pub struct HistoryPrefix {
    count: u64,
    pub(crate) seen: Seen<Mark, u64, Numbered>,
    ghost counted: { length seen.log ≡ count + 1 },
}

impl HistoryPrefix {
    pub(crate) fn again(&self) -> HistoryPrefix
        ensures { result.seen ≡ self.now.seen }
    {
        HistoryPrefix {
            count: self.count,
            seen: self.seen.again(),
        }
    }

    pub(crate) fn longer(&self, other: &HistoryPrefix) -> HistoryPrefix
        requires { other.now.seen.book ≡ self.now.seen.book }
        ensures book { result.seen.book ≡ self.now.seen.book }
        ensures this { IsPrefix self.now.seen.log result.seen.log }
        ensures that { IsPrefix other.now.seen.log result.seen.log }
    {
        if self.begins(other) {
            other.again()
        } else {
            self.again()
        }
    }

    pub(crate) fn is_shown_at(&self, other: &HistoryPrefix) -> bool
        requires { other.now.seen.book ≡ self.now.seen.book }
        ensures { IsTrue result → IsPrefix (published self.now.seen.log) (shown other.now.seen.log) }
    {
        let mut both = self.seen.again();
        both.learn(&other.seen);
        self.count.saturating_sub(1) <= other.count
    }

    /// Compares the numbers of marks.
    pub(crate) fn begins(&self, other: &HistoryPrefix) -> bool
        requires { other.now.seen.book ≡ self.now.seen.book }
        ensures yes { IsTrue result → IsPrefix self.now.seen.log other.now.seen.log }
        ensures no { result ≡ false → IsPrefix other.now.seen.log self.now.seen.log }
    {
        let mut both = self.seen.again();
        both.learn(&other.seen);
        self.count <= other.count
    }

    /// Runs no code.
    pub(crate) fn meets(&self, other: &HistoryPrefix)
        requires { other.now.seen.book ≡ self.now.seen.book }
        ensures published { AreComparable (published self.now.seen.log) (published other.now.seen.log) }
        ensures shown { AreOneLog (shown self.now.seen.log) (shown other.now.seen.log) }
        ensures both { IsOneLog (published self.now.seen.log) (shown other.now.seen.log) }
        ensures origin { origin_of self.now.seen.log ≡ origin_of other.now.seen.log }
    {
        let mut both = self.seen.again();
        both.learn(&other.seen);
    }
}

/// The one place where marks are added, with all marks so far.
#[derive(Drop)]
pub(crate) struct History {
    head: Word<Mark, u64, Numbered>,
    pub(crate) front: HistoryPrefix,
    ghost head_is: { head ≡ head_of front.seen.book },
}

impl History {
    /// The history of a board that has only a beginning.
    pub(crate) fn open<X, M: Opening<X, Mark>>(about: &X) -> History
        requires { length (M.log 1 about.now) ≡ 1 }
        ensures { result.front.seen.log ≡ M.log 1 about.now }
    {
        let (seen, mut pens) = Seen::open_row::<X, M>(about, Start::alone(), 1);
        let mut pen = pens.take();
        History {
            head: Word::tracked(0, &mut pen),
            front: HistoryPrefix { count: 0, seen },
        }
    }

    pub(crate) fn has_room(&self) -> bool
        ensures { IsTrue result → length self.now.front.seen.log + 1 < max_marks }
    {
        self.front.count < u64::MAX - 1
    }

    /// False if someone else has added a mark meanwhile, which never happens.
    pub(crate) fn add<X, M: Plain<X, Mark, u64>>(&mut self, about: &X) -> bool
        requires state { M.state about.now ≡ None }
        requires room { length self.old.front.seen.log < max_marks }
        ensures book { self.new.front.seen.book ≡ self.old.front.seen.book }
        ensures marks { MatchBool result (self.new.front.seen.log ≡ self.old.front.seen.log ++ M.ask about.now ∷ []) (self.new.front.seen ≡ self.old.front.seen) }
    {
        let count = self.front.count;
        let mut seen = self.front.seen.again();
        let mut offer: Offer<Mark, u64, Numbered, Nothing> = seen.plain::<Nothing, X, M>(about);
        let mut pen = seen.no_pen();
        let found = self
            .head
            .compare_exchange::<Add, Nothing>(count, count + 1, &mut seen, &mut offer, &mut pen);
        if found != count {
            return false;
        }
        self.front = HistoryPrefix {
            count: count + 1,
            seen,
        };
        true
    }
}
