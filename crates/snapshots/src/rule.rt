//! The rule of the copies, and the steps that keep it.

ghost use Rattle.std.specs.Prelude.{List, None};
ghost use Rattle.rule_machine.specs.Run.{Entry};
ghost use Rattle.snapshots.specs.Row.{BoardShape};
ghost use Rattle.snapshots.specs.Rule.{Publishes, Sees};

use crate::register_copy::RegisterCopy;
use atomic_table::{Join, Split};
use crossbeam_utils::rule::{Outcome, Protocol};
use std::marker::PhantomData;

/// A law that every log published by a board keeps; for contracts only.
pub trait Law {
    ghost holds: { BoardShape → List Entry → Type 0 };
}

/// The rule of a board whose logs keep a law.
pub struct Published<L> {
    law: PhantomData<L>,
}

impl<L: Law> Protocol<RegisterCopy, Option<RegisterCopy>> for Published<L> {
    ghost holds = { Publishes L.holds };

    ghost first = { None };
}

/// The step of a read, and of a publication.
pub(crate) struct ReadStep<L> {
    law: PhantomData<L>,
}

impl<L: Law> Outcome<RegisterCopy, Option<RegisterCopy>> for ReadStep<L> {
    ghost then = { Sees L.holds };
}

/// A new reader's handle knows what the writer knows.
pub(crate) struct Tell;

impl Split<Option<RegisterCopy>> for Tell {
    ghost left = { λ v. v };

    ghost right = { λ v. v };
}

/// A handle that knew nothing then knows what it was given.
pub(crate) struct Learn;

impl Join<Option<RegisterCopy>> for Learn {
    ghost both = { λ v told. told };

    ghost spent = { None };
}
