//! Checking one transcript line against the machine.

ghost use Rattle.std.specs.Prelude.{◌≡◌, ◌≤◌, ◌+◌, ◌*◌, IfOk, length};
ghost use Rattle.rule_machine.specs.Base.{base_of};
ghost use Rattle.rule_machine.specs.Network.{edge_count, node_count};
ghost use Rattle.rule_machine.specs.Tables.{table_of};
ghost use Rattle.auditor.specs.Position.{LineJudged, position_at, stand_of};

use crate::summary::spent_after;
use crate::{AuditFault, Summary};
use entry_grammar::{EntryFault, read_entry};
use reply_checker::Judge;
use rule_machine::{Base, RuleSet, Want};
use std::alloc::Global;
use std::marker::Model;

/// The progress of an audit.
#[derive(Drop)]
pub(crate) struct Audit {
    pub(crate) judge: Judge,
    spent: u64,
    number: u32,
    counted: Summary,
}

impl Model for Audit {
    ghost use Rattle.std.specs.Coded.{codes};
    ghost use Rattle.rule_machine.specs.State.{state_code};
    ghost use Rattle.auditor.specs.Position.{Position, AreAuditCounts};

    ghost Value = { Position };

    ghost coded = { Prim.hlevel (codes, state_code) };

    ghost view = { λ a. record { state = a.judge; spent = a.spent; number = a.number; counted = a.counted } };

    ghost invariant = { λ a. AreAuditCounts a.spent a.number a.counted };
}

impl Audit {
    pub(crate) fn new(judge: Judge, spent: u32, number: u32) -> Audit
        requires { number ≤ 16777216 }
        ensures { result ≡ position_at (record { moment = record { state = judge; spent = spent }; count = number }) }
    {
        Audit {
            judge,
            spent: u64::from(spent),
            number,
            counted: Summary {
                entries: 0,
                epochs: 1,
                moves: 0,
            },
        }
    }

    pub(crate) fn counted(&self) -> Summary
        ensures counted { result ≡ self.now.counted }
        ensures few { result.moves ≤ 1099494850560 }
        ensures entries { result.entries ≤ 16777216 }
    {
        self.counted
    }

    pub(crate) fn number(&self) -> u32
        ensures { result ≡ self.now.number }
    {
        self.number
    }

    pub(crate) fn spent(&self) -> u64
        ensures spent { result ≡ self.now.spent }
        ensures few { result ≤ self.now.counted.moves + 4294967295 }
    {
        self.spent
    }

    pub(crate) fn base(&self, alloc: Global) -> Result<Base, Want>
        requires bounded { self.now.spent ≤ 2 * edge_count self.now.state.network + 3 * node_count self.now.state.network }
        ensures base { IfOk result (λ base. base ≡ base_of self.now.number (stand_of self.now).moment) }
        ensures few { IfOk result (λ base. (length base.nodes ≤ 65535) × (length base.edges ≤ 1048576)) }
    {
        let base = self.judge.base(alloc, self.number, 0)?;
        // The cast is exact: the moves are within the bound, and a network has few nodes and edges.
        let spent = self.spent as u32;
        Ok(Base { spent, ..base })
    }

    /// Checks that line `line` is the next entry and that the machine may give its reply.
    pub(crate) fn check_line(
        &mut self,
        alloc: Global,
        rules: RuleSet,
        text: &[u8],
        line: u64,
    ) -> Result<(), AuditFault>
        ensures { LineJudged (table_of rules) text.now line self.old self.new result }
    {
        let (number, entry) = match read_entry(alloc, text) {
            Ok(found) => found,
            Err(EntryFault::NotALine) => return Err(AuditFault::NotALine { line }),
            Err(EntryFault::Memory) => return Err(AuditFault::Memory),
        };
        if number != self.number + 1 {
            return Err(AuditFault::OutOfOrder { line });
        }
        let judged = self
            .judge
            .replay(rules, self.spent, entry.event(), entry.reply());
        let Ok(right) = judged else {
            return Err(AuditFault::Memory);
        };
        if !right {
            return Err(AuditFault::NotTheMachines { line });
        }
        self.spent = spent_after(self.spent, entry.reply());
        self.number = number;
        self.counted = self.counted.with_reply(entry.reply());
        Ok(())
    }
}
