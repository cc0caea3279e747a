//! Laws of all transcript lines.

ghost use Rattle.std.specs.Prelude.{◌≡◌, ◌≤◌, ◌++◌, ℕ, List, length};
ghost use Rattle.rule_machine.specs.declared.base.Base.{Base};
ghost use Rattle.rule_machine.specs.declared.event.Event.{Event};
ghost use Rattle.rule_machine.specs.declared.reply.Reply.{Reply};
ghost use Rattle.entry_grammar.specs.declared.base_line.BaseLine.{BaseLine};
ghost use Rattle.entry_grammar.specs.declared.header.Header.{Header};
ghost use Rattle.entry_grammar.specs.BaseLines.{IsShaped, BreaksAt, base_lines};
ghost use Rattle.entry_grammar.specs.Spelling.{SpellsBaseLine, SpellsEntry, SpellsHeader};

/// A line spells at most one entry, one header, and one line of a base.
pub fn one_spelling()
    ensures entry { (line : List ℕ) (m n : ℕ) (e f : Event × Reply)
        → SpellsEntry line m e → SpellsEntry line n f → (m ≡ n) × (e ≡ f) }
    ensures base { (line : List ℕ) (a b : BaseLine) → SpellsBaseLine line a → SpellsBaseLine line b → a ≡ b }
    ensures header { (line : List ℕ) (a b : Header) → SpellsHeader line a → SpellsHeader line b → a ≡ b }
{}

/// A text begins with the lines of at most one base.
/// A text has at most one first wrong line, and none if the text begins with a whole base.
pub fn one_base()
    ensures base { (bytes : List ℕ) (a b : Base) (x y : List ℕ)
        → IsShaped a → IsShaped b → bytes ≡ base_lines a ++ x → bytes ≡ base_lines b ++ y → (a ≡ b) × (x ≡ y) }
    ensures line { (bytes : List ℕ) (k l : ℕ) → BreaksAt bytes k → BreaksAt bytes l → k ≡ l }
    ensures whole { (bytes : List ℕ) (base : Base) (rest : List ℕ) (k : ℕ) → IsShaped base → bytes ≡ base_lines base ++ rest → BreaksAt bytes k → ⊥ }
{}

/// Every entry's line has at most 2,031,600 bytes: less than 2 MiB (2,097,152).
/// The longest lines are steps late in a full log, with 65,535 items that have wishes and as many moves that
/// have targets.
#[tactic(auto, using(crate::proofs::EntryLengths::entry_short))]
pub fn entry_lines_are_short()
    ensures { (line : List ℕ) (number : ℕ) (entry : Event × Reply) → SpellsEntry line number entry → length line ≤ 2031600 }
{}
