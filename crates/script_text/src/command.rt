//! The commands of a script.

use rule_machine::Event;

/// The most turns that one line may ask for.
pub const MAX_TURNS: u32 = 1_000_000;

/// The arguments of `drive` and `scramble`.
#[derive(Clone, Copy, PartialEq, Eq)]
pub struct Turns {
    /// The seed of the generator.
    pub seed: u64,
    /// The most turns to take, 0 to 1,000,000.
    pub count: u32,
}

/// The command of one script line.
#[derive(Drop)]
pub enum Command {
    /// Carry out one event.
    Tell(Event),
    /// Take steps that a seeded daemon chooses.
    Drive(Turns),
    /// Make register faults that a seeded injector draws.
    Scramble(Turns),
    /// Make the state reached the base of all later entries. A checkpoint is no event and makes no entry.
    Checkpoint,
}
