//! Scenes, and what is done in them.
use crate::due::Due;
use crate::numbers::Numbers;
use crate::puts::Puts;
use crate::ways::Way;

/// A message, and the answer that is due.
#[derive(Drop)]
pub struct Example {
    pub line: usize,
    pub sent: Vec<u8>,
    pub due: Due,
    /// Whose entries it puts, where that is told.
    pub puts: Option<Puts>,
}

#[derive(Clone, Copy)]
pub enum Kind {
    Access,
    Lists,
}

/// What is done in a scene.
#[derive(Drop)]
pub enum Step {
    Ask(Example),
    Report {
        line: usize,
        kind: Kind,
        due: Vec<u8>,
    },
    /// Files are closed and opened again.
    Reopen,
    /// The room's next object number is set by hand.
    Next(u32),
}

impl Step {
    /// Whether something is due.
    pub fn is_example(&self) -> bool {
        matches!(self, Step::Ask(_) | Step::Report { .. })
    }
}

/// A scene of a file.
#[derive(Drop)]
pub struct Scene {
    pub line: usize,
    pub name: String,
    /// The places in the file of the scenes that are played first, in their order.
    pub before: Vec<usize>,
    /// The ways in which it is not played.
    pub left_out: Vec<Way>,
    /// The numbers that were last sent, in the scenes before it too.
    pub numbers: Numbers,
    pub steps: Vec<Step>,
}

impl Scene {
    /// How many answers and reports are due.
    pub fn count(&self) -> usize {
        self.steps.iter().filter(|step| step.is_example()).count()
    }
}
