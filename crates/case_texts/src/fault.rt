use sb_model::OutOfMemory;

/// Why a text of cases was not run to its end.
#[derive(Clone, Copy)]
pub enum CaseFault {
    /// The line with this number, counted from 0, is of no form that stands there.
    Line(usize),
    OutOfMemory,
}

/// The first fault of several calls, if there was one. After a fault they go on with what they have, and none of them gives
/// an error. Who needs what they made asks here first.
#[derive(Clone, Copy)]
pub struct FirstFault {
    first: Option<CaseFault>,
}

impl FirstFault {
    pub fn none() -> Self {
        FirstFault { first: None }
    }

    pub fn get(&self) -> Option<CaseFault> {
        self.first
    }

    /// Whether there was no fault.
    pub fn is_none(&self) -> bool {
        self.first.is_none()
    }

    /// Adds a fault, which counts if it is the first.
    pub fn add(&mut self, fault: CaseFault) {
        if self.first.is_none() {
            self.first = Some(fault);
        }
    }

    /// Adds that a line is of no form that stands there.
    pub fn line(&mut self, number: usize) {
        self.add(CaseFault::Line(number));
    }

    /// Adds that memory was refused.
    pub fn refused(&mut self) {
        self.add(CaseFault::OutOfMemory);
    }

    /// Adds that memory was refused, if a call says so.
    pub fn note(&mut self, done: Result<(), OutOfMemory>) {
        if done.is_err() {
            self.refused();
        }
    }

    /// Adds the fault of other calls.
    pub fn join(&mut self, other: &FirstFault) {
        if let Some(fault) = other.first {
            self.add(fault);
        }
    }
}
