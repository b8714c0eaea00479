ghost use Rattle.std.specs.Prelude.{◌≡◌};

use crate::fault::TrialFault;

// A trial that was opened on the sheet of this number, at this depth. Only `open` makes one, and only closing takes one apart. It can be
// neither copied nor dropped, so a program that lets a trial go, or closes one twice, does not build.
pub struct Trial {
    pub(crate) number: u16,
    pub(crate) depth: usize,
}

// A refused close: the trial, which is still to be closed, and why.
pub struct HandedBack {
    pub trial: Trial,
    pub fault: TrialFault,
}

impl Trial {
    // The number of the sheet that it was opened on.
    pub fn number(&self) -> u16
        ensures { result ≡ self.now.number }
    {
        self.number
    }

    // How many trials were open then, this one among them.
    pub fn depth(&self) -> usize
        ensures { result ≡ self.now.depth }
    {
        self.depth
    }
}
