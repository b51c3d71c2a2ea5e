// The line that says why a job is not done.
ghost use Rattle.std.specs.Prelude.{◌≡◌, Some};
ghost use Rattle.ways.specs.Fault.{fault_line, job_refusal, layer_name};

use crate::fault::JobFault;
use std::fmt;
use survey::refusal::Refusal;

impl JobFault {
    // The refusal that the fault stands for, with the number that is printed. Want of memory is none: an `Option` says so more
    // plainly than the error of a `TryFrom`.
    pub fn refusal(&self) -> Option<Refusal>
        ensures { result ≡ job_refusal self.now }
    {
        match *self {
            JobFault::Short => Some(Refusal {
                number: 25,
                spot: 0,
            }),
            JobFault::Reader(fault) => Some(fault.into()),
            JobFault::Memory => None,
        }
    }

    // The layer that refuses.
    pub fn layer(&self) -> &'static str
        ensures { result.now ≡ layer_name self.now }
    {
        match *self {
            JobFault::Reader(_) => "reader",
            JobFault::Short | JobFault::Memory => "program",
        }
    }
}

impl fmt::Display for JobFault {
    ghost output = { λ f. Some (fault_line f) };

    fn fmt<W: fmt::Write>(&self, f: &mut fmt::Formatter<W>) -> fmt::Result {
        let Some(Refusal { number, spot }) = self.refusal() else {
            return write!(f, "out of memory");
        };
        let layer = self.layer();
        write!(f, "refused {layer} {number} {spot}")
    }
}
