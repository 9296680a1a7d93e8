// Why a case ends before it is said what came of it. Assumes nothing.
use std::alloc::AllocError;
use std::io;

// What ends a case: that it is none, or that memory or standard output fails.
#[derive(Debug, Drop)]
pub enum Fault {
    NotUnderstood,
    Io(io::Error),
}

impl From<io::Error> for Fault {
    fn from(error: io::Error) -> Fault {
        Fault::Io(error)
    }
}

impl From<AllocError> for Fault {
    fn from(error: AllocError) -> Fault {
        Fault::Io(io::Error::from(error))
    }
}
