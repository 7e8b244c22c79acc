//! What is wrong with a text.

ghost use Rattle.std.specs.Prelude.{◌≡◌};
ghost use Rattle.dn_case.specs.declared.cause.CaseError.TheVariants.{NoMemory as Short};
ghost use Rattle.dn_case.specs.declared.cause.LineError.TheVariants.{NoMemory as Memory};
ghost use Rattle.dn_case.specs.declared.cause.LiveError.TheVariants.{NoMemory as LiveMemory};

use std::alloc::AllocError;
use thiserror::Error;

/// What is wrong with a line. Where several causes hold for one line, the first of this order is told.
#[derive(Clone, Copy, Debug)]
pub enum Cause {
    /// The text ends where a line should begin.
    Ended,
    /// The line has no newline, or none of the shapes that may stand at its place.
    Syntax,
    /// The first line is `defined N` with another decimal than 1.
    Version,
    /// A number is outside its range.
    Range,
    /// A router's name isn't known.
    Name,
    /// A link has one router at both ends.
    Same,
    /// A router's name, or a prefix at one router, stood before.
    Twice,
    /// A prefix is at a flooding router.
    Kind,
    /// An address has bits past its length.
    Host,
    /// The 65th router, the 257th link, a 17th port, or a 33rd prefix of a router.
    Many,
    /// An external's group is below that of the one before.
    Order,
    /// The port isn't a port of that router.
    Port,
    /// A journal is missing, or has no reading. It never comes of a case's text.
    Journal,
}

/// The first bad line, counted from 1, and what is wrong with it.
#[derive(Clone, Copy, Debug)]
pub struct CaseFault {
    pub line: u64,
    pub cause: Cause,
}

/// Why a text gives no case.
#[derive(Debug, Drop, Error)]
pub enum CaseError {
    /// The text has a bad line.
    #[error("line {}: {:?}", .0.line, .0.cause)]
    Fault(CaseFault),
    /// There was no memory for the case.
    #[error("out of memory")]
    NoMemory,
}

impl From<AllocError> for CaseError {
    ghost from_gives = { λ _ e. e ≡ Short };

    fn from(_error: AllocError) -> CaseError {
        CaseError::NoMemory
    }
}

/// Why a live line gives no input.
#[derive(Debug, Drop, Error)]
pub enum LiveError {
    /// The line is bad.
    #[error("{0:?}")]
    Bad(Cause),
    /// There was no memory for the input.
    #[error("out of memory")]
    NoMemory,
}

impl From<AllocError> for LiveError {
    ghost from_gives = { λ _ e. e ≡ LiveMemory };

    fn from(_error: AllocError) -> LiveError {
        LiveError::NoMemory
    }
}

/// Why a line isn't taken.
#[derive(Drop)]
pub enum LineError {
    Bad(Cause),
    NoMemory,
}

impl From<AllocError> for LineError {
    ghost from_gives = { λ _ e. e ≡ Memory };

    fn from(_error: AllocError) -> LineError {
        LineError::NoMemory
    }
}
