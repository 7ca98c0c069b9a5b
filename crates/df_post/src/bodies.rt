//! Which bodies of answers are of which kind.

ghost use Rattle.std.specs.Prelude.{◌≡◌};
ghost use Rattle.df_post.specs.Fits.{is_count, is_done, is_freeing, is_hop, is_of, is_part, is_placing, is_pulling, is_quick, is_read, is_run, is_stage, is_walk};

use crate::awaited::{Kind, PartKind};
use df_hops::{AnswerBody, Outcome};

/// Whether a message of this kind may be answered so.
pub(crate) fn is_of(kind: Kind, body: &AnswerBody) -> bool
    ensures { result ≡ is_of kind body.now }
{
    match kind {
        Kind::Place => is_placing(body),
        Kind::Quick => is_quick(body),
        Kind::Hop(part) => is_hop(part, body),
        Kind::Free => is_freeing(body),
        Kind::Pull => is_pulling(body),
    }
}

fn is_hop(part: PartKind, body: &AnswerBody) -> bool
    ensures { result ≡ is_hop part body.now }
{
    match body {
        AnswerBody::Did { outcome, .. } => is_part(part, outcome),
        AnswerBody::Taken => false,
        AnswerBody::Refused { .. } => false,
        AnswerBody::NoMemory => false,
        AnswerBody::Passed { .. } => false,
        AnswerBody::Ran { .. } => false,
        AnswerBody::Wanted { .. } => false,
        AnswerBody::Freed => false,
        AnswerBody::Pulled { .. } => false,
    }
}

fn is_part(part: PartKind, outcome: &Outcome) -> bool
    ensures { result ≡ is_part part outcome.now }
{
    match part {
        PartKind::Run => is_run(outcome),
        PartKind::Read => is_read(outcome),
        PartKind::Stage => is_stage(outcome),
        PartKind::Do => is_done(outcome),
        PartKind::Walk => is_walk(outcome),
        PartKind::Count => is_count(outcome),
    }
}

fn is_placing(body: &AnswerBody) -> bool
    ensures { result ≡ is_placing body.now }
{
    match body {
        AnswerBody::Taken => true,
        AnswerBody::Refused { .. } => true,
        AnswerBody::NoMemory => true,
        AnswerBody::Passed { .. } => false,
        AnswerBody::Ran { .. } => false,
        AnswerBody::Wanted { .. } => false,
        AnswerBody::Did { .. } => false,
        AnswerBody::Freed => false,
        AnswerBody::Pulled { .. } => false,
    }
}

fn is_quick(body: &AnswerBody) -> bool
    ensures { result ≡ is_quick body.now }
{
    match body {
        AnswerBody::Taken => false,
        AnswerBody::Refused { .. } => false,
        AnswerBody::NoMemory => false,
        AnswerBody::Passed { .. } => true,
        AnswerBody::Ran { .. } => true,
        AnswerBody::Wanted { .. } => true,
        AnswerBody::Did { .. } => false,
        AnswerBody::Freed => false,
        AnswerBody::Pulled { .. } => false,
    }
}

fn is_freeing(body: &AnswerBody) -> bool
    ensures { result ≡ is_freeing body.now }
{
    match body {
        AnswerBody::Taken => false,
        AnswerBody::Refused { .. } => false,
        AnswerBody::NoMemory => false,
        AnswerBody::Passed { .. } => false,
        AnswerBody::Ran { .. } => false,
        AnswerBody::Wanted { .. } => false,
        AnswerBody::Did { .. } => false,
        AnswerBody::Freed => true,
        AnswerBody::Pulled { .. } => false,
    }
}

fn is_pulling(body: &AnswerBody) -> bool
    ensures { result ≡ is_pulling body.now }
{
    match body {
        AnswerBody::Taken => false,
        AnswerBody::Refused { .. } => false,
        AnswerBody::NoMemory => true,
        AnswerBody::Passed { .. } => false,
        AnswerBody::Ran { .. } => false,
        AnswerBody::Wanted { .. } => false,
        AnswerBody::Did { .. } => false,
        AnswerBody::Freed => false,
        AnswerBody::Pulled { .. } => true,
    }
}

fn is_run(outcome: &Outcome) -> bool
    ensures { result ≡ is_run outcome.now }
{
    match outcome {
        Outcome::Ran(_) => true,
        Outcome::Values(_) => false,
        Outcome::Staged => false,
        Outcome::Applied => false,
        Outcome::Names(_) => false,
        Outcome::Number(_) => false,
        Outcome::NoMemory => true,
    }
}

fn is_read(outcome: &Outcome) -> bool
    ensures { result ≡ is_read outcome.now }
{
    match outcome {
        Outcome::Ran(_) => false,
        Outcome::Values(_) => true,
        Outcome::Staged => false,
        Outcome::Applied => false,
        Outcome::Names(_) => false,
        Outcome::Number(_) => false,
        Outcome::NoMemory => true,
    }
}

fn is_stage(outcome: &Outcome) -> bool
    ensures { result ≡ is_stage outcome.now }
{
    match outcome {
        Outcome::Ran(_) => false,
        Outcome::Values(_) => false,
        Outcome::Staged => true,
        Outcome::Applied => false,
        Outcome::Names(_) => false,
        Outcome::Number(_) => false,
        Outcome::NoMemory => true,
    }
}

fn is_done(outcome: &Outcome) -> bool
    ensures { result ≡ is_done outcome.now }
{
    match outcome {
        Outcome::Ran(_) => false,
        Outcome::Values(_) => false,
        Outcome::Staged => false,
        Outcome::Applied => true,
        Outcome::Names(_) => false,
        Outcome::Number(_) => false,
        Outcome::NoMemory => false,
    }
}

fn is_walk(outcome: &Outcome) -> bool
    ensures { result ≡ is_walk outcome.now }
{
    match outcome {
        Outcome::Ran(_) => false,
        Outcome::Values(_) => false,
        Outcome::Staged => false,
        Outcome::Applied => false,
        Outcome::Names(_) => true,
        Outcome::Number(_) => false,
        Outcome::NoMemory => true,
    }
}

fn is_count(outcome: &Outcome) -> bool
    ensures { result ≡ is_count outcome.now }
{
    match outcome {
        Outcome::Ran(_) => false,
        Outcome::Values(_) => false,
        Outcome::Staged => false,
        Outcome::Applied => false,
        Outcome::Names(_) => false,
        Outcome::Number(_) => true,
        Outcome::NoMemory => true,
    }
}
