//! The parts of all workers are joined into the first.

ghost use Rattle.std.specs.Prelude.{◌≡◌, ◌∷◌, [], All, OnOk};
ghost use Rattle.diagnosis.specs.Inside.Parts.{IsPartOf, IsBack, HasJoined};

use crate::parts::Part;
use commit_book::Book;
use commit_lock::{CommitLock, DrawWord};
use spec_workers::{WorkEnd, Worked};
use std::alloc::AllocError;

// Joins the part of one worker, unless memory ran out for it.
fn join_part(
    lock: &CommitLock<Book>,
    word: &DrawWord,
    first: &mut Part,
    worked: Worked,
) -> Result<(), AllocError>
    requires part { IsPartOf lock.now word.now first.old }
    requires other { IsBack lock.now word.now worked }
    ensures { OnOk result (HasJoined lock.now word.now (worked ∷ []) first.old first.new) }
{
    let Worked { seat, pass, end } = worked;
    lock.join(&mut first.seat, seat);
    word.join(&mut first.pass, pass);
    match end {
        WorkEnd::OutOfMemory => Err(AllocError),
        WorkEnd::Done | WorkEnd::Budget => Ok(()),
    }
}

/// Joins the parts of all workers, unless memory ran out for one of them.
pub fn join_parts(
    lock: &CommitLock<Book>,
    word: &DrawWord,
    first: &mut Part,
    all: Vec<Worked>,
) -> Result<(), AllocError>
    requires part { IsPartOf lock.now word.now first.old }
    requires others { All (IsBack lock.now word.now) all.items }
    ensures { OnOk result (HasJoined lock.now word.now all.items first.old first.new) }
{
    for worked in all {
        join_part(lock, word, first, worked)?;
    }
    Ok(())
}
