//! What each step of a call pays.

ghost use Rattle.flr_work.specs.Laws.{CopiesPay, ReadsPay, TruncatesPay, VerifiesPay, WritesPay};

/// Each step of a read lowers the steps that it has left by one at least; a take that is listed to fail
/// costs all of them once more, and so does the loss of its cookie. It takes no other client's cookie away.
/// The read has no more pieces in hand than its range touches blocks.
pub fn reads_pay()
    ensures pay { ReadsPay }
{}

/// So does each step of a write, where a piece is too old only once the write's cookie is lost.
pub fn writes_pay()
    ensures pay { WritesPay }
{}

/// So does each step of a truncate, which has no more tails than there are stripes.
pub fn truncates_pay()
    ensures pay { TruncatesPay }
{}

/// So does each step of a verify, which has no more copies to take than are counted for it.
pub fn verifies_pay()
    ensures pay { VerifiesPay }
{}

/// So does each step of a resync or an extend: it fences and resets no more objects than there are stripes,
/// and takes and puts no more chunks than there is room for; a take that is listed to fail costs one more.
/// A broken lease costs nothing.
pub fn copies_pay()
    ensures pay { CopiesPay }
{}
