ghost use Rattle.std.specs.Prelude.{◌≡◌, ◌↔◌, IsTrue, ◌^◌, ◌<◌, ◌≤◌, [], List, None, length, option_map, IfSome};
ghost use Rattle.extent_lock.specs.declared.lock.Lock.{Lock};
ghost use Rattle.flr_base.specs.declared.reply.Progress.TheVariants as progress;
ghost use Rattle.flr_base.specs.declared.reply.Reply.TheVariants as reply;
ghost use Rattle.layout_lease.specs.Clients.{IsClient};
ghost use Rattle.meta_server.specs.Conditions.{MayShare};
ghost use Rattle.meta_server.specs.Files.{MetaView, file_at, file_named};
ghost use Rattle.object_target.specs.TargetState.{TargetState};
ghost use Rattle.call_steps.specs.Servers.{servers, AreThere, CanCall};
ghost use Rattle.call_steps.specs.Steps.{HasMemory, Steps};
ghost use Rattle.mirror_verify.specs.Blocks.{blocks_in, next_object};
ghost use Rattle.mirror_verify.specs.Fitting.{FitsAt, HasCopies, IsSmall, IsSoundAt, IsSoundVerify, TakesNoMemory, VerifyFits};
ghost use Rattle.mirror_verify.specs.Verifies.{compared, new_verify, takes_from, verify_at, verify_by, verify_step};
ghost use Rattle.mirror_verify.specs.declared.phase.VerifyAt.TheVariants as at;

use crate::blocks::copies_of;
use crate::copies::BlockCopy;
use crate::found::{Found, next_object};
use crate::phase::{Asked, VerifyAt, Verifying};
use call_steps::{are_there, can_call};
use flr_base::{Diffs, FailedCall, Name, Progress, Reply, Takes};
use meta_server::{Meta, MetaStop, Opened};
use object_target::{TargetError, Targets};
use std::alloc::Global;
use std::marker::Model;

/// The greatest size of a file, in bytes.
const MOST_BYTES: u64 = 268435456;

/// A verify of a file, one step at a time: open, a take for each copy of a block that isn't a hole,
/// close. A block of 65536 bytes, cut at the file's size, is compared where at least two fresh
/// components that aren't `offline` have it: the copy of each later one with that of the first.
#[derive(Drop)]
pub struct VerifyCall {
    asked: Asked,
    at: VerifyAt,
}

impl Model for VerifyCall {
    ghost use Rattle.mirror_verify.specs.Views.{VerifyView};
    ghost use Rattle.mirror_verify.specs.Verifies.{verify_by};
    ghost use Rattle.mirror_verify.specs.Fitting.{IsSoundVerify};

    ghost Value = { VerifyView };

    ghost view = { λ a. verify_by a.asked a.at };

    ghost invariant = { λ a. IsSoundVerify (verify_by a.asked a.at) };
}

impl VerifyCall {
    /// A verify of the file of this name, before its first step.
    pub fn new(alloc: Global, client: u8, name: Name) -> VerifyCall
        requires client { IsClient client }
        ensures new { result ≡ new_verify client name }
    {
        VerifyCall {
            asked: Asked {
                alloc,
                client,
                name,
            },
            at: VerifyAt::Open,
        }
    }

    /// Whether the next step may be made.
    pub fn may_step(&self, meta: &Meta, targets: &Targets) -> bool
        ensures says { IsTrue result ↔ VerifyFits self.now meta.now targets.now }
    {
        can_call(targets) && self.asked.fits(&self.at, meta, targets)
    }

    /// Makes the next step. One for which memory runs out hands the call back, and leaves everything
    /// as it was; none is blocked. An open of a file that isn't there, and close, take no memory.
    pub fn step(self, meta: &mut Meta, targets: &mut Targets, _step: u32) -> Progress<VerifyCall>
        requires fits { VerifyFits self meta.old targets.old }
        ensures step { (locks : List Lock) → Steps self (servers meta.old targets.old locks) result (servers meta.new targets.new locks) (verify_step self _step (servers meta.old targets.old locks)) }
        ensures free { TakesNoMemory self meta.old → HasMemory result }
    {
        let VerifyCall { asked, at } = self;
        match at {
            VerifyAt::Open => asked.open(meta),
            VerifyAt::Take { verifying, next } => asked.take(verifying, next, targets),
            VerifyAt::Close { verifying, fault } => asked.close(verifying, fault, meta),
        }
    }
}

impl Asked {
    /// Whether the file may be opened.
    fn may_open(&self, meta: &Meta) -> bool
        ensures { IsTrue result ↔ (MayShare self.now.client self.now.name meta.now × IsSmall self.now.name meta.now) }
    {
        meta.may_share(self.client, &self.name) && is_small(meta, &self.name)
    }

    /// Whether the servers are as a step wants them that does this.
    fn fits(&self, at: &VerifyAt, meta: &Meta, targets: &Targets) -> bool
        ensures { IsTrue result ↔ FitsAt at.now (verify_by self.now at.now) meta.now targets.now }
    {
        match at {
            VerifyAt::Open => self.may_open(meta),
            VerifyAt::Take { verifying, next: _ } => are_there(targets, &verifying.opened.layout),
            VerifyAt::Close { .. } => true,
        }
    }

    /// The call, with this to do next.
    fn call(self, at: VerifyAt) -> VerifyCall
        requires sound { IsSoundVerify (verify_by self at) }
        ensures same { result ≡ verify_by self at }
    {
        VerifyCall { asked: self, at }
    }

    /// Opens the file, if it is there.
    fn open(self, meta: &mut Meta) -> Progress<VerifyCall>
        requires sound { IsSoundVerify (verify_by self at.Open) }
        requires share { MayShare self.client self.name meta.old }
        requires small { IsSmall self.name meta.old }
        ensures step { (targets : List TargetState) (locks : List Lock) → Steps (verify_by self at.Open) (servers meta.old targets locks) result (servers meta.new targets locks) (verify_at at.Open (verify_by self at.Open) (servers meta.old targets locks)) }
        ensures free { file_named self.name meta.old.files ≡ None → HasMemory result }
    {
        let Some(place) = place_named(meta, &self.name) else {
            return self.no_file();
        };
        let (_, size, layout) = meta.file_at(place);
        let _valid = layout.components();
        let Ok(copies) = copies_of(self.alloc, layout, size) else {
            return Progress::NoMemory(self.call(VerifyAt::Open));
        };
        match meta.open_read(self.client, &self.name) {
            Ok(opened) => {
                let found = Found::new(self.alloc);
                let verifying = Verifying {
                    opened,
                    copies,
                    found,
                };
                Progress::Going(self.call(takes_from(verifying, 0)))
            }
            Err(MetaStop::NoMemory) => Progress::NoMemory(self.call(VerifyAt::Open)),
            Err(MetaStop::Refused(_)) => unreachable!(),
            Err(MetaStop::Blocked { .. }) => unreachable!(),
        }
    }

    /// The file isn't there.
    fn no_file(self) -> Progress<VerifyCall>
        ensures { result ≡ progress.Answered (reply.NoFile self.name) [] }
    {
        let Asked {
            alloc,
            client: _,
            name,
        } = self;
        Progress::Answered {
            reply: Reply::NoFile(name),
            takes: Takes::new(alloc),
        }
    }

    /// Reads a copy.
    fn take(self, verifying: Verifying, next: usize, targets: &mut Targets) -> Progress<VerifyCall>
        requires sound { IsSoundVerify (verify_by self (at.Take verifying next)) }
        requires calls { CanCall targets.old }
        requires there { AreThere targets.old verifying.opened.layout.components }
        ensures step { (meta : MetaView) (locks : List Lock) → Steps (verify_by self (at.Take verifying next)) (servers meta targets.old locks) result (servers meta targets.new locks) (verify_at (at.Take verifying next) (verify_by self (at.Take verifying next)) (servers meta targets.old locks)) }
    {
        let Verifying {
            opened,
            copies,
            mut found,
        } = verifying;
        let copy = copies.as_slice()[next];
        let Some(object) = copy.piece.object else {
            unreachable!()
        };
        let target = targets.at_mut(object.target);
        match found.take_copy(copies.as_slice(), next, object, target) {
            Ok(()) => {
                let verifying = Verifying {
                    opened,
                    copies,
                    found,
                };
                Progress::Going(self.call(takes_from(verifying, next + 1)))
            }
            Err(TargetError::Failed { call }) => {
                let verifying = Verifying {
                    opened,
                    copies,
                    found,
                };
                let fault = Some(FailedCall {
                    target: object.target,
                    call,
                });
                Progress::Going(self.call(VerifyAt::Close { verifying, fault }))
            }
            Err(TargetError::NoMemory) => {
                let verifying = Verifying {
                    opened,
                    copies,
                    found,
                };
                Progress::NoMemory(self.call(VerifyAt::Take { verifying, next }))
            }
            Err(TargetError::Old { .. }) => unreachable!(),
        }
    }

    /// Answers, unless the cookie was lost.
    fn close(
        self,
        verifying: Verifying,
        fault: Option<FailedCall>,
        meta: &mut Meta,
    ) -> Progress<VerifyCall>
        requires sound { IsSoundVerify (verify_by self (at.Close verifying fault)) }
        ensures step { (targets : List TargetState) (locks : List Lock) → Steps (verify_by self (at.Close verifying fault)) (servers meta.old targets locks) result (servers meta.new targets locks) (verify_at (at.Close verifying fault) (verify_by self (at.Close verifying fault)) (servers meta.old targets locks)) }
        ensures free { HasMemory result }
    {
        let Verifying {
            opened,
            copies,
            found,
        } = verifying;
        let Opened {
            file,
            cookie,
            layout: _,
            size: _,
        } = opened;
        if !meta.holds(file, &cookie) {
            return Progress::Going(self.call(VerifyAt::Open));
        }
        meta.free(file, cookie);
        let reply = match fault {
            Some(call) => Reply::VerifyFault(call),
            None => compared(copies.as_slice(), found),
        };
        Progress::Answered {
            reply,
            takes: Takes::new(self.alloc),
        }
    }
}

/// Whether the file of this name, if it is there, isn't too big.
fn is_small(meta: &Meta, name: &Name) -> bool
    ensures { IsTrue result ↔ IsSmall name.now meta.now }
{
    match place_named(meta, name) {
        Some(place) => meta.file_at(place).1 <= MOST_BYTES,
        None => true,
    }
}

/// The place of the file of this name.
fn place_named(meta: &Meta, name: &Name) -> Option<usize>
    ensures found { option_map (file_at meta.now.files) result ≡ file_named name.now meta.now.files }
    ensures within { IfSome result (λ place. place < length meta.now.files) }
{
    for place in 0..meta.files() {
        let (other, _, _) = meta.file_at(place);
        if name == other {
            return Some(place);
        }
    }
    None
}

/// What comes next with the copies up to this one compared.
fn takes_from(verifying: Verifying, place: usize) -> VerifyAt
    requires there { place ≤ length verifying.copies }
    ensures next { result ≡ takes_from verifying (next_object verifying.copies place) }
    ensures sound { HasCopies verifying → IsSoundAt result }
{
    let next = next_object(verifying.copies.as_slice(), place);
    if next < verifying.copies.len() {
        VerifyAt::Take { verifying, next }
    } else {
        VerifyAt::Close {
            verifying,
            fault: None,
        }
    }
}

/// What a verify answers that compared these copies.
fn compared(copies: &[BlockCopy], found: Found) -> Reply
    requires few { blocks_in copies.now < 2 ^ 32 }
    ensures { result ≡ compared copies.now found.diffs }
{
    let diffs = found.into_diffs();
    if diffs.is_empty() {
        Reply::Same(blocks_in(copies))
    } else {
        Reply::Differ(Diffs::from_vec(diffs))
    }
}

/// How many blocks are compared.
fn blocks_in(copies: &[BlockCopy]) -> u32
    requires few { blocks_in copies.now < 2 ^ 32 }
    ensures { result ≡ blocks_in copies.now }
{
    copies.iter().filter(|copy| copy.against.is_none()).count() as u32
}
