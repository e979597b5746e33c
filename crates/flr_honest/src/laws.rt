//! What each step of a run without rot does to bytes, what it keeps, and so what the files hold after every run.

ghost use Rattle.flr_bytes.specs.Laws.{RunsHaveSent, StepsBring, StepsCount, StepsGiveNew, StepsKeepLanded, StepsKeepSent, StepsKeepSizes, StepsKeepStore, StepsLand, StepsWrite};
ghost use Rattle.flr_honest.specs.Closing.{BytesFollow, RunsReady, StartIsReadied, StepsReady};
ghost use Rattle.flr_honest.specs.Copied.{OwnCopyFollows};
ghost use Rattle.flr_honest.specs.Held.{HeldFollows};
ghost use Rattle.flr_honest.specs.Landed.{PassingPartsLand};
ghost use Rattle.flr_honest.specs.Lasting.{OthersCopyFollows, OthersMergeFollows, RunsFit, StartFits, StepsFit};
ghost use Rattle.flr_honest.specs.Laws.{RunsAreHonest, RunsHoldPlainFiles, StepsStayHonest};
ghost use Rattle.flr_honest.specs.Knowing.{ReadsFollow, RunsHavePieces, StartHasPieces, StepsKeepPieces, VerifiesFollow};
ghost use Rattle.flr_honest.specs.Sent.{RunsAreListed, StartIsSent};
ghost use Rattle.flr_honest.specs.Stores.{RunsHaveVictims, StartHasVictims, StepsKeepVictims};

/// Before any step, after each step, where each target has the calls that the script lists for it to fail, and so
/// after each run that had room, evictions included: each writing call, from its open to its point, has sent one
/// call of a target for one part after the other, of the part's kind, object and, for a write, length. While it
/// sends, they are those for the parts before the next one, and have all landed. Then they are those for all parts,
/// and have landed; or all but the last one have landed, which failed; or they have landed, and the next one was too
/// old.
pub fn calls_send_their_parts()
    ensures start { StartIsSent }
    ensures steps { StepsKeepSent }
    ensures listed { RunsAreListed }
    ensures runs { RunsHaveSent }
{}

/// After each step of a run each fresh component of a file comes from one of these: it was fresh in the same file,
/// with the same extent, stripes and objects; it was fresh there without objects, and an intent made new ones; its
/// file was made at this step; its file was split off another, in which it was fresh; a copy ended at this step and
/// cleared it, while its lease stood; or a merge ended at this step and took it in from the other file, in which it
/// was fresh, while both leases stood.
pub fn fresh_components_come_from_somewhere()
    ensures steps { StepsBring }
{}

/// Each step changes the bytes of one object at most, and only so: a piece of a write or a tail of a truncate that
/// lands, an object that a copy empties, or a chunk that it puts.
pub fn each_step_writes_so()
    ensures { StepsWrite }
{}

/// A part that has landed after a step had landed before, or was sent at this step; and one that was sent here has landed,
/// or the step left all objects as they were. Where its call isn't one that the script lists to be refused, it has
/// landed.
pub fn parts_land_once()
    ensures lands { StepsLand }
    ensures counts { StepsCount }
    ensures passes { PassingPartsLand }
{}

/// Each byte of a part that has landed, before its call's point, stays what the call leaves there.
pub fn what_landed_stays()
    ensures { StepsKeepLanded }
{}

/// After each step of a run the plain files are those from before it, changed by the answer that the step fixes,
/// if it fixes one.
pub fn stores_follow_answers()
    ensures follows { StepsKeepStore }
{}

/// After each step of a run the files have the names and the sizes of the plain files, if they had them before it.
pub fn names_and_sizes_agree()
    ensures steps { StepsKeepSizes }
{}

/// A file that comes to be has no bytes where a command makes it, and where one splits it off those of the file that
/// it is split off.
pub fn new_files_have()
    ensures steps { StepsGiveNew }
{}

/// Before any step, after each step for which there is room, and so after each run that had room, a copy that takes in
/// a file has the key of the one that was named, and a refusal that it keeps isn't that the file was taken in.
pub fn copies_have_victims()
    ensures start { StartHasVictims }
    ensures steps { StepsKeepVictims }
    ensures runs { RunsHaveVictims }
{}

/// Before any step, after each step, and so after each run that had room: the layout that a truncate got at its open
/// was ready for a write of all bytes from the truncate's size on.
pub fn truncates_are_readied()
    ensures start { StartIsReadied }
    ensures steps { StepsReady }
    ensures runs { RunsReady }
{}

/// Where the plain files follow the answers, and keep the names and sizes of the files, each step keeps each byte of a
/// file that stays there, but where the call that it is of is past its point and had landed: there the byte is what the
/// call leaves.
pub fn bytes_follow_answers()
    ensures follows { BytesFollow }
{}

/// Where each step writes to one object at most, keeps the bytes of the plain files but where it closes them, and
/// fresh components come from where they are said to, the fresh components of files hold the bytes of the plain
/// files after each step, if they did before.
pub fn fresh_components_hold_the_bytes()
    ensures held { HeldFollows }
{}

/// Before any step, after each step, and so after each run that had room, each read has the pieces of its range and
/// as many bytes as the pieces have that it got, and each verify has the copies of its file.
pub fn calls_have_their_pieces()
    ensures start { StartHasPieces }
    ensures steps { StepsKeepPieces }
    ensures runs { RunsHavePieces }
{}

/// Where each step keeps the bytes of the plain files but where it closes them, and the files are honest: while the
/// cookie of a read is held, what it got so far of its range are the bytes of the plain file, after its own steps and
/// after those of others.
pub fn reads_know_what_they_got()
    ensures known { ReadsFollow }
{}

/// There, while the cookie of a verify is held, it found no difference, and the bytes of the first copy of the block
/// in hand are those of the plain file.
pub fn verifies_find_copies_alike()
    ensures alike { VerifiesFollow }
{}

/// Where plain files keep their bytes but where a call closes them: after each step of a copy, while its lease stands,
/// its destinations hold the bytes of the file as far as it has come, and zeros behind that; and after each step of a
/// merge, while both leases stand, the files have the same bytes as far as it has compared them.
pub fn copies_know_what_they_put()
    ensures own { OwnCopyFollows }
{}

/// Before any step, after each step, and so after each run that had room: the components to which a copy copies have
/// their objects, and none is named twice; the chunk in hand is one of a destination that isn't left, who is asked for
/// it has objects, and so it is with the chunks of a merge.
pub fn copies_are_fit()
    ensures start { StartFits }
    ensures steps { StepsFit }
    ensures runs { RunsFit }
{}

/// Where it is known what each step writes, and that plain files keep their bytes but where a call closes them: what
/// a copy knows of bytes, and what a merge knows of them, stays at each step of another client.
pub fn copies_stay_true()
    ensures copies { OthersCopyFollows }
    ensures merges { OthersMergeFollows }
{}

/// After every run of a script that lets no byte rot the files are the plain files that the calls so far leave: the
/// same names and sizes, and every fresh component holds their bytes, but where a writing call has landed that is
/// before its point. Besides, what has landed stays until that point, and each call knows of bytes what its phase
/// says. Each step keeps it.
pub fn files_hold_the_plain_files()
    ensures steps { StepsStayHonest }
    ensures honest { RunsAreHonest }
    ensures plain { RunsHoldPlainFiles }
{}
