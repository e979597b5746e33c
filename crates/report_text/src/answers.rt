//! The text of an answer.

ghost use Rattle.std.specs.Prelude.{◌≡◌, ◌++◌, ◌∷◌, [], codes, map, OnOk};
ghost use Rattle.std.specs.Fmt.{decimal};
ghost use Rattle.flr_base.specs.Runs.{hex};
ghost use Rattle.flr_base.specs.declared.reply.Reply.TheVariants as replies;
ghost use Rattle.text_words.specs.Items.{call_text, left_text};
ghost use Rattle.text_words.specs.Lines.{text_of};
ghost use Rattle.text_words.specs.Lists.{list_text};
ghost use Rattle.text_words.specs.Sizes.{end_text};
ghost use Rattle.text_words.specs.Words.{spaced};
ghost use Rattle.report_text.specs.Answers.{IsPrintable, diff_line, following_text, from_text, reply_words, take_line};

use flr_base::{
    Calls, Diff, FailedCall, Ids, Lefts, Name, NoMemory, Octets, Range, Reply, Take, TakeFrom,
    print_runs, put_decimal, put_hex,
};
use text_words::{Item, put_end, put_list, put_number, put_word};

/// Appends a word.
pub(crate) fn put(out: &mut Vec<u8>, word: &[u8]) -> Result<(), NoMemory>
    ensures { OnOk result (out.new.items ≡ out.old.items ++ word.now) }
{
    out.extend_from_slice(word)?;
    Ok(())
}

/// Appends a word and a number.
fn put_of(out: &mut Vec<u8>, word: &[u8], number: u64) -> Result<(), NoMemory>
    ensures { OnOk result (out.new.items ≡ out.old.items ++ spaced (word.now ∷ decimal number ∷ [])) }
{
    put(out, word)?;
    put_number(out, number)?;
    Ok(())
}

/// Appends a word and a name.
fn put_named(out: &mut Vec<u8>, word: &[u8], name: &Name) -> Result<(), NoMemory>
    ensures { OnOk result (out.new.items ≡ out.old.items ++ spaced (word.now ∷ name.now ∷ [])) }
{
    put(out, word)?;
    put_word(out, name.as_slice())?;
    Ok(())
}

/// Appends a word and the place at which it was so.
fn put_at(out: &mut Vec<u8>, word: &[u8], place: u32) -> Result<(), NoMemory>
    ensures { OnOk result (out.new.items ≡ out.old.items ++ spaced (word.now ∷ codes "at" ∷ decimal place ∷ [])) }
{
    put(out, word)?;
    put_word(out, b"at")?;
    put_number(out, u64::from(place))?;
    Ok(())
}

/// Appends a word and the call for which it is so.
fn put_by(out: &mut Vec<u8>, word: &[u8], call: FailedCall) -> Result<(), NoMemory>
    ensures { OnOk result (out.new.items ≡ out.old.items ++ spaced (word.now ∷ call_text call ∷ [])) }
{
    put(out, word)?;
    out.push(b' ')?;
    call.put(out)?;
    Ok(())
}

/// Appends a space and two bytes in hexadecimal digits.
fn put_bytes(out: &mut Vec<u8>, ours: u8, theirs: u8) -> Result<(), NoMemory>
    ensures { OnOk result (out.new.items ≡ out.old.items ++ 32 ∷ spaced (hex ours ∷ hex theirs ∷ [])) }
{
    out.push(b' ')?;
    put_hex(out, ours)?;
    out.push(b' ')?;
    put_hex(out, theirs)?;
    Ok(())
}

fn put_read(out: &mut Vec<u8>, bytes: &Octets) -> Result<(), NoMemory>
    requires { IsPrintable (replies.Bytes bytes.now) }
    ensures { OnOk result (out.new.items ≡ out.old.items ++ spaced (reply_words (replies.Bytes bytes.now))) }
{
    put(out, b"bytes")?;
    let runs = print_runs(*out.allocator(), bytes)?;
    put_word(out, runs.as_slice())?;
    Ok(())
}

/// Appends a space, a word and the items of a list.
fn put_listed<T: Item>(out: &mut Vec<u8>, word: &[u8], items: &[T]) -> Result<(), NoMemory>
    ensures { OnOk result (out.new.items ≡ out.old.items ++ 32 ∷ spaced (word.now ∷ list_text T.text items.now ∷ [])) }
{
    put_word(out, word)?;
    out.push(b' ')?;
    put_list(out, items)?;
    Ok(())
}

fn put_copied(out: &mut Vec<u8>, cleared: &Ids, left: &Lefts) -> Result<(), NoMemory>
    ensures { OnOk result (out.new.items ≡ out.old.items ++ spaced (codes "copied" ∷ codes "cleared" ∷ list_text decimal cleared.now ∷ codes "left" ∷ list_text left_text left.now ∷ [])) }
{
    put(out, b"copied")?;
    put_listed(out, b"cleared", cleared.as_slice())?;
    put_listed(out, b"left", left.as_slice())
}

fn put_fault(out: &mut Vec<u8>, byte: u64, calls: &Calls) -> Result<(), NoMemory>
    ensures { OnOk result (out.new.items ≡ out.old.items ++ spaced (codes "fault" ∷ decimal byte ∷ codes "by" ∷ list_text call_text calls.now ∷ [])) }
{
    put_of(out, b"fault", byte)?;
    put_listed(out, b"by", calls.as_slice())
}

fn put_merged(out: &mut Vec<u8>, ids: &Ids) -> Result<(), NoMemory>
    ensures { OnOk result (out.new.items ≡ out.old.items ++ spaced (codes "merged" ∷ list_text decimal ids.now ∷ [])) }
{
    put(out, b"merged ")?;
    put_list(out, ids.as_slice())?;
    Ok(())
}

fn put_no_primary(out: &mut Vec<u8>, range: Range) -> Result<(), NoMemory>
    ensures { OnOk result (out.new.items ≡ out.old.items ++ spaced (codes "noprimary" ∷ decimal range.start ∷ end_text (codes "EOF") range.end ∷ [])) }
{
    put_of(out, b"noprimary", range.start)?;
    out.push(b' ')?;
    put_end(out, range.end)?;
    Ok(())
}

fn put_differs(out: &mut Vec<u8>, offset: u64, ours: u8, theirs: u8) -> Result<(), NoMemory>
    ensures { OnOk result (out.new.items ≡ out.old.items ++ spaced (codes "differs" ∷ codes "at" ∷ decimal offset ∷ hex ours ∷ hex theirs ∷ [])) }
{
    put(out, b"differs at")?;
    put_number(out, offset)?;
    put_bytes(out, ours, theirs)
}

fn put_sizes(out: &mut Vec<u8>, ours: u64, theirs: u64) -> Result<(), NoMemory>
    ensures { OnOk result (out.new.items ≡ out.old.items ++ spaced (codes "sizes" ∷ decimal ours ∷ decimal theirs ∷ [])) }
{
    put_of(out, b"sizes", ours)?;
    put_number(out, theirs)?;
    Ok(())
}

/// Appends the words of an answer, with one space between each two.
pub(crate) fn put_reply(out: &mut Vec<u8>, reply: &Reply) -> Result<(), NoMemory>
    requires { IsPrintable reply.now }
    ensures { OnOk result (out.new.items ≡ out.old.items ++ spaced (reply_words reply.now)) }
{
    match reply {
        Reply::Created => put(out, b"created"),
        Reply::Layout(_) => put(out, b"layout"),
        Reply::Set => put(out, b"set"),
        Reply::Split(name) => put_named(out, b"split", name),
        Reply::Removed(id) => put_of(out, b"removed", u64::from(*id)),
        Reply::EvictedClient(client) => put_of(out, b"evicted", u64::from(*client)),
        Reply::Bytes(bytes) => put_read(out, bytes),
        Reply::Written => put(out, b"written"),
        Reply::Truncated => put(out, b"truncated"),
        Reply::Copied { cleared, left } => put_copied(out, cleared, left),
        Reply::Merged(ids) => put_merged(out, ids),
        Reply::Same(blocks) => put_of(out, b"same", u64::from(*blocks)),
        Reply::Differ(diffs) => put_of(out, b"differ", diffs.len() as u64),
        Reply::Rotted => put(out, b"rotted"),
        Reply::NoFile(name) => put_named(out, b"nofile", name),
        Reply::Exists(name) => put_named(out, b"exists", name),
        Reply::TooManyFiles => put(out, b"toomanyfiles"),
        Reply::TooBig => put(out, b"toobig"),
        Reply::NoPrimary(range) => put_no_primary(out, *range),
        Reply::AllOffline(byte) => put_of(out, b"alloffline", *byte),
        Reply::Fault { byte, calls } => put_fault(out, *byte, calls),
        Reply::WriteFault(call) => put_by(out, b"failed", *call),
        Reply::Evicted(place) => put_at(out, b"evicted", *place),
        Reply::Busy(client) => put_of(out, b"busy", u64::from(*client)),
        Reply::Broken(place) => put_at(out, b"broken", *place),
        Reply::LastFresh(id) => put_of(out, b"lastfresh", u64::from(*id)),
        Reply::StaleMirror(id) => put_of(out, b"stalemirror", u64::from(*id)),
        Reply::NoMirrorId(id) => put_of(out, b"nomirror", u64::from(*id)),
        Reply::NoComponent(id) => put_of(out, b"nocomponent", u64::from(*id)),
        Reply::TooManyMirrors => put(out, b"toomanymirrors"),
        Reply::TooManyComponents => put(out, b"toomanycomponents"),
        Reply::DifferAt {
            offset,
            ours,
            theirs,
        } => put_differs(out, *offset, *ours, *theirs),
        Reply::Sizes { ours, theirs } => put_sizes(out, *ours, *theirs),
        Reply::CopyFault(call) => put_by(out, b"copyfailed", *call),
        Reply::VerifyFault(call) => put_by(out, b"verifyfailed", *call),
        Reply::NoObject => put(out, b"noobject"),
    }
}

fn put_from(out: &mut Vec<u8>, from: TakeFrom) -> Result<(), NoMemory>
    ensures { OnOk result (out.new.items ≡ out.old.items ++ from_text from) }
{
    match from {
        TakeFrom::Hole => put(out, b"hole"),
        TakeFrom::Object { object, call } => {
            object.put(out)?;
            out.push(b'@')?;
            put_decimal(out, u64::from(call))?;
            Ok(())
        }
    }
}

fn put_take(out: &mut Vec<u8>, take: Take) -> Result<(), NoMemory>
    ensures { OnOk result (out.new.items ≡ out.old.items ++ (take_line take ++ 10 ∷ [])) }
{
    put_of(out, b"take", take.range.start)?;
    put_number(out, take.range.end)?;
    put_number(out, u64::from(take.component))?;
    out.push(b' ')?;
    put_from(out, take.from)?;
    out.push(b'\n')?;
    Ok(())
}

fn put_takes(out: &mut Vec<u8>, takes: &[Take]) -> Result<(), NoMemory>
    ensures { OnOk result (out.new.items ≡ out.old.items ++ text_of (map take_line takes.now)) }
{
    for take in takes {
        put_take(out, *take)?;
    }
    Ok(())
}

fn put_diff(out: &mut Vec<u8>, diff: Diff) -> Result<(), NoMemory>
    ensures { OnOk result (out.new.items ≡ out.old.items ++ (diff_line diff ++ 10 ∷ [])) }
{
    put_of(out, b"differ", u64::from(diff.first))?;
    put_number(out, u64::from(diff.second))?;
    put_number(out, diff.offset)?;
    put_bytes(out, diff.ours, diff.theirs)?;
    out.push(b'\n')?;
    Ok(())
}

fn put_diffs(out: &mut Vec<u8>, diffs: &[Diff]) -> Result<(), NoMemory>
    ensures { OnOk result (out.new.items ≡ out.old.items ++ text_of (map diff_line diffs.now)) }
{
    for diff in diffs {
        put_diff(out, *diff)?;
    }
    Ok(())
}

/// Appends the lines that follow an answer.
pub(crate) fn put_following(
    out: &mut Vec<u8>,
    reply: &Reply,
    takes: &[Take],
) -> Result<(), NoMemory>
    ensures { OnOk result (out.new.items ≡ out.old.items ++ following_text reply.now takes.now) }
{
    match reply {
        Reply::Layout(text) => put(out, text.as_slice()),
        Reply::Bytes(_) => put_takes(out, takes),
        Reply::Differ(diffs) => put_diffs(out, diffs.as_slice()),
        _ => Ok(()),
    }
}
