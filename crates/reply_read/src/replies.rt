//! The answer that words say.

ghost use Rattle.std.specs.Prelude.{◌≡◌, ◌↔◌, map, codes, IfOk, Some};
ghost use Rattle.std.specs.Option.{option_map};
ghost use Rattle.flr_base.specs.declared.reply.Reply.TheVariants as replies;
ghost use Rattle.text_words.specs.Words.{AreWords};
ghost use Rattle.reply_read.specs.declared.answer.Answer.{Answer};
ghost use Rattle.reply_read.specs.declared.answer.Answer.TheVariants as answers;
ghost use Rattle.reply_read.specs.Limits.{IsAnswer, answer_words};
ghost use Rattle.reply_read.specs.Values.{number_16, number_32, number_64, client_in, call_in, name_in, ids_in, bytes_in};
ghost use Rattle.reply_read.specs.Replies.{behind, whole, one_of, plain_two, owned_two, two_of, no_primary, sizes, three_of, fault, four_of, copied, differ_at, five_of, long_of, answer_of};

use crate::answer::Answer;
use crate::values::{
    bytes_in, call_in, calls_in, client_in, end_in, ids_in, lefts_in, name_in, number_16,
    number_32, number_64,
};
use flr_base::{NoMemory, Range, Reply};
use std::alloc::Global;
use text_words::hex_byte;

#[tactic(auto, unfolding(crate::specs::Replies::one_of))]
fn one_of(verb: &[u8]) -> Option<Answer>
    ensures { result ≡ one_of verb.now }
{
    if verb == b"created".as_slice() {
        return Some(Answer::Whole(Reply::Created));
    }
    if verb == b"layout".as_slice() {
        return Some(Answer::Layout);
    }
    if verb == b"set".as_slice() {
        return Some(Answer::Whole(Reply::Set));
    }
    if verb == b"written".as_slice() {
        return Some(Answer::Whole(Reply::Written));
    }
    if verb == b"truncated".as_slice() {
        return Some(Answer::Whole(Reply::Truncated));
    }
    if verb == b"rotted".as_slice() {
        return Some(Answer::Whole(Reply::Rotted));
    }
    if verb == b"toomanyfiles".as_slice() {
        return Some(Answer::Whole(Reply::TooManyFiles));
    }
    if verb == b"toobig".as_slice() {
        return Some(Answer::Whole(Reply::TooBig));
    }
    if verb == b"toomanymirrors".as_slice() {
        return Some(Answer::Whole(Reply::TooManyMirrors));
    }
    if verb == b"toomanycomponents".as_slice() {
        return Some(Answer::Whole(Reply::TooManyComponents));
    }
    if verb == b"noobject".as_slice() {
        return Some(Answer::Whole(Reply::NoObject));
    }
    None
}

fn removed(word: &[u8]) -> Option<Reply>
    ensures { result ≡ option_map (λ n. replies.Removed n) (number_16 word.now) }
{
    Some(Reply::Removed(number_16(word)?))
}

fn evicted_client(word: &[u8]) -> Option<Reply>
    ensures { result ≡ option_map (λ n. replies.EvictedClient n) (client_in word.now) }
{
    Some(Reply::EvictedClient(client_in(word)?))
}

fn same(word: &[u8]) -> Option<Reply>
    ensures { result ≡ option_map (λ n. replies.Same n) (number_32 word.now) }
{
    Some(Reply::Same(number_32(word)?))
}

fn all_offline(word: &[u8]) -> Option<Reply>
    ensures { result ≡ option_map (λ n. replies.AllOffline n) (number_64 word.now) }
{
    Some(Reply::AllOffline(number_64(word)?))
}

fn write_fault(word: &[u8]) -> Option<Reply>
    ensures { result ≡ option_map (λ c. replies.WriteFault c) (call_in word.now) }
{
    Some(Reply::WriteFault(call_in(word)?))
}

fn busy(word: &[u8]) -> Option<Reply>
    ensures { result ≡ option_map (λ n. replies.Busy n) (client_in word.now) }
{
    Some(Reply::Busy(client_in(word)?))
}

fn last_fresh(word: &[u8]) -> Option<Reply>
    ensures { result ≡ option_map (λ n. replies.LastFresh n) (number_16 word.now) }
{
    Some(Reply::LastFresh(number_16(word)?))
}

fn stale_mirror(word: &[u8]) -> Option<Reply>
    ensures { result ≡ option_map (λ n. replies.StaleMirror n) (number_16 word.now) }
{
    Some(Reply::StaleMirror(number_16(word)?))
}

fn no_mirror(word: &[u8]) -> Option<Reply>
    ensures { result ≡ option_map (λ n. replies.NoMirrorId n) (number_16 word.now) }
{
    Some(Reply::NoMirrorId(number_16(word)?))
}

fn no_component(word: &[u8]) -> Option<Reply>
    ensures { result ≡ option_map (λ n. replies.NoComponent n) (number_32 word.now) }
{
    Some(Reply::NoComponent(number_32(word)?))
}

fn copy_fault(word: &[u8]) -> Option<Reply>
    ensures { result ≡ option_map (λ c. replies.CopyFault c) (call_in word.now) }
{
    Some(Reply::CopyFault(call_in(word)?))
}

fn verify_fault(word: &[u8]) -> Option<Reply>
    ensures { result ≡ option_map (λ c. replies.VerifyFault c) (call_in word.now) }
{
    Some(Reply::VerifyFault(call_in(word)?))
}

/// An answer of two words that holds no list.
#[tactic(auto, unfolding(crate::specs::Replies::plain_two))]
fn plain_two(verb: &[u8], word: &[u8]) -> Option<Reply>
    ensures { result ≡ plain_two verb.now word.now }
{
    if verb == b"removed".as_slice() {
        return removed(word);
    }
    if verb == b"evicted".as_slice() {
        return evicted_client(word);
    }
    if verb == b"same".as_slice() {
        return same(word);
    }
    if verb == b"alloffline".as_slice() {
        return all_offline(word);
    }
    if verb == b"failed".as_slice() {
        return write_fault(word);
    }
    if verb == b"busy".as_slice() {
        return busy(word);
    }
    if verb == b"lastfresh".as_slice() {
        return last_fresh(word);
    }
    if verb == b"stalemirror".as_slice() {
        return stale_mirror(word);
    }
    if verb == b"nomirror".as_slice() {
        return no_mirror(word);
    }
    if verb == b"nocomponent".as_slice() {
        return no_component(word);
    }
    if verb == b"copyfailed".as_slice() {
        return copy_fault(word);
    }
    if verb == b"verifyfailed".as_slice() {
        return verify_fault(word);
    }
    None
}

fn split(alloc: Global, word: &[u8]) -> Result<Option<Answer>, NoMemory>
    ensures { IfOk result (λ found. found ≡ option_map (λ n. answers.Whole (replies.Split n)) (name_in 141 word.now)) }
{
    match name_in(alloc, word, 141)? {
        Some(name) => Ok(Some(Answer::Whole(Reply::Split(name)))),
        None => Ok(None),
    }
}

fn exists(alloc: Global, word: &[u8]) -> Result<Option<Answer>, NoMemory>
    ensures { IfOk result (λ found. found ≡ option_map (λ n. answers.Whole (replies.Exists n)) (name_in 141 word.now)) }
{
    match name_in(alloc, word, 141)? {
        Some(name) => Ok(Some(Answer::Whole(Reply::Exists(name)))),
        None => Ok(None),
    }
}

fn no_file(alloc: Global, word: &[u8]) -> Result<Option<Answer>, NoMemory>
    ensures { IfOk result (λ found. found ≡ option_map (λ n. answers.Whole (replies.NoFile n)) (name_in 128 word.now)) }
{
    match name_in(alloc, word, 128)? {
        Some(name) => Ok(Some(Answer::Whole(Reply::NoFile(name)))),
        None => Ok(None),
    }
}

fn merged(alloc: Global, word: &[u8]) -> Result<Option<Answer>, NoMemory>
    ensures { IfOk result (λ found. found ≡ option_map (λ ids. answers.Whole (replies.Merged ids)) (ids_in word.now)) }
{
    match ids_in(alloc, word)? {
        Some(ids) => Ok(Some(Answer::Whole(Reply::Merged(ids)))),
        None => Ok(None),
    }
}

fn bytes(alloc: Global, word: &[u8]) -> Result<Option<Answer>, NoMemory>
    ensures { IfOk result (λ found. found ≡ option_map (λ bytes. answers.Bytes bytes) (bytes_in word.now)) }
{
    match bytes_in(alloc, word)? {
        Some(bytes) => Ok(Some(Answer::Bytes(bytes))),
        None => Ok(None),
    }
}

fn differ(word: &[u8]) -> Option<Answer>
    ensures { result ≡ option_map (λ n. answers.Differ n) (number_32 word.now) }
{
    Some(Answer::Differ(number_32(word)?))
}

/// An answer of two words that holds a list, or of which lines follow.
#[tactic(auto, unfolding(crate::specs::Replies::owned_two))]
fn owned_two(alloc: Global, verb: &[u8], word: &[u8]) -> Result<Option<Answer>, NoMemory>
    ensures { IfOk result (λ found. found ≡ owned_two verb.now word.now) }
{
    if verb == b"split".as_slice() {
        return split(alloc, word);
    }
    if verb == b"exists".as_slice() {
        return exists(alloc, word);
    }
    if verb == b"nofile".as_slice() {
        return no_file(alloc, word);
    }
    if verb == b"merged".as_slice() {
        return merged(alloc, word);
    }
    if verb == b"bytes".as_slice() {
        return bytes(alloc, word);
    }
    if verb == b"differ".as_slice() {
        return Ok(differ(word));
    }
    Ok(None)
}

fn two_of(alloc: Global, verb: &[u8], word: &[u8]) -> Result<Option<Answer>, NoMemory>
    ensures { IfOk result (λ found. found ≡ two_of verb.now word.now) }
{
    match plain_two(verb, word) {
        Some(reply) => Ok(Some(Answer::Whole(reply))),
        None => owned_two(alloc, verb, word),
    }
}

fn no_primary(a: &[u8], b: &[u8]) -> Option<Reply>
    ensures { result ≡ no_primary a.now b.now }
{
    let start = number_64(a)?;
    let end = end_in(b)?;
    Some(Reply::NoPrimary(Range { start, end }))
}

fn sizes(a: &[u8], b: &[u8]) -> Option<Reply>
    ensures { result ≡ sizes a.now b.now }
{
    let ours = number_64(a)?;
    let theirs = number_64(b)?;
    Some(Reply::Sizes { ours, theirs })
}

fn evicted(a: &[u8], b: &[u8]) -> Option<Reply>
    ensures { result ≡ behind (codes "at") a.now (option_map (λ n. replies.Evicted n) (number_32 b.now)) }
{
    if a != b"at".as_slice() {
        return None;
    }
    Some(Reply::Evicted(number_32(b)?))
}

fn broken(a: &[u8], b: &[u8]) -> Option<Reply>
    ensures { result ≡ behind (codes "at") a.now (option_map (λ n. replies.Broken n) (number_32 b.now)) }
{
    if a != b"at".as_slice() {
        return None;
    }
    Some(Reply::Broken(number_32(b)?))
}

#[tactic(auto, unfolding(crate::specs::Replies::three_of))]
fn three_of(verb: &[u8], a: &[u8], b: &[u8]) -> Option<Reply>
    ensures { result ≡ three_of verb.now a.now b.now }
{
    if verb == b"noprimary".as_slice() {
        return no_primary(a, b);
    }
    if verb == b"evicted".as_slice() {
        return evicted(a, b);
    }
    if verb == b"broken".as_slice() {
        return broken(a, b);
    }
    if verb == b"sizes".as_slice() {
        return sizes(a, b);
    }
    None
}

fn fault(alloc: Global, a: &[u8], c: &[u8]) -> Result<Option<Reply>, NoMemory>
    ensures { IfOk result (λ found. found ≡ fault a.now c.now) }
{
    let Some(byte) = number_64(a) else {
        return Ok(None);
    };
    let Some(calls) = calls_in(alloc, c)? else {
        return Ok(None);
    };
    Ok(Some(Reply::Fault { byte, calls }))
}

fn four_of(
    alloc: Global,
    verb: &[u8],
    a: &[u8],
    b: &[u8],
    c: &[u8],
) -> Result<Option<Reply>, NoMemory>
    ensures { IfOk result (λ found. found ≡ four_of verb.now a.now b.now c.now) }
{
    if verb != b"fault".as_slice() || b != b"by".as_slice() {
        return Ok(None);
    }
    fault(alloc, a, c)
}

fn copied(alloc: Global, b: &[u8], d: &[u8]) -> Result<Option<Reply>, NoMemory>
    ensures { IfOk result (λ found. found ≡ copied b.now d.now) }
{
    let Some(cleared) = ids_in(alloc, b)? else {
        return Ok(None);
    };
    let Some(left) = lefts_in(alloc, d)? else {
        return Ok(None);
    };
    Ok(Some(Reply::Copied { cleared, left }))
}

fn differ_at(b: &[u8], c: &[u8], d: &[u8]) -> Option<Reply>
    ensures { result ≡ differ_at b.now c.now d.now }
{
    let offset = number_64(b)?;
    let ours = hex_byte(c)?;
    let theirs = hex_byte(d)?;
    Some(Reply::DifferAt {
        offset,
        ours,
        theirs,
    })
}

fn copied_of(
    alloc: Global,
    a: &[u8],
    b: &[u8],
    c: &[u8],
    d: &[u8],
) -> Result<Option<Reply>, NoMemory>
    ensures { IfOk result (λ found. found ≡ behind (codes "cleared") a.now (behind (codes "left") c.now (copied b.now d.now))) }
{
    if a != b"cleared".as_slice() || c != b"left".as_slice() {
        return Ok(None);
    }
    copied(alloc, b, d)
}

fn differs_of(a: &[u8], b: &[u8], c: &[u8], d: &[u8]) -> Option<Reply>
    ensures { result ≡ behind (codes "at") a.now (differ_at b.now c.now d.now) }
{
    if a != b"at".as_slice() {
        return None;
    }
    differ_at(b, c, d)
}

fn five_of(
    alloc: Global,
    verb: &[u8],
    a: &[u8],
    b: &[u8],
    c: &[u8],
    d: &[u8],
) -> Result<Option<Reply>, NoMemory>
    ensures { IfOk result (λ found. found ≡ five_of verb.now a.now b.now c.now d.now) }
{
    if verb == b"copied".as_slice() {
        return copied_of(alloc, a, b, c, d);
    }
    if verb == b"differs".as_slice() {
        return Ok(differs_of(a, b, c, d));
    }
    Ok(None)
}

fn whole(reply: Option<Reply>) -> Option<Answer>
    ensures { result ≡ whole reply }
{
    Some(Answer::Whole(reply?))
}

/// The answer of four words and what stands behind them.
fn long_of(
    alloc: Global,
    verb: &[u8],
    a: &[u8],
    b: &[u8],
    c: &[u8],
    more: &[&[u8]],
) -> Result<Option<Reply>, NoMemory>
    ensures { IfOk result (λ found. found ≡ long_of verb.now a.now b.now c.now (map (λ word. word.now) more.now)) }
{
    match more {
        [] => four_of(alloc, verb, a, b, c),
        [d] => five_of(alloc, verb, a, b, c, d),
        [_, _, ..] => Ok(None),
    }
}

fn answer_of(alloc: Global, words: &[&[u8]]) -> Result<Option<Answer>, NoMemory>
    ensures { IfOk result (λ found. found ≡ answer_of (map (λ word. word.now) words.now)) }
{
    match words {
        [] => Ok(None),
        [verb] => Ok(one_of(verb)),
        [verb, a] => two_of(alloc, verb, a),
        [verb, a, b] => Ok(whole(three_of(verb, a, b))),
        [verb, a, b, c, more @ ..] => Ok(whole(long_of(alloc, verb, a, b, c, more)?)),
    }
}

/// The answer that the words of a report say. There is none where no report has an answer of these
/// words.
pub fn read_answer(alloc: Global, words: &[&[u8]]) -> Result<Option<Answer>, NoMemory>
    ensures value { IfOk result (λ found. found ≡ answer_of (map (λ word. word.now) words.now)) }
    ensures spelled { IfOk result (λ found. (answer : Answer) → ((found ≡ Some answer) ↔ (IsAnswer answer × (map (λ word. word.now) words.now ≡ answer_words answer)))) }
{
    answer_of(alloc, words)
}

/// The words of each answer are words, so that a line comes apart into them.
pub fn answer_facts()
    ensures words { (answer : Answer) → IsAnswer answer → AreWords (answer_words answer) }
{}
