//! Events and replies in lines of a journal.

ghost use Rattle.std.specs.Prelude.{◌≡◌};
ghost use Rattle.evidence_lines.specs.Journal.{is_answer, take_in, no_in, yes_in, block_in, verb_in, event_in, first_reply, word_replies, seen_of, stale_of, front_of, word_or_front, reply_of, entry_of};

use accuse_core::{Entry, Event, Reply};
use line_fields::{Fields, short_number};

fn take_in(worker: u32, fields: Fields<'_>) -> Option<(Event, Fields<'_>)>
    ensures { result ≡ take_in worker fields.entry }
{
    let (rank, rest) = fields.short()?;
    Some((Event::Take { worker, rank }, rest))
}

fn no_in(worker: u32, fields: Fields<'_>) -> Option<(Event, Fields<'_>)>
    ensures { result ≡ no_in worker fields.entry }
{
    let (rank, rest) = fields.short()?;
    let (seen, rest) = rest.short()?;
    Some((Event::No { worker, rank, seen }, rest))
}

fn yes_in(worker: u32, fields: Fields<'_>) -> Option<(Event, Fields<'_>)>
    ensures { result ≡ yes_in worker fields.entry }
{
    let (rank, rest) = fields.short()?;
    let (seen, rest) = rest.short()?;
    Some((Event::Yes { worker, rank, seen }, rest))
}

fn block_in(worker: u32, fields: Fields<'_>) -> Option<(Event, Fields<'_>)>
    ensures { result ≡ block_in worker fields.entry }
{
    let (rank, rest) = fields.short()?;
    let (count, rest) = rest.short()?;
    let (seen, rest) = rest.short()?;
    let event = Event::Block {
        worker,
        rank,
        count,
        seen,
    };
    Some((event, rest))
}

fn verb_in(worker: u32, fields: Fields<'_>) -> Option<(Event, Fields<'_>)>
    ensures { result ≡ verb_in worker fields.entry }
{
    let (word, rest) = fields.next()?;
    if word == b"take".as_slice() {
        return take_in(worker, rest);
    }
    if word == b"front".as_slice() {
        return Some((Event::TakeFront { worker }, rest));
    }
    if word == b"no".as_slice() {
        return no_in(worker, rest);
    }
    if word == b"yes".as_slice() {
        return yes_in(worker, rest);
    }
    if word == b"block".as_slice() {
        return block_in(worker, rest);
    }
    None
}

fn event_in(fields: Fields<'_>) -> Option<(Event, Fields<'_>)>
    ensures { result ≡ event_in fields.entry }
{
    let (worker, rest) = fields.short()?;
    verb_in(worker, rest)
}

// A reply that is one word.
fn word_reply(word: &[u8]) -> Option<Reply>
    ensures { result ≡ first_reply word_replies word.now }
{
    if word == b"over".as_slice() {
        return Some(Reply::Over);
    }
    if word == b"done".as_slice() {
        return Some(Reply::Done);
    }
    if word == b"late".as_slice() {
        return Some(Reply::Late);
    }
    if word == b"marked".as_slice() {
        return Some(Reply::Marked);
    }
    if word == b"kept".as_slice() {
        return Some(Reply::Kept);
    }
    if word == b"far".as_slice() {
        return Some(Reply::Far);
    }
    if word == b"noted".as_slice() {
        return Some(Reply::Noted);
    }
    None
}

fn seen_of(fields: Fields<'_>) -> Option<Reply>
    ensures { result ≡ seen_of fields.entry }
{
    let (seen, rest) = fields.short()?;
    if rest.is_end() {
        Some(Reply::Seen(seen))
    } else {
        None
    }
}

fn stale_of(fields: Fields<'_>) -> Option<Reply>
    ensures { result ≡ stale_of fields.entry }
{
    let (kept, rest) = fields.short()?;
    if rest.is_end() {
        Some(Reply::Stale(kept))
    } else {
        None
    }
}

fn front_of(word: &[u8], fields: Fields<'_>) -> Option<Reply>
    ensures { result ≡ front_of word.now fields.entry }
{
    let rank = short_number(word)?;
    let (seen, rest) = fields.short()?;
    if rest.is_end() {
        Some(Reply::Front(rank, seen))
    } else {
        None
    }
}

fn word_or_front(word: &[u8], fields: Fields<'_>) -> Option<Reply>
    ensures { let named = first_reply word_replies word.now in
        result ≡ word_or_front named word.now fields.entry }
{
    let Some(reply) = word_reply(word) else {
        return front_of(word, fields);
    };
    if fields.is_end() { Some(reply) } else { None }
}

fn reply_of(fields: Fields<'_>) -> Option<Reply>
    ensures { result ≡ reply_of fields.entry }
{
    let (word, rest) = fields.next()?;
    if word == b"seen".as_slice() {
        return seen_of(rest);
    }
    if word == b"stale".as_slice() {
        return stale_of(rest);
    }
    word_or_front(word, rest)
}

// Whether an event may have a reply.
fn is_answer(event: Event, reply: Reply) -> bool
    ensures { result ≡ is_answer event reply }
{
    match event {
        Event::Take { .. } => matches!(reply, Reply::Over | Reply::Seen(_)),
        Event::TakeFront { .. } => matches!(reply, Reply::Done | Reply::Front(_, _)),
        Event::No { .. } => matches!(reply, Reply::Late | Reply::Marked),
        Event::Yes { .. } => matches!(
            reply,
            Reply::Kept | Reply::Noted | Reply::Far | Reply::Late | Reply::Stale(_)
        ),
        Event::Block { .. } => matches!(reply, Reply::Kept),
    }
}

/// The entry that a line with these fields is.
#[tactic(auto, unfolding(crate::specs::Journal::entry_of))]
pub fn entry_of(fields: Fields<'_>) -> Option<Entry>
    ensures { result ≡ entry_of fields.entry }
{
    let (event, rest) = event_in(fields)?;
    let reply = reply_of(rest)?;
    if is_answer(event, reply) {
        Some(Entry { event, reply })
    } else {
        None
    }
}
