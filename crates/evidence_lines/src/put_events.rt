//! Lines of a journal that are written.

ghost use Rattle.std.specs.Prelude.{◌≡◌, ◌++◌, decimal, OnOk, ◌∷◌, []};
ghost use Rattle.line_fields.specs.Lines.{line, spaced, joined};
ghost use Rattle.evidence_lines.specs.Journal.{event_fields, reply_word, reply_fields, entry_fields};

use accuse_core::{Entry, Event, Reply};
use itoa::Buffer;
use line_fields::{end_line, put_field, put_number};
use std::alloc::AllocError;
use text_names::Bytes;

// The first field of a line, if it is a number.
fn put_worker(text: &mut Bytes, worker: u32) -> Result<(), AllocError>
    ensures { OnOk result (text.new ≡ text.old ++ decimal worker) }
{
    let mut buffer = Buffer::new();
    text.append(buffer.format(worker).as_bytes())
}

fn put_event(text: &mut Bytes, event: Event) -> Result<(), AllocError>
    ensures { OnOk result (text.new ≡ text.old ++ joined (event_fields event)) }
{
    match event {
        Event::Take { worker, rank } => {
            put_worker(text, worker)?;
            put_field(text, b"take")?;
            put_number(text, u64::from(rank))
        }
        Event::TakeFront { worker } => {
            put_worker(text, worker)?;
            put_field(text, b"front")
        }
        Event::No { worker, rank, seen } => {
            put_worker(text, worker)?;
            put_verdict(text, b"no", rank, seen)
        }
        Event::Yes { worker, rank, seen } => {
            put_worker(text, worker)?;
            put_verdict(text, b"yes", rank, seen)
        }
        Event::Block {
            worker,
            rank,
            count,
            seen,
        } => {
            put_worker(text, worker)?;
            put_verdict(text, b"block", rank, count)?;
            put_number(text, u64::from(seen))
        }
    }
}

fn put_verdict(text: &mut Bytes, word: &[u8], first: u32, second: u32) -> Result<(), AllocError>
    ensures { OnOk result
        (text.new ≡ text.old ++ spaced (word.now ∷ decimal first ∷ decimal second ∷ [])) }
{
    put_field(text, word)?;
    put_number(text, u64::from(first))?;
    put_number(text, u64::from(second))
}

fn put_reply(text: &mut Bytes, reply: Reply) -> Result<(), AllocError>
    ensures { OnOk result (text.new ≡ text.old ++ spaced (reply_fields reply)) }
{
    match reply {
        Reply::Over => put_field(text, b"over"),
        Reply::Seen(seen) => {
            put_field(text, b"seen")?;
            put_number(text, u64::from(seen))
        }
        Reply::Done => put_field(text, b"done"),
        Reply::Front(rank, seen) => {
            put_number(text, u64::from(rank))?;
            put_number(text, u64::from(seen))
        }
        Reply::Late => put_field(text, b"late"),
        Reply::Marked => put_field(text, b"marked"),
        Reply::Stale(kept) => {
            put_field(text, b"stale")?;
            put_number(text, u64::from(kept))
        }
        Reply::Kept => put_field(text, b"kept"),
        Reply::Far => put_field(text, b"far"),
        Reply::Noted => put_field(text, b"noted"),
    }
}

/// Puts the line of an entry.
pub fn put_entry(text: &mut Bytes, entry: &Entry) -> Result<(), AllocError>
    ensures { OnOk result (text.new ≡ text.old ++ line (entry_fields entry.now)) }
{
    put_event(text, entry.event)?;
    put_reply(text, entry.reply)?;
    end_line(text)
}
