// A whole session, from the bytes that come in to the bytes that go out.
#![tactic(auto)]

ghost use Rattle.std.specs.Prelude.{◌≡◌, length, IfOk, string_bytes};
ghost use Rattle.hub.specs.Objections.{objected};
ghost use Rattle.hub.specs.Session.{answered, refusal, session_bytes, shown};
ghost use Rattle.text.specs.Reading.{read_text};

use crate::listing::Listing;
use crate::objection::Objection;
use crate::served::Served;
use rulebook::MOST_WORDS;
use std::alloc::{AllocError, Global};
use text::read;

mod listing;
mod objection;
mod served;

// The most bytes that a session reads.
pub const MOST_BYTES: usize = 60_000;

// What `grow` prints for its input.
pub fn session(heap: Global, input: &[u8]) -> Result<String, AllocError>
    ensures { IfOk result (λ s. string_bytes s ≡ session_bytes input.now) }
{
    if input.len() > MOST_BYTES {
        return refused(heap, Objection::Size);
    }
    let mut words = vec![in heap; 0; MOST_WORDS]?;
    match program(input, words.as_mut_slice()) {
        Ok(listing) => listing.to_string(heap),
        Err(objection) => refused(heap, objection),
    }
}

fn refused(heap: Global, objection: Objection) -> Result<String, AllocError>
    ensures { IfOk result (λ s. string_bytes s ≡ refusal (objected objection)) }
{
    format!(in heap; "{objection}\n")
}

// The program in a text. The reader allocates nothing: it is lent a buffer, and tells how many words it put there.
fn program<'a>(input: &[u8], words: &'a mut [u32]) -> Result<Listing<'a>, Objection>
    ensures { answered result ≡ shown (read_text (length words.old) input.now) }
{
    let count = read(input, words)?;
    let words = &words[..count];
    let served = Served::named_in(words).ok_or(Objection::Label)?;
    Ok(Listing { served, words })
}
