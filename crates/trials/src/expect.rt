// What a text is to give, held to what the reader gives.
use std::process::Abort;
use std::test::Fail;
use text::read;

// What each word of a buffer is before a text is read into it.
const MARK: u32 = 0xdead_beef;

// Read into a buffer of `room` words, the text is refused with this number and line, and the buffer is left as it was. `what` is told where that fails.
pub(crate) fn expect_refusal(
    rt: &(impl Abort + AllocGlobal),
    text: &[u8],
    room: usize,
    refused: (u32, usize),
    what: &str,
) -> Result<(), Fail> {
    let mut words = vec![in rt.alloc(); MARK; room]?;
    let answer = read(text, &mut words).map_err(|refusal| (refusal.cause.number(), refusal.line));
    assert_eq!(rt; answer, Err(refused), "{what}");
    expect_marks(rt, &words, what);
    Ok(())
}

// A buffer of `room` words has the words of the text in front, and the rest of it is left as it was.
pub(crate) fn expect_words(
    rt: &(impl Abort + AllocGlobal),
    text: &[u8],
    room: usize,
    expected: &[u32],
) -> Result<(), Fail> {
    let mut words = vec![in rt.alloc(); MARK; room]?;
    let Ok(count) = read(text, &mut words) else {
        return Err(Fail::new("the text was refused"));
    };
    assert!(rt; count <= words.len());
    let (front, rest) = words.split_at(count);
    assert_eq!(rt; front, expected);
    expect_marks(rt, rest, "behind the words");
    Ok(())
}

fn expect_marks(rt: &impl Abort, words: &[u32], what: &str) {
    assert!(rt; words.iter().all(|word| *word == MARK), "{what}");
}
