// Texts that are read, and the words that they give.
use crate::expect::{expect_refusal, expect_words};
use std::alloc::{AllocError, Global};
use std::test::Fail;

pub const EXAMPLE: &str =
    "lattice 3 cells 1 tasks 2\ntask 3 0\ntask 5 0\nput 0 1\nend\nget 0 1\nget 0 5\nend\n";

static EXAMPLE_WORDS: [u32; 10] = [
    0xf030_0402,
    0xe800_c000,
    0xe801_4000,
    0x1000_0001,
    0x0000_0000,
    0x2000_0001,
    0x3000_0001,
    0x2000_0001,
    0x3000_0005,
    0x0000_0000,
];

// The lines of a text, with the words of each.
static LAST_FITTING: [(&str, &[u32]); 32] = [
    ("lattice 255 cells 1023 tasks 4\n", &[0xffff_fc04]),
    ("task 8191 16383\n", &[0xefff_ffff]),
    ("idle 8191 16383\n", &[0xe7ff_ffff]),
    ("task 8191 0\n", &[0xefff_c000]),
    ("idle 0 16383\n", &[0xe000_3fff]),
    ("end\n", &[0x0000_0000]),
    ("put 255 262143\n", &[0x13ff_ffff]),
    ("put +255 r\n", &[0x1ffc_0000]),
    ("put 255 0\n", &[0x13fc_0000]),
    ("put +0 262143\n", &[0x1803_ffff]),
    ("get 255 262143\n", &[0x23fc_0001, 0x3003_ffff]),
    ("get +255 r\n", &[0x2bfc_0001, 0x3400_0000]),
    ("get 0 r 5\n", &[0x2000_0002, 0x3400_0000, 0x3000_0005]),
    (
        "get 0 262143 1 2 3 4 5 6 262143\n",
        &[
            0x2000_0008,
            0x3003_ffff,
            0x3000_0001,
            0x3000_0002,
            0x3000_0003,
            0x3000_0004,
            0x3000_0005,
            0x3000_0006,
            0x3003_ffff,
        ],
    ),
    (
        "get +255 r r r r r r r r\n",
        &[
            0x2bfc_0008,
            0x3400_0000,
            0x3400_0000,
            0x3400_0000,
            0x3400_0000,
            0x3400_0000,
            0x3400_0000,
            0x3400_0000,
            0x3400_0000,
        ],
    ),
    ("freeze 255\n", &[0x43fc_0000]),
    ("freeze +255\n", &[0x4bfc_0000]),
    ("freeze 0\n", &[0x4000_0000]),
    ("if 32767 8191\n", &[0x5fff_ffff]),
    ("if 32767 0\n", &[0x5fff_e000]),
    ("if 0 8191\n", &[0x5000_1fff]),
    ("has 255 262143\n", &[0x63ff_ffff]),
    ("has +255 r\n", &[0x6ffc_0000]),
    ("has 255 0\n", &[0x63fc_0000]),
    ("has +0 262143\n", &[0x6803_ffff]),
    ("start 511\n", &[0x7000_01ff]),
    ("start 0\n", &[0x7000_0000]),
    ("let 262143\n", &[0x8003_ffff]),
    ("let 0\n", &[0x8000_0000]),
    ("loop 32767 8191\n", &[0x9fff_ffff]),
    ("loop 32767 0\n", &[0x9fff_e000]),
    ("loop 0 8191\n", &[0x9000_1fff]),
];

// A `get` line of eight triggers, and its words.
const GET: &[u8] = b"get 0 1 2 3 4 5 6 7 8\n";

static GET_WORDS: [u32; 9] = [
    0x2000_0008,
    0x3000_0001,
    0x3000_0002,
    0x3000_0003,
    0x3000_0004,
    0x3000_0005,
    0x3000_0006,
    0x3000_0007,
    0x3000_0008,
];

#[test]
fn last_fitting_values_are_read(rt: HostRuntime) -> Result<(), Fail> {
    let mut text = Vec::new(rt.alloc());
    let mut words = Vec::new(rt.alloc());
    for (line, its_words) in &LAST_FITTING {
        text.extend_from_slice(line.as_bytes())?;
        words.extend_from_slice(its_words)?;
    }
    expect_words(&rt, &text, words.len(), &words)
}

#[test]
fn a_text_may_have_no_code(rt: HostRuntime) -> Result<(), Fail> {
    expect_words(&rt, b"lattice 9 cells 0 tasks 0\n", 1, &[0xf090_0000])?;
    expect_words(
        &rt,
        b"lattice 9 cells 0 tasks 1\nidle 0 0\n",
        2,
        &[0xf090_0001, 0xe000_0000],
    )
}

#[test]
fn the_worked_example(rt: HostRuntime) -> Result<(), Fail> {
    expect_words(&rt, EXAMPLE.as_bytes(), 64, &EXAMPLE_WORDS)
}

fn long_text(heap: Global) -> Result<Vec<u8>, AllocError> {
    let mut text = Vec::new(heap);
    text.extend_from_slice(b"lattice 255 cells 1023 tasks 1023\n")?;
    for _ in 0..1023 {
        text.extend_from_slice(b"task 8191 16383\n")?;
    }
    for _ in 0..1981 {
        text.extend_from_slice(GET)?;
    }
    text.extend_from_slice(b"put +255 262143\n")?;
    Ok(text)
}

fn long_words(heap: Global) -> Result<Vec<u32>, AllocError> {
    let mut words = Vec::new(heap);
    words.push(0xffff_ffff)?;
    words.resize(1024, 0xefff_ffff)?;
    for _ in 0..1981 {
        words.extend_from_slice(&GET_WORDS)?;
    }
    words.push(0x1bff_ffff)?;
    Ok(words)
}

#[test]
fn a_text_of_sixty_thousand_bytes(rt: HostRuntime) -> Result<(), Fail> {
    let text = long_text(rt.alloc())?;
    let words = long_words(rt.alloc())?;
    assert_eq!(rt; text.len(), 60_000);
    assert_eq!(rt; words.len(), 18_854);
    expect_words(&rt, &text, 20_000, &words)?;
    expect_refusal(&rt, &text, 18_853, (3, 3006), "60,000 bytes")
}
