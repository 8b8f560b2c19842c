// Programs and what the rules make of them: each row has the words, and Ok, or the number of the refusal and its place.
use both::Both;
use cases::{END, Full, ONCE_HEAD, SET_HEAD as HEAD, TASK, trigger_cases};
use lattice::Lattice;
use lift::Lift;
use once::Once;
use rules::check;
use set::Set;
use std::alloc::Global;
use std::process::Abort;
use std::test::Fail;

// A program is accepted, or refused with a number at a place: by the numbers that are printed, so that they are tried too.
type Verdict = Result<(), (u32, usize)>;

static OVER_SET: [(&[u32], Verdict); 142] = [
    // No word.
    (&[], Err((4, 0))),
    // Word 0 is of another kind, or its counts are out of range.
    (&[TASK, TASK, END], Err((5, 0))),
    (&[END, TASK, END], Err((5, 0))),
    (&[0x3fff_ffff, TASK, END], Err((5, 0))),
    (&[0xef10_0401, TASK, END], Err((5, 0))),
    (&[0xf010_0001, TASK, END], Err((5, 0))),
    (&[0xf014_0401, TASK, END], Err((5, 0))),
    (&[0xf01f_fc01, TASK, END], Err((5, 0))),
    (&[0xf010_0400, END, END], Err((5, 0))),
    (&[0xf010_0601, TASK, END], Err((5, 0))),
    (&[0xf010_07ff, TASK, END], Err((5, 0))),
    // Another label; the head comes before it.
    (&[0xf000_0401, TASK, END], Err((6, 0))),
    (&[0xf020_0401, TASK, END], Err((6, 0))),
    (&[ONCE_HEAD, TASK, END], Err((6, 0))),
    (&[0xfff0_0401, TASK, END], Err((6, 0))),
    (&[0xf020_0001, TASK, END], Err((5, 0))),
    // A word in the place of a TASK word.
    (&[HEAD, END, END], Err((7, 1))),
    (&[HEAD, 0x1000_0001, END], Err((7, 1))),
    (&[HEAD, HEAD, END], Err((7, 1))),
    (
        &[0xf010_0403, 0xe801_0000, END, 0xe801_0000, END],
        Err((7, 2)),
    ),
    (
        &[0xf010_0403, 0xe801_0000, 0xe801_0000, 0x3000_0001, END],
        Err((7, 3)),
    ),
    (&[0xf010_0402, END, END, END], Err((7, 1))),
    // Too few words; a word of another kind comes first.
    (&[HEAD], Err((7, 1))),
    (&[HEAD, TASK], Err((7, 2))),
    (&[0xf010_0403, 0xe801_0000, 0xe801_0000], Err((7, 3))),
    (&[0xf010_0600, 0xe801_0000], Err((7, 2))),
    (&[0xf010_0403, 0xe801_0000, END], Err((7, 2))),
    // Kinds that are no code.
    (&[HEAD, TASK, 0xa000_0000, END], Err((8, 2))),
    (&[HEAD, TASK, 0xb000_0000, END], Err((8, 2))),
    (&[HEAD, TASK, 0xc000_0000, END], Err((8, 2))),
    (&[HEAD, TASK, 0xd000_0000, END], Err((8, 2))),
    (&[HEAD, TASK, 0xe000_0000, END], Err((8, 2))),
    (&[HEAD, TASK, 0xf000_0000, END], Err((8, 2))),
    // Spare bits: END, GET, TRIG, FREEZE, START, LET.
    (&[HEAD, TASK, 0x0000_0001, END], Err((8, 2))),
    (&[HEAD, TASK, 0x0800_0000], Err((8, 2))),
    (&[HEAD, TASK, END, 0x0000_2000], Err((8, 3))),
    (&[HEAD, TASK, 0x2400_0001, 0x3000_0001, END], Err((8, 2))),
    (&[HEAD, TASK, 0x2000_0011, 0x3000_0001, END], Err((8, 2))),
    (&[HEAD, TASK, 0x2002_0001, 0x3000_0001, END], Err((8, 2))),
    (&[HEAD, TASK, 0x2000_0001, 0x3800_0001, END], Err((8, 3))),
    (&[HEAD, TASK, 0x2000_0001, 0x3004_0001, END], Err((8, 3))),
    (&[HEAD, TASK, 0x2000_0001, 0x3200_0001, END], Err((8, 3))),
    (&[HEAD, TASK, 0x4400_0000, END], Err((8, 2))),
    (&[HEAD, TASK, 0x4000_0001, END], Err((8, 2))),
    (&[HEAD, TASK, 0x4002_0000, END], Err((8, 2))),
    (&[HEAD, TASK, 0x7000_0200, END], Err((8, 2))),
    (&[HEAD, TASK, 0x7800_0000, END], Err((8, 2))),
    (&[HEAD, TASK, 0x8004_0000, END], Err((8, 2))),
    (&[HEAD, TASK, 0x8800_0000, END], Err((8, 2))),
    // A code field beside bit 26.
    (&[HEAD, TASK, 0x1400_0001, END], Err((8, 2))),
    (&[HEAD, TASK, 0x6402_0000, END], Err((8, 2))),
    (&[HEAD, TASK, 0x2000_0001, 0x3400_0002, END], Err((8, 3))),
    (&[HEAD, TASK, 0x1c02_0000, END], Err((8, 2))),
    // Trigger counts of 0, 9 and 15.
    (&[HEAD, TASK, 0x2000_0000, END], Err((8, 2))),
    (
        &[
            HEAD,
            TASK,
            0x2000_0009,
            0x3000_0000,
            0x3000_0001,
            0x3000_0002,
            0x3000_0003,
            0x3000_0004,
            0x3000_0005,
            0x3000_0006,
            0x3000_0007,
            0x3000_0008,
            END,
        ],
        Err((8, 2)),
    ),
    (
        &[
            HEAD,
            TASK,
            0x2000_000f,
            0x3000_0000,
            0x3000_0001,
            0x3000_0002,
            0x3000_0003,
            0x3000_0004,
            0x3000_0005,
            0x3000_0006,
            0x3000_0007,
            0x3000_0008,
            0x3000_0009,
            0x3000_000a,
            0x3000_000b,
            0x3000_000c,
            0x3000_000d,
            0x3000_000e,
            END,
        ],
        Err((8, 2)),
    ),
    // Rows that are too short, or too long.
    (&[HEAD, TASK, 0x2000_0001, END], Err((8, 2))),
    (&[HEAD, TASK, 0x2000_0002, 0x3000_0001, END], Err((8, 2))),
    (
        &[HEAD, TASK, 0x2000_0001, 0x3000_0001, 0x3000_0002, END],
        Err((8, 2)),
    ),
    (
        &[
            HEAD,
            TASK,
            0x2000_0008,
            0x3000_0000,
            0x3000_0001,
            0x3000_0002,
            0x3000_0003,
            0x3000_0004,
            0x3000_0005,
            0x3000_0006,
            0x3000_0007,
            0x3000_0008,
            END,
        ],
        Err((8, 2)),
    ),
    (
        &[
            HEAD,
            TASK,
            0x2000_0002,
            0x3000_0001,
            0x1000_0001,
            0x3000_0002,
            END,
        ],
        Err((8, 2)),
    ),
    (
        &[HEAD, TASK, 0x2000_0001, 0x2000_0001, 0x3000_0001, END],
        Err((8, 2)),
    ),
    // A bad row at the end of the program, and rows that run into the end.
    (
        &[HEAD, TASK, 0x1000_0001, 0x2000_0002, 0x3000_0001],
        Err((8, 3)),
    ),
    (&[HEAD, TASK, 0x2000_0001, 0x3000_0001], Err((8, 4))),
    (&[HEAD, TASK, 0x2000_0008], Err((8, 2))),
    (&[HEAD, TASK, END, 0x2000_0001], Err((8, 3))),
    // A TRIG that no GET counts: first in the code, behind an instruction, at the end.
    (&[HEAD, TASK, 0x3000_0001, END], Err((8, 2))),
    (&[HEAD, TASK, 0x1000_0001, 0x3000_0001, END], Err((8, 3))),
    (&[HEAD, TASK, END, 0x3000_0001], Err((8, 3))),
    (
        &[HEAD, TASK, END, 0x3000_0001, 0x2000_0001, 0x3000_0001, END],
        Err((8, 3)),
    ),
    (&[HEAD, TASK, 0x3000_0001, 0x3000_0002, END], Err((8, 2))),
    (
        &[HEAD, TASK, 0x2000_0001, 0x3000_0001, END, 0x3000_0001, END],
        Err((8, 5)),
    ),
    // A TRIG from R that is not alone.
    (
        &[HEAD, TASK, 0x2000_0002, 0x3400_0000, 0x3000_0001, END],
        Err((8, 2)),
    ),
    (
        &[HEAD, TASK, 0x2000_0002, 0x3000_0001, 0x3400_0000, END],
        Err((8, 2)),
    ),
    (
        &[
            HEAD,
            TASK,
            0x2000_0003,
            0x3400_0000,
            0x3400_0000,
            0x3400_0000,
            END,
        ],
        Err((8, 2)),
    ),
    (
        &[HEAD, TASK, 0x2000_0002, 0x3000_0001, 0x3400_0003, END],
        Err((8, 2)),
    ),
    // The last word is no END.
    (&[HEAD, TASK, 0x1000_0001], Err((8, 3))),
    (&[HEAD, TASK, END, 0x8000_0003], Err((8, 4))),
    (
        &[HEAD, TASK, 0x2000_0001, 0x3000_0001, 0x4000_0000],
        Err((8, 5)),
    ),
    (&[HEAD, TASK, 0x5000_0002], Err((8, 3))),
    // Entries at HEAD, at TASK, at TRIG, past the end.
    (&[HEAD, 0xe800_0000, END], Err((9, 1))),
    (&[HEAD, 0xe800_4000, END], Err((9, 1))),
    (
        &[HEAD, 0xe800_c000, 0x2000_0001, 0x3000_0001, END],
        Err((9, 1)),
    ),
    (&[HEAD, 0xe800_c000, END], Err((9, 1))),
    (&[HEAD, 0xefff_c000, END], Err((9, 1))),
    (&[0xf010_0402, 0xe800_c000, TASK, END], Err((9, 2))),
    (&[0xf010_0402, 0xe800_c000, 0xe001_0000, END], Err((9, 2))),
    // Places of IF and of LOOP.
    (&[HEAD, TASK, 0x5000_0000, END], Err((9, 2))),
    (&[HEAD, TASK, 0x5000_2001, END], Err((9, 2))),
    (&[HEAD, TASK, 0x5fff_e004, END], Err((9, 2))),
    (
        &[HEAD, TASK, 0x5000_2004, 0x2000_0001, 0x3000_0001, END],
        Err((9, 2)),
    ),
    (&[HEAD, TASK, 0x9000_0000, END], Err((9, 2))),
    (&[HEAD, TASK, 0x9001_2001, END], Err((9, 2))),
    (&[HEAD, TASK, 0x9001_3fff, END], Err((9, 2))),
    (
        &[HEAD, TASK, 0x9000_2004, 0x2000_0001, 0x3000_0001, END],
        Err((9, 2)),
    ),
    // Tasks of START.
    (&[HEAD, TASK, 0x7000_0001, END], Err((9, 2))),
    (&[HEAD, TASK, 0x7000_01ff, END], Err((9, 2))),
    (
        &[
            0xf010_0402,
            0xe800_c000,
            0xe800_c000,
            0x7000_0001,
            0x7000_0002,
            END,
        ],
        Err((9, 4)),
    ),
    // Cells that are not there.
    (&[HEAD, TASK, 0x1004_0001, END], Err((9, 2))),
    (&[HEAD, TASK, 0x63fc_0001, END], Err((9, 2))),
    (&[HEAD, TASK, 0x2004_0001, 0x3000_0001, END], Err((9, 2))),
    (&[HEAD, TASK, 0x4004_0000, END], Err((9, 2))),
    (
        &[0xf014_0001, TASK, 0x43fc_0000, END, 0x13fc_0001, END],
        Ok(()),
    ),
    (&[0xf013_fc01, TASK, 0x43fc_0000, END], Err((9, 2))),
    (&[0xf010_0801, TASK, 0x1008_0001, END], Err((9, 2))),
    (
        &[0xf010_0801, TASK, 0x6004_0001, 0x6008_0001, END],
        Err((9, 3)),
    ),
    (
        &[0xf010_0c01, TASK, 0x200c_0001, 0x3400_0000, END],
        Err((9, 2)),
    ),
    // A cell that R is added to, and a code from R, are looked at when they are met.
    (&[HEAD, TASK, 0x1bfc_0001, END], Ok(())),
    (
        &[
            HEAD,
            TASK,
            0x4bfc_0000,
            0x6c24_0000,
            0x2bfc_0001,
            0x3400_0000,
            END,
        ],
        Ok(()),
    ),
    // Codes that are not admitted, in PUT, HAS and TRIG.
    (&[HEAD, TASK, 0x1000_0100, END], Err((10, 2))),
    (&[HEAD, TASK, 0x1000_00ff, 0x1003_ffff, END], Err((10, 3))),
    (&[HEAD, TASK, 0x1bfc_0100, END], Err((10, 2))),
    (&[HEAD, TASK, 0x6000_0100, END], Err((10, 2))),
    (&[HEAD, TASK, END, 0x6003_ffff, END], Err((10, 3))),
    (&[HEAD, TASK, 0x6000_0000, 0x6000_012c, END], Err((10, 3))),
    (&[HEAD, TASK, 0x2000_0001, 0x3000_0100, END], Err((10, 3))),
    (
        &[HEAD, TASK, 0x2000_0002, 0x3000_0001, 0x3000_0100, END],
        Err((10, 4)),
    ),
    (
        &[HEAD, TASK, END, 0x2000_0001, 0x3003_ffff, END],
        Err((10, 4)),
    ),
    // Two triggers that do not clash.
    (
        &[HEAD, TASK, 0x2000_0002, 0x3000_0007, 0x3000_0008, END],
        Err((11, 2)),
    ),
    (
        &[HEAD, TASK, 0x2000_0002, 0x3000_0007, 0x3000_0007, END],
        Err((11, 2)),
    ),
    (
        &[
            HEAD,
            TASK,
            0x2000_0008,
            0x3000_0000,
            0x3000_0001,
            0x3000_0002,
            0x3000_0003,
            0x3000_0004,
            0x3000_0005,
            0x3000_0006,
            0x3000_0007,
            END,
        ],
        Err((11, 2)),
    ),
    (
        &[
            HEAD,
            TASK,
            0x2000_0001,
            0x3000_0007,
            0x2000_0002,
            0x3000_0007,
            0x3000_0008,
            END,
        ],
        Err((11, 4)),
    ),
    // Several rules at once: the lower number comes first, wherever it stands.
    (&[0xf020_0001, END], Err((5, 0))),
    (&[0xf020_0401, END], Err((6, 0))),
    (&[HEAD, END, 0xf000_0000], Err((7, 1))),
    (&[HEAD, END, 0x3000_0001], Err((7, 1))),
    (
        &[HEAD, 0xe800_0000, 0x1024_012c, 0xa000_0000, END],
        Err((8, 3)),
    ),
    (&[HEAD, TASK, 0x1000_012c, 0x1004_0001, END], Err((9, 3))),
    (
        &[
            HEAD,
            TASK,
            0x2000_0002,
            0x3000_0001,
            0x3000_0002,
            0x1000_012c,
            END,
        ],
        Err((10, 5)),
    ),
    (
        &[
            HEAD,
            0xe800_0000,
            0x2004_0002,
            0x3000_0001,
            0x3000_012c,
            END,
        ],
        Err((9, 1)),
    ),
    (
        &[
            HEAD,
            TASK,
            0x2000_0002,
            0x3000_0001,
            0x3000_0002,
            0x1000_0001,
        ],
        Err((8, 6)),
    ),
    // The same rule twice: the first place.
    (&[HEAD, TASK, 0x1004_0001, 0x1008_0001, END], Err((9, 2))),
    (&[HEAD, TASK, 0x0000_0001, 0x0000_0002, END], Err((8, 2))),
    (&[HEAD, TASK, 0x1000_0100, 0x1000_0101, END], Err((10, 2))),
    (
        &[
            HEAD,
            TASK,
            0x2000_0002,
            0x3000_0001,
            0x3000_0002,
            0x2000_0002,
            0x3000_0001,
            0x3000_0002,
            END,
        ],
        Err((11, 2)),
    ),
    (&[0xf010_0402, END, END, END], Err((7, 1))),
    (&[0xf010_0402, 0xe800_0000, 0xe800_4000, END], Err((9, 1))),
    // Programs that break none.
    (&[HEAD, TASK, END], Ok(())),
    (&[HEAD, 0xe000_ffff, END, END], Ok(())),
    (&[HEAD, TASK, 0x2000_0001, 0x3000_00ff, END], Ok(())),
    (&[HEAD, TASK, 0x2000_0001, 0x3400_0000, END], Ok(())),
    (
        &[
            HEAD,
            TASK,
            0x1400_0000,
            0x9000_6002,
            0x5000_2002,
            0x7000_0000,
            0x8003_ffff,
            0x4000_0000,
            0x6000_00ff,
            END,
        ],
        Ok(()),
    ),
];

static OVER_ONCE: [(&[u32], Verdict); 14] = [
    // No word.
    (&[], Err((4, 0))),
    // Two triggers that do not clash: one twice, among others, at the ends of the row.
    (
        &[ONCE_HEAD, TASK, 0x2000_0002, 0x3000_0007, 0x3000_0007, END],
        Err((11, 2)),
    ),
    (
        &[
            ONCE_HEAD,
            TASK,
            0x2000_0003,
            0x3000_0007,
            0x3000_0008,
            0x3000_0007,
            END,
        ],
        Err((11, 2)),
    ),
    (
        &[
            ONCE_HEAD,
            TASK,
            0x2000_0008,
            0x3000_0001,
            0x3000_0002,
            0x3000_0003,
            0x3000_0004,
            0x3000_0005,
            0x3000_0006,
            0x3000_0007,
            0x3000_0001,
            END,
        ],
        Err((11, 2)),
    ),
    (
        &[
            ONCE_HEAD,
            TASK,
            0x2000_0008,
            0x3000_0001,
            0x3000_0002,
            0x3000_0003,
            0x3000_0004,
            0x3000_0005,
            0x3000_0006,
            0x3000_0007,
            0x3000_0007,
            END,
        ],
        Err((11, 2)),
    ),
    (
        &[
            ONCE_HEAD,
            TASK,
            0x2000_0002,
            0x3000_0001,
            0x3000_0002,
            0x2000_0002,
            0x3000_0003,
            0x3000_0003,
            END,
        ],
        Err((11, 5)),
    ),
    // Set's label, and codes that Set does not admit.
    (&[HEAD, TASK, END], Err((6, 0))),
    (&[ONCE_HEAD, TASK, 0x1001_0000, END], Err((10, 2))),
    (
        &[ONCE_HEAD, TASK, 0x2000_0002, 0x3000_0007, 0x3001_0000, END],
        Err((10, 4)),
    ),
    (&[ONCE_HEAD, TASK, 0x6003_ffff, END], Err((10, 2))),
    (&[ONCE_HEAD, TASK, 0x1000_ffff, END], Ok(())),
    // Programs that break none.
    (
        &[ONCE_HEAD, TASK, 0x2000_0002, 0x3000_0007, 0x3000_0008, END],
        Ok(()),
    ),
    (
        &[
            ONCE_HEAD,
            TASK,
            0x2000_0008,
            0x3000_0000,
            0x3000_0001,
            0x3000_0002,
            0x3000_0003,
            0x3000_0004,
            0x3000_0005,
            0x3000_0006,
            0x3000_0007,
            END,
        ],
        Ok(()),
    ),
    (&[ONCE_HEAD, TASK, 0x2000_0001, 0x3400_0000, END], Ok(())),
];

fn judgement<L: Lattice + Drop>(words: &[u32]) -> Verdict {
    check::<L>(words).map_err(|refusal| (refusal.rule.number(), refusal.place))?;
    Ok(())
}

fn expect_judgement<L: Lattice + Drop>(rt: &impl Abort, words: &[u32], verdict: Verdict) {
    assert_eq!(rt; judgement::<L>(words), verdict);
}

fn expect_judgements<L: Lattice + Drop>(rt: &impl Abort, rows: &[(&[u32], Verdict)]) {
    for (at, (words, verdict)) in rows.iter().enumerate() {
        assert_eq!(rt; judgement::<L>(words), *verdict, "row {at}");
    }
}

#[test]
fn the_trigger_cases_stand(rt: HostRuntime) {
    assert!(rt; trigger_cases());
}

#[test]
fn programs_are_judged(rt: HostRuntime) {
    expect_judgements::<Set>(&rt, &OVER_SET);
    expect_judgements::<Once>(&rt, &OVER_ONCE);
}

// A program of so many words, all END behind a task that is started at a place.
fn long_program(heap: Global, entry: u32, count: usize) -> Result<Vec<u32>, Fail> {
    let mut words = Vec::new(heap);
    words.push(HEAD)?;
    words.push(0xe800_0000 | (entry & 0x1fff) << 14)?;
    words.resize(count, END)?;
    Ok(words)
}

#[test]
fn programs_are_judged_at_their_limits(rt: HostRuntime) -> Result<(), Fail> {
    let mut words = long_program(rt.alloc(), 8_191, 8_192)?;
    expect_judgement::<Set>(&rt, &words, Ok(()));
    words.push(END)?;
    expect_judgement::<Set>(&rt, &words, Err((4, 0)));
    expect_judgement::<Once>(&rt, &words, Err((4, 0)));
    expect_judgement::<Set>(&rt, &long_program(rt.alloc(), 8_191, 8_191)?, Err((9, 1)));
    // The last word of 8,192 is a LET.
    let mut words = long_program(rt.alloc(), 2, 8_191)?;
    words.push(0x8000_0000)?;
    expect_judgement::<Set>(&rt, &words, Err((8, 8_192)));
    Ok(())
}

// As many cells and tasks as there may be: a TASK word for each task, and an END at place 513.
#[test]
fn counts_are_told(rt: HostRuntime) -> Result<(), Fail> {
    let mut words = Vec::new(rt.alloc());
    words.push(0xf014_0200)?;
    words.resize(513, 0xe000_0000 | 513 << 14)?;
    expect_judgement::<Set>(&rt, &words, Err((7, 513)));
    words.push(END)?;
    let Ok(counts) = check::<Set>(&words) else {
        return Err(Fail::new("refused"));
    };
    assert_eq!(rt; (counts.cells, counts.tasks), (256, 512));
    // START of the last task.
    words.push(0x7000_01ff)?;
    words.push(END)?;
    expect_judgement::<Set>(&rt, &words, Ok(()));
    Ok(())
}

#[test]
fn wide_lattices_are_refused(rt: HostRuntime) {
    expect_judgement::<Full>(&rt, &[0xf400_0401, TASK, END], Ok(()));
    expect_judgement::<Full>(&rt, &[0xf600_0401, TASK, END], Err((6, 0)));
    // Lift over it has the label 96, and 65 words.
    expect_judgement::<Lift<Full>>(&rt, &[0xf600_0401, TASK, END], Err((6, 0)));
    expect_judgement::<Lift<Full>>(&rt, &[0xf600_0001, TASK, END], Err((5, 0)));
    expect_judgement::<Lift<Lift<Full>>>(&rt, &[0xf800_0401, TASK, END], Err((6, 0)));
    expect_judgement::<Both<Lift<Full>, Lift<Full>>>(&rt, &[0xf400_0401, TASK, END], Err((6, 0)));
    expect_judgement::<Lift<Set>>(&rt, &[0xf210_0401, TASK, END], Ok(()));
}
