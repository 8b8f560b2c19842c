// Texts that are refused: each row ends with the number of the refusal and its line.
use crate::accepted::EXAMPLE;
use crate::expect::expect_refusal;
use std::process::Abort;
use std::test::Fail;

// Whole texts.
static TEXTS: [(&str, u32, usize); 48] = [
    // A text with no whole first line.
    ("", 1, 1),
    ("\n", 1, 1),
    ("lattice 1 cells 1 tasks 0", 1, 1),
    ("lattice 256 cells 1 tasks 0", 1, 1),
    // Another line in its place.
    ("\nlattice 1 cells 1 tasks 0\n", 1, 1),
    ("end\n", 1, 1),
    ("task 0 0\n", 1, 1),
    ("put 0 1\n", 1, 1),
    ("Lattice 1 cells 1 tasks 0\n", 1, 1),
    ("lattices 1 cells 1 tasks 0\n", 1, 1),
    // Its fields: too few, too many, others.
    ("lattice\n", 1, 1),
    ("lattice 1\n", 1, 1),
    ("lattice 1 cells\n", 1, 1),
    ("lattice 1 cells 1\n", 1, 1),
    ("lattice 1 cells 1 tasks\n", 1, 1),
    ("lattice cells 1 tasks 0\n", 1, 1),
    ("lattice 1 1 0\n", 1, 1),
    ("lattice 1 tasks 0 cells 1\n", 1, 1),
    ("lattice 1 cells 1 tasks 0 0\n", 1, 1),
    ("lattice 1 CELLS 1 tasks 0\n", 1, 1),
    ("lattice r cells 1 tasks 0\n", 1, 1),
    ("lattice 1 cells +1 tasks 0\n", 1, 1),
    // Its spaces.
    (" lattice 1 cells 1 tasks 0\n", 1, 1),
    ("lattice  1 cells 1 tasks 0\n", 1, 1),
    ("lattice 1 cells 1  tasks 0\n", 1, 1),
    ("lattice 1 cells 1 tasks 0 \n", 1, 1),
    ("lattice\t1 cells 1 tasks 0\n", 1, 1),
    ("lattice 1 cells 1 tasks 0\r\n", 1, 1),
    // Its numbers.
    ("lattice 01 cells 1 tasks 0\n", 1, 1),
    ("lattice 1 cells 00 tasks 0\n", 1, 1),
    ("lattice 1 cells 1 tasks 1000000000\n", 1, 1),
    ("lattice 1 cells 1 tasks -1\n", 1, 1),
    ("lattice 256 cells 1 tasks 0\n", 2, 1),
    ("lattice 1 cells 1024 tasks 0\n", 2, 1),
    ("lattice 1 cells 1 tasks 1024\n", 2, 1),
    ("lattice 999999999 cells 1 tasks 0\n", 2, 1),
    ("lattice 256 cells 01 tasks 0\n", 1, 1),
    ("lattice 256 cells 1 tasks 0 0\n", 1, 1),
    // A text that ends among the task lines.
    ("lattice 1 cells 1 tasks 1\n", 1, 2),
    ("lattice 1 cells 1 tasks 1023\n", 1, 2),
    ("lattice 1 cells 1 tasks 1\ntask 0 0", 1, 2),
    ("lattice 1 cells 1 tasks 3\ntask 0 0\nidle 0 0\n", 1, 4),
    // Another line in the place of a task line, or a task line in the place of code.
    ("lattice 1 cells 1 tasks 1\n\n", 1, 2),
    ("lattice 1 cells 1 tasks 1\nend\n", 1, 2),
    (
        "lattice 1 cells 1 tasks 1\nlattice 1 cells 1 tasks 1\n",
        1,
        2,
    ),
    ("lattice 1 cells 1 tasks 1\nTask 0 0\n", 1, 2),
    ("lattice 1 cells 1 tasks 0\ntask 0 0\n", 1, 2),
    ("lattice 1 cells 1 tasks 1\ntask 0 0\nidle 0 0\n", 1, 3),
];

// What stands behind `lattice 1 cells 1 tasks 1`.
static TASK_LINES: [(&str, u32, usize); 23] = [
    // Fields of a task line.
    ("task\n", 1, 2),
    ("task 0\n", 1, 2),
    ("task 0 0 0\n", 1, 2),
    ("idle\n", 1, 2),
    ("idle 0\n", 1, 2),
    ("idle 0 0 0\n", 1, 2),
    ("task +0 0\n", 1, 2),
    ("task 0 r\n", 1, 2),
    // Spaces of a task line.
    (" task 0 0\n", 1, 2),
    ("task  0 0\n", 1, 2),
    ("idle 0  0\n", 1, 2),
    ("idle 0 0 \n", 1, 2),
    ("task\t0 0\n", 1, 2),
    ("task 0 0\r\n", 1, 2),
    // Numbers of a task line.
    ("task 00 0\n", 1, 2),
    ("idle 0 01\n", 1, 2),
    ("task 0 1000000000\n", 1, 2),
    ("task 8192 0\n", 2, 2),
    ("task 0 16384\n", 2, 2),
    ("idle 8192 0\n", 2, 2),
    ("idle 0 16384\n", 2, 2),
    ("task 8192 x\n", 1, 2),
    ("idle x 16384\n", 1, 2),
];

// What stands behind `lattice 1 cells 1 tasks 0`.
static CODE: [(&str, u32, usize); 133] = [
    // No line of code.
    ("\n", 1, 2),
    (" \n", 1, 2),
    ("end", 1, 2),
    ("put 0 262144", 1, 2),
    ("stop\n", 1, 2),
    ("END\n", 1, 2),
    ("Put 0 1\n", 1, 2),
    ("ends\n", 1, 2),
    ("e\n", 1, 2),
    ("r\n", 1, 2),
    ("0\n", 1, 2),
    ("lattice 1 cells 1 tasks 0\n", 1, 2),
    // `end`
    ("end 0\n", 1, 2),
    (" end\n", 1, 2),
    ("end \n", 1, 2),
    ("end\t\n", 1, 2),
    ("end\r\n", 1, 2),
    // `put`
    ("put\n", 1, 2),
    ("put 0\n", 1, 2),
    ("put 0 1 2\n", 1, 2),
    (" put 0 1\n", 1, 2),
    ("put  0 1\n", 1, 2),
    ("put 0  1\n", 1, 2),
    ("put 0 1 \n", 1, 2),
    ("put 0\t1\n", 1, 2),
    ("put0 1\n", 1, 2),
    ("put 00 1\n", 1, 2),
    ("put 0 01\n", 1, 2),
    ("put +01 1\n", 1, 2),
    ("put 1000000000 1\n", 1, 2),
    ("put +1000000000 1\n", 1, 2),
    ("put 0 1000000000\n", 1, 2),
    ("put + 1\n", 1, 2),
    ("put + 0 1\n", 1, 2),
    ("put +r 1\n", 1, 2),
    ("put r 1\n", 1, 2),
    ("put ++0 1\n", 1, 2),
    ("put 0 +1\n", 1, 2),
    ("put 0 R\n", 1, 2),
    ("put 0 rr\n", 1, 2),
    ("put 0 r1\n", 1, 2),
    ("put 0 1r\n", 1, 2),
    ("put 0 -1\n", 1, 2),
    ("put 256 1\n", 2, 2),
    ("put +256 1\n", 2, 2),
    ("put 256 r\n", 2, 2),
    ("put 0 262144\n", 2, 2),
    ("put 0 999999999\n", 2, 2),
    ("put 256 01\n", 1, 2),
    ("put r 262144\n", 1, 2),
    ("put 256 262144 1\n", 1, 2),
    // `get`
    ("get\n", 1, 2),
    ("get 0\n", 1, 2),
    ("get 0 \n", 1, 2),
    ("get 0 1 2 3 4 5 6 7 8 9\n", 1, 2),
    ("get  0 1\n", 1, 2),
    ("get 0  1\n", 1, 2),
    ("get 0 1  2\n", 1, 2),
    ("get 0 1 \n", 1, 2),
    ("get 0 1 2 3 4 5 6 7 8 \n", 1, 2),
    ("get r 1\n", 1, 2),
    ("get + 1\n", 1, 2),
    ("get +r 1\n", 1, 2),
    ("get 0 +1\n", 1, 2),
    ("get 0 1 02\n", 1, 2),
    ("get 0 1 x\n", 1, 2),
    ("get 256 1\n", 2, 2),
    ("get +256 1\n", 2, 2),
    ("get 0 262144\n", 2, 2),
    ("get 0 1 2 3 4 5 6 7 262144\n", 2, 2),
    ("get 256 1 x\n", 1, 2),
    ("get 0 262144 1 2 3 4 5 6 7 8\n", 1, 2),
    // `freeze`
    ("freeze\n", 1, 2),
    ("freeze 0 0\n", 1, 2),
    ("freeze r\n", 1, 2),
    ("freeze +\n", 1, 2),
    ("freeze 00\n", 1, 2),
    ("freeze 256\n", 2, 2),
    ("freeze +256\n", 2, 2),
    ("freeze 256 \n", 1, 2),
    // `if`
    ("if\n", 1, 2),
    ("if 0\n", 1, 2),
    ("if 0 0 0\n", 1, 2),
    ("if r 0\n", 1, 2),
    ("if 0 +0\n", 1, 2),
    ("if 0 00\n", 1, 2),
    ("if 32768 0\n", 2, 2),
    ("if 0 8192\n", 2, 2),
    ("if 32768 x\n", 1, 2),
    // `has`
    ("has\n", 1, 2),
    ("has 0\n", 1, 2),
    ("has 0 1 2\n", 1, 2),
    ("has r 1\n", 1, 2),
    ("has 0 +1\n", 1, 2),
    ("has 0 01\n", 1, 2),
    ("has 256 1\n", 2, 2),
    ("has +256 1\n", 2, 2),
    ("has 0 262144\n", 2, 2),
    ("has x 262144\n", 1, 2),
    // `start`
    ("start\n", 1, 2),
    ("start 0 0\n", 1, 2),
    ("start r\n", 1, 2),
    ("start +0\n", 1, 2),
    ("start 00\n", 1, 2),
    ("start 512\n", 2, 2),
    ("start 512 0\n", 1, 2),
    // `let`
    ("let\n", 1, 2),
    ("let 0 0\n", 1, 2),
    ("let r\n", 1, 2),
    ("let +0\n", 1, 2),
    ("let 00\n", 1, 2),
    ("let 262144\n", 2, 2),
    ("let 262144 0\n", 1, 2),
    // `loop`
    ("loop\n", 1, 2),
    ("loop 0\n", 1, 2),
    ("loop 0 0 0\n", 1, 2),
    ("loop r 0\n", 1, 2),
    ("loop 0 +0\n", 1, 2),
    ("loop 00 0\n", 1, 2),
    ("loop 32768 0\n", 2, 2),
    ("loop 0 8192\n", 2, 2),
    ("loop x 8192\n", 1, 2),
    // Bytes that no line has.
    ("\0end\n", 1, 2),
    ("end\0\n", 1, 2),
    ("\u{e9}nd\n", 1, 2),
    ("put 0 \u{b1}\n", 1, 2),
    ("put\u{a0}0 1\n", 1, 2),
    // The first line that is bad, among others.
    ("end\nend", 1, 3),
    ("end\n\n", 1, 3),
    ("get 0 1 2 3\nput 0\n", 1, 3),
    ("end\nput 0\nput 256 1\n", 1, 3),
    ("end\nput 256 1\nput 0\n", 2, 3),
    ("end\nend\nend\nlet 262144\nend\n", 2, 5),
];

// Whole texts, each with the words that there is room for.
static SHORT: [(&str, usize, u32, usize); 21] = [
    // No room at all.
    ("lattice 1 cells 1 tasks 0\n", 0, 3, 1),
    ("lattice 1 cells 1 tasks 1\ntask 0 0\nend\n", 0, 3, 1),
    // Room for all words but one.
    ("lattice 1 cells 1 tasks 1\ntask 0 0\n", 1, 3, 2),
    ("lattice 1 cells 1 tasks 0\nend\n", 1, 3, 2),
    (
        "lattice 1 cells 1 tasks 0\nput 0 1\nfreeze 0\nend\n",
        3,
        3,
        4,
    ),
    (EXAMPLE, 9, 3, 8),
    // No room for a `get` and all its triggers.
    (EXAMPLE, 8, 3, 7),
    (EXAMPLE, 7, 3, 7),
    (EXAMPLE, 6, 3, 6),
    ("lattice 1 cells 1 tasks 0\nget 0 1\n", 2, 3, 2),
    (
        "lattice 1 cells 1 tasks 0\nget 0 1 2 3 4 5 6 7 8\n",
        9,
        3,
        2,
    ),
    (
        "lattice 1 cells 1 tasks 0\nend\nget 0 1 2 3 4 5 6 7 8\nend\n",
        3,
        3,
        3,
    ),
    // A bad line comes before a later one that finds no room.
    ("lattice 1 cells 1 tasks 0\nend\nput 0\nend\nend\n", 3, 1, 3),
    (
        "lattice 1 cells 1 tasks 0\nend\nput 256 1\nend\nend\n",
        3,
        2,
        3,
    ),
    // A line that finds no room comes before a later one that is bad.
    ("lattice 1 cells 1 tasks 0\nend\nend\nput 0\n", 2, 3, 3),
    ("lattice 1 cells 1 tasks 2\ntask 0 0\n", 1, 3, 2),
    // A bad line finds no room, or the text ends where there is none.
    ("", 0, 1, 1),
    ("lattice 256 cells 1 tasks 0\n", 0, 2, 1),
    ("lattice 1 cells 1 tasks 0\nput 256 1\n", 1, 2, 2),
    ("lattice 1 cells 1 tasks 0\nget 0 1 x\n", 1, 1, 2),
    ("lattice 1 cells 1 tasks 2\ntask 0 0\n", 2, 1, 3),
];

// Each row is refused behind the lines `before`.
fn expect_refusals(
    rt: &(impl Abort + AllocGlobal),
    before: &str,
    rows: &[(&str, u32, usize)],
) -> Result<(), Fail> {
    for (rest, number, line) in rows {
        let text = format!(in rt.alloc(); "{before}{rest}")?;
        expect_refusal(rt, text.as_bytes(), 64, (*number, *line), *rest)?;
    }
    Ok(())
}

#[test]
fn damaged_texts_are_refused(rt: HostRuntime) -> Result<(), Fail> {
    expect_refusals(&rt, "", &TEXTS)?;
    expect_refusals(&rt, "lattice 1 cells 1 tasks 1\n", &TASK_LINES)?;
    expect_refusals(&rt, "lattice 1 cells 1 tasks 0\n", &CODE)
}

#[test]
fn short_buffers_are_refused(rt: HostRuntime) -> Result<(), Fail> {
    for (text, room, number, line) in &SHORT {
        expect_refusal(&rt, text.as_bytes(), *room, (*number, *line), *text)?;
    }
    Ok(())
}
