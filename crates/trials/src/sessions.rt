// What `grow` prints for an input.
use crate::accepted::EXAMPLE;
use hub::session;
use std::process::Abort;
use std::test::Fail;

const EXAMPLE_LISTING: &str =
    "lattice once width 2\nwords 10\nf0300402\ne800c000\ne8014000\n10000001\n00000000\n20000001\n30000001\n20000001\n30000005\n00000000\n";

fn expect_printed(
    rt: &(impl Abort + AllocGlobal),
    input: &[u8],
    printed: &str,
) -> Result<(), Fail> {
    let answer = session(rt.alloc(), input)?;
    assert_eq!(rt; answer.as_str(), printed);
    Ok(())
}

#[test]
fn words_are_listed(rt: HostRuntime) -> Result<(), Fail> {
    expect_printed(&rt, EXAMPLE.as_bytes(), EXAMPLE_LISTING)?;
    expect_printed(
        &rt,
        b"lattice 78 cells 1023 tasks 0\n",
        "lattice both(set,once) width 10\nwords 1\nf4effc00\n",
    )
}

// How what is printed for a program with this label begins.
fn expect_lattice(rt: &(impl Abort + AllocGlobal), label: u32, printed: &str) -> Result<(), Fail> {
    let text = format!(in rt.alloc(); "lattice {label} cells 1 tasks 0\n")?;
    let answer = session(rt.alloc(), text.as_bytes())?;
    assert!(rt; answer.as_str().starts_with(printed), "label {label}");
    Ok(())
}

#[test]
fn five_lattices_are_served(rt: HostRuntime) -> Result<(), Fail> {
    for label in 0..256 {
        let printed = match label {
            1 => "lattice set width 8\nwords 1\n",
            3 => "lattice once width 2\nwords 1\n",
            4 => "lattice versions width 8\nwords 1\n",
            34 => "lattice lift(peak) width 2\nwords 1\n",
            78 => "lattice both(set,once) width 10\nwords 1\n",
            _ => "refused 6 at 0\n",
        };
        expect_lattice(&rt, label, printed)?;
    }
    Ok(())
}

#[test]
fn refusals_are_printed(rt: HostRuntime) -> Result<(), Fail> {
    for (input, printed) in [
        ("", "refused 1 at 1\n"),
        ("lattice 256 cells 1 tasks 0\n", "refused 2 at 1\n"),
        ("lattice 1 cells 1 tasks 2\ntask 0 0\n", "refused 1 at 3\n"),
        // The text is judged before its label.
        ("lattice 2 cells 1 tasks 0\nput 0\n", "refused 1 at 2\n"),
        ("lattice 2 cells 1 tasks 0\nput 0 0\n", "refused 6 at 0\n"),
    ] {
        expect_printed(&rt, input.as_bytes(), printed)?;
    }
    Ok(())
}

#[test]
fn long_inputs_are_refused(rt: HostRuntime) -> Result<(), Fail> {
    let mut input = Vec::new(rt.alloc());
    input.extend_from_slice(b"lattice 1 cells 1 tasks 0\n")?;
    for _ in 0..8191 {
        input.extend_from_slice(b"end\n")?;
    }
    let full = session(rt.alloc(), &input)?;
    assert!(rt;
        full.as_str()
            .starts_with("lattice set width 8\nwords 8192\nf0100400\n00000000\n")
    );
    input.extend_from_slice(b"end\n")?;
    expect_printed(&rt, &input, "refused 3 at 8193\n")?;
    input.resize(60_000, b'x')?;
    assert_eq!(rt; input.len(), 60_000);
    expect_printed(&rt, &input, "refused 3 at 8193\n")?;
    input.push(b'x')?;
    expect_printed(&rt, &input, "refused 1 at 0\n")
}
