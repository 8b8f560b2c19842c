// The words of a program, as a session prints them.
ghost use Rattle.std.specs.Prelude.{Some};
ghost use Rattle.hub.specs.Session.{listed};

use crate::served::Served;
use std::fmt;

#[derive(Clone, Copy, Debug, PartialEq, Eq)]
pub(crate) struct Listing<'a> {
    pub(crate) served: Served,
    pub(crate) words: &'a [u32],
}

impl fmt::Display for Listing<'_> {
    ghost output = { λ listing. Some (listed listing.served listing.words.now) };

    fn fmt<W: fmt::Write>(&self, f: &mut fmt::Formatter<W>) -> fmt::Result {
        let lattice = self.served.description();
        let name = lattice.name;
        let width = lattice.width;
        let count = self.words.len();
        write!(f, "lattice {name} width {width}\nwords {count}\n")?;
        for &word in self.words {
            writeln!(f, "{word:08x}")?;
        }
        Ok(())
    }
}
