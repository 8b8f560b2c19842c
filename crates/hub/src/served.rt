// The lattices that a session serves.
ghost use Rattle.std.specs.Prelude.{◌≡◌, ◌==◌};
ghost use Rattle.std.specs.List.{find};
ghost use Rattle.hub.specs.Serving.{label_of, meaning_of, name_of, served_in};

use both::Both;
use lattice::Lattice;
use lift::Lift;
use once::Once;
use peak::Peak;
use set::Set;
use versions::Versions;
use words::{Head, Word};

#[derive(Clone, Copy, Debug, PartialEq, Eq)]
pub(crate) enum Served {
    Set,
    Once,
    Versions,
    LiftPeak,
    BothSetOnce,
}

// All of them: no derive lists variants.
const SERVED: [Served; 5] = [
    Served::Set,
    Served::Once,
    Served::Versions,
    Served::LiftPeak,
    Served::BothSetOnce,
];

// What a session tells of a lattice, and the label that a program names it by.
#[derive(Clone, Copy, Debug, PartialEq, Eq)]
pub(crate) struct Description {
    pub(crate) name: &'static str,
    pub(crate) width: u8,
    label: u8,
}

impl Description {
    fn of<L: Lattice>(name: &'static str) -> Description
        ensures called { result.name.now ≡ name.now }
        ensures wide { result.width ≡ L.meaning.width }
        ensures labelled { result.label ≡ L.meaning.label.value }
    {
        Description {
            name,
            width: L::width(),
            label: L::label(),
        }
    }
}

impl Served {
    // A lattice is a type, and only a match leads from a value to a type.
    pub(crate) fn description(self) -> Description
        ensures called { result.name.now ≡ name_of self }
        ensures wide { result.width ≡ (meaning_of self).width }
        ensures labelled { result.label ≡ label_of self }
    {
        match self {
            Served::Set => Description::of::<Set>("set"),
            Served::Once => Description::of::<Once>("once"),
            Served::Versions => Description::of::<Versions>("versions"),
            Served::LiftPeak => Description::of::<Lift<Peak>>("lift(peak)"),
            Served::BothSetOnce => Description::of::<Both<Set, Once>>("both(set,once)"),
        }
    }

    // The lattice that a program's first word names.
    pub(crate) fn named_in(words: &[u32]) -> Option<Served>
        ensures { result ≡ served_in words.now }
    {
        let head = Head::decode(*words.first()?)?;
        labelled(&SERVED, u8::from(head.label))
    }
}

fn labelled(lattices: &[Served], label: u8) -> Option<Served>
    ensures { result ≡ find (λ s. label == label_of s) lattices.now }
{
    lattices
        .iter()
        .copied()
        .find(|lattice| label == lattice.description().label)
}
