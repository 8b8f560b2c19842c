// A reading as a value of a lattice.
ghost use Rattle.std.specs.Prelude.{◌≡◌, ◌<◌, pos, ◌-ℤ◌};
ghost use Rattle.meanings.specs.Peaks.{peak_meaning};
ghost use Rattle.meanings.proofs.PeakLaws.{peak_laws};
ghost use Rattle.peak.specs.Means.{read_by};

use crate::Peak;
use bits::Code;
use lattice::Lattice;

// Code 0 is the lowest reading, -400 tenths.
const LOWEST: i16 = -400;

const LAST_CODE: u32 = 1_600;

// The reading of an admitted code.
fn tenths(code: u32) -> i16
    requires { code < 1601 }
    ensures { result ≡ pos code -ℤ pos 400 }
{
    code as i16 + LOWEST
}

impl Lattice for Peak {
    ghost meaning = { peak_meaning };

    ghost means = { read_by };

    ghost laws = { peak_laws };

    fn bottom() -> Peak {
        Peak { tenths: LOWEST }
    }

    fn admits(code: Code) -> bool {
        code.get() <= LAST_CODE
    }

    #[tactic(auto, using(meanings::proofs::PeakLaws::same_reading, meanings::proofs::PeakLaws::reading_tenths))]
    fn value(code: Code) -> Peak {
        if Self::admits(code) {
            return Peak {
                tenths: tenths(code.get()),
            };
        }
        Self::bottom()
    }

    fn clashes(&self, _other: &Peak) -> bool {
        false
    }

    #[tactic(auto, using(meanings::proofs::PeakLaws::same_reading))]
    fn join(&mut self, other: Peak) {
        *self = (*self).max(other);
    }

    fn is_below(&self, other: &Peak) -> bool {
        self <= other
    }

    fn label() -> u8 {
        2
    }

    fn width() -> u8 {
        1
    }

    fn word(&self, i: u8) -> u32 {
        if i == 0 {
            (self.tenths - LOWEST) as u32
        } else {
            0
        }
    }
}
