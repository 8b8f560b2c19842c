// Codes taken together.
ghost use Rattle.std.specs.Prelude.{◌≡◌, true, false, MatchOption};
ghost use Rattle.lattice.specs.Order.{Gathered, Order};

use crate::Lattice;
use bits::Code;

// The join of the values of some codes, or none where they clash.
#[tactic(auto, using(crate::proofs::Order::order, crate::proofs::Together::least_more, crate::proofs::Together::none_above))]
pub fn gather<L: Lattice + Drop>(codes: &[Code]) -> Option<L>
    ensures least { Gathered L.meaning L.means codes.now result }
    ensures order { Order L.meaning }
{
    let mut content = L::bottom();
    for code in codes {
        content = joined(content, *code)?;
    }
    Some(content)
}

// A content with the value of a code joined into it, or none where they clash.
fn joined<L: Lattice + Drop>(mut content: L, code: Code) -> Option<L>
    ensures { MatchOption result (L.meaning.clash (L.means content) (L.meaning.value code) ≡ true) (λ joint. (L.meaning.clash (L.means content) (L.meaning.value code) ≡ false) × (L.means joint ≡ L.meaning.join (L.means content) (L.meaning.value code))) }
{
    let value = L::value(code);
    if content.clashes(&value) {
        return None;
    }
    content.join(value);
    Some(content)
}
