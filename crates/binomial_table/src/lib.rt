// Binomial coefficients from one constant table, whose rule is tested over the whole table once (proofs/Pascal.antt).
#![tactic(auto)]

ghost use Rattle.std.specs.Prelude.{◌≡◌, ◌<◌};
ghost use Rattle.binomial.specs.Choose.{choose};

mod table;

use table::BINOMIALS;

// C(m,j). A lookup rebuilds the table, 12 KB, on the stack: look a binomial up once a layer, and pass the number on.
pub fn binomial(m: usize, j: usize) -> usize
    requires { (m < 256) × (j < 6) }
    ensures { result ≡ choose m j }
{
    BINOMIALS[m * 6 + j]
}
