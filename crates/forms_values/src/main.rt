// Known values of the functions on forms, each proved from the contract.
#![tactic(auto)]

use bases::Basis;

fn main() {
    check::expect(forms::coordinate(40, 3));
    check::expect(!forms::coordinate(40, 64));
    check::expect(forms::ones(7) == 3);
    check::expect(forms::lead(40) == 5);
    check::expect(forms::lead(0) == 0);
    check::expect(forms::products::product(2, 2, 3, 3) == 15);
    check::expect(forms::products::product(2, 3, 2, 5) == 40);
    check::expect(forms::clear(6, 5) == 3);
    check::expect(forms::clear(0, 5) == 5);
    bases();
}

// The span of 6, 3 and 5 has the reduced basis 5, 3.
fn bases() {
    check::expect(forms::reduce_rows(&[5, 3], 7) == 1);
    let b = bases::basis_of(&[6, 3, 5]);
    check::expect(b.len == 2);
    check::expect(b.reduce(7) == 1);
    check::expect(b.contains(6));
    check::expect(!Basis::empty().contains(6));
}
