// The parts of a formula: the forms of its products, the sums that its rows name, and its adders.
ghost use Rattle.std.specs.Prelude.{◌≡◌, ◌*◌, ◌≤◌, length};
ghost use Rattle.forms.specs.Row.{row_form};
ghost use Rattle.formula_check.specs.sums.Sums.{FormsFilled, product_forms, adders_of};
ghost use Rattle.kinds.specs.Limits.{most_products};

// The adders of some masks: of w ones w - 1, of none 0.
pub fn adders_of(masks: &[u64]) -> u64
    requires { length masks.now ≤ most_products }
    ensures { (result ≡ adders_of masks.now) × (result ≤ most_products * 64) }
{
    let mut sum: u64 = 0;
    for mask in masks {
        sum += (forms::ones(*mask) as u64).saturating_sub(1);
    }
    sum
}

// The forms of the products, from the buffer's start.
pub fn product_forms(n: usize, m: usize, a: &[u64], b: &[u64], out: &mut [u64; kinds::PRODUCTS])
    requires { (length a.now ≡ length b.now) × (length a.now ≤ most_products) × (length out.old ≡ most_products) }
    ensures { FormsFilled (product_forms n m a.now b.now) (length a.now) out.new }
{
    for (i, x) in a.iter().enumerate() {
        out[i] = forms::products::product(n, m, *x, b[i]);
    }
}

// The sum of the forms that the row names.
pub fn row_form(forms: &[u64], row: u64) -> u64
    requires { length forms.now ≤ most_products }
    ensures { result ≡ row_form forms.now row 0 }
{
    let mut sum: u64 = 0;
    for (i, form) in forms.iter().enumerate() {
        if (row >> i) & 1 == 1 {
            sum ^= *form;
        }
    }
    sum
}
