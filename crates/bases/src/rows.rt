// The rows of a formula, by its products reduced once.
ghost use Rattle.std.specs.Prelude.{◌≡◌, ◌≤◌, length};
ghost use Rattle.linear.specs.Basis.{reduce};
ghost use Rattle.linear.specs.Word.{word};
ghost use Rattle.bases.specs.Basis.{most_rows};
ghost use Rattle.bases.specs.rows.Echelon.{taken, Tracks};

// Products reduced once: row i is what is left of product i by the rows before it, and its mask names the products that sum to it.
#[derive(Clone, Copy)]
pub struct Echelon {
    pub rows: [u64; super::ROWS],
    pub masks: [u64; super::ROWS],
}

// What is left of a form, and the mask of the products that sum to what was taken away.
#[derive(Clone, Copy)]
pub struct Rest {
    pub form: u64,
    pub mask: u64,
}

// What the rows leave of `v`, and the sum of the masks of those that were added. `forms::clear` is written out: this is the innermost loop.
pub fn rest_of(rows: &[u64], masks: &[u64], v: u64) -> Rest
    requires { length rows.now ≤ length masks.now }
    ensures { (result.form ≡ reduce word rows.now v) × (result.mask ≡ taken rows.now masks.now v) }
{
    let mut form = v;
    let mut mask = 0;
    for (i, row) in rows.iter().enumerate() {
        let w = form ^ *row;
        if w < form {
            form = w;
            mask ^= masks[i];
        }
    }
    Rest { form, mask }
}

// The products, first to last, each reduced by the rows of those before it.
pub fn echelon_of(products: &[u64]) -> Echelon
    requires { length products.now ≤ most_rows }
    ensures { Tracks products.now result }
{
    let mut rows = [0u64; super::ROWS];
    let mut masks = [0u64; super::ROWS];
    for (i, product) in products.iter().enumerate() {
        let r = rest_of(&rows[..i], &masks[..i], *product);
        rows[i] = r.form;
        masks[i] = r.mask ^ (1u64 << i);
    }
    Echelon { rows, masks }
}
