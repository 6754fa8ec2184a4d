// The adders of one side's masks: a sum that is wired once is counted once.
ghost use Rattle.std.specs.Prelude.{◌≡◌, ◌*◌, ◌%◌, ◌<◌, ◌≤◌, length};
ghost use Rattle.formula_check.specs.sums.Sums.{side_adders};
ghost use Rattle.formula_check.specs.sides.Sides.{mask_slots, Entering, MaskAdded};
ghost use Rattle.kinds.specs.Limits.{most_products};

// Slots of the table of masks (`mask_slots`).
const SLOTS: usize = 269;

// Where the slot of a mask is looked for first: its remainder. Most masks have eight bits or fewer and are their own.
fn first_slot(x: u64) -> usize
    ensures { (result ≡ x % mask_slots) × (result < mask_slots) }
{
    if x < SLOTS as u64 {
        x as usize
    } else {
        (x % SLOTS as u64) as usize
    }
}

// What mask i adds to the adders of those after it: of w ones w - 1, nothing where an equal one is among them. `slots` has those after it, and then this one.
fn mask_adders(masks: &[u64], i: usize, slots: &mut [u16]) -> u64
    requires { Entering masks.now i slots.old }
    ensures { MaskAdded masks.now i slots.new result }
{
    let x = masks[i];
    let w = forms::ones(x) as u64;
    if w < 2 {
        return 0;
    }
    let q = words::tables::seek(slots, masks, first_slot(x), x);
    if q == SLOTS {
        return if words::lists::stands_from(x, masks, i + 1) {
            0
        } else {
            w - 1
        };
    }
    if slots[q] != 0 {
        return 0;
    }
    slots[q] = (i + 1) as u16;
    w - 1
}

// The adders of a side: of each distinct mask with w ones w - 1.
pub fn side_adders(masks: &[u64]) -> u64
    requires { length masks.now ≤ most_products }
    ensures { (result ≡ side_adders masks.now) × (result ≤ most_products * 64) }
{
    let mut slots = [0u16; SLOTS];
    let mut sum: u64 = 0;
    for i in (0..masks.len()).rev() {
        sum += mask_adders(masks, i, &mut slots);
    }
    sum
}
