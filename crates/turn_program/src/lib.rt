// What the Turn program prints of an input: the file of the turned formula, or the line of a refusal.
// The turning itself: `turning`. Reading and writing is left to the program, `bilinear_turn`.
#![tactic(auto)]

ghost use Rattle.std.specs.Prelude.{◌≡◌, ◌≤◌, length, take};
ghost use Rattle.kinds.specs.Limits.{most_products, most_targets};
ghost use Rattle.formula_check.specs.Buffers.{formula_in};
ghost use Rattle.formula_files.specs.Lent.{formula_reply, Left};
ghost use Rattle.printing.specs.fields.Written.{written_in};
ghost use Rattle.printing.specs.pages.Printed.{page_answer, seen_printed};
ghost use Rattle.printing.specs.refusals.Pages.{formula_page};
ghost use Rattle.turning.specs.Turning.{turned_into};
ghost use Rattle.turn_program.specs.TurnFile.{turn_file, FullHeld};
ghost use Rattle.turn_program.specs.TurnProgram.{turn_program};

use formula_files::Read;
use kinds::Shape;
use printing::pages::Printed;
use words::first_words;

// The turned formula of a full product formula that was read: refused by 12 or 9, or its shape and k, and the buffers u, v and w are filled.
fn turn_read(
    shape: Shape,
    k: u64,
    a: &[u64],
    b: &[u64],
    rows: &[u64],
    u: &mut [u64],
    v: &mut [u64],
    w: &mut [u64],
) -> Read
    requires { FullHeld shape k a.now b.now rows.now }
    ensures { (result ≡ formula_reply (turned_into (length u.old) (length v.old) (length w.old)
        (formula_in shape k a.now b.now rows.now)))
        × Left (turned_into (length u.old) (length v.old) (length w.old)
        (formula_in shape k a.now b.now rows.now)) u.old v.old w.old
        u.new v.new w.new }
{
    let Some((n, _, outputs)) = kinds::sizes_of(shape) else {
        return Read::Refused(3);
    };
    let firsts = first_words(a, k as usize);
    let seconds = first_words(b, k as usize);
    let e = turning::turn_admitted(
        n as usize,
        firsts,
        seconds,
        first_words(rows, outputs as usize),
        u,
        v,
        w,
    );
    if e != 0 {
        return Read::Refused(e);
    }
    Read::Formula(turning::middle(n), k)
}

// The turned formula of a file: the first refusal that applies, or its shape and k, and the buffers u, v and w are filled.
fn turn_file(s: &[u8], u: &mut [u64], v: &mut [u64], w: &mut [u64]) -> Read
    requires { (length u.old ≡ most_products) × (length v.old ≡ most_products) × (length w.old ≡ most_targets) }
    ensures { (result ≡ formula_reply (turn_file s.now))
        × Left (turn_file s.now) u.old v.old w.old u.new v.new w.new }
{
    let Some(head) = text::heads::head_lines(s) else {
        return Read::Refused(1);
    };
    let unfit = turning::turn_refusal(head.kind, head.p, head.q, head.r);
    if unfit != 0 {
        return Read::Refused(unfit);
    }
    let mut a = [0u64; kinds::PRODUCTS];
    let mut b = [0u64; kinds::PRODUCTS];
    let mut rows = [0u64; kinds::TARGETS];
    match formula_files::read_formula(s, &mut a, &mut b, &mut rows) {
        Read::Refused(e) => Read::Refused(e),
        Read::Formula(shape, k) => turn_read(shape, k, &a, &b, &rows, u, v, w),
    }
}

// The text that the Turn program prints of an input, from the start of a page that takes it; its length.
fn turn_whole(file: &[u8], page: &mut [u8]) -> usize
    requires { length page.old ≡ formula_page }
    ensures { (take result page.new ≡ turn_program file.now) × (result ≤ formula_page) }
{
    if text::FILE_BYTES < file.len() {
        return printing::refusals::refused_page(1, page);
    }
    let mut a = [0u64; kinds::PRODUCTS];
    let mut b = [0u64; kinds::PRODUCTS];
    let mut rows = [0u64; kinds::TARGETS];
    match turn_file(file, &mut a, &mut b, &mut rows) {
        Read::Refused(e) => printing::refusals::refused_page(e, page),
        Read::Formula(shape, k) => formula_text::print_formula(shape, k, &a, &b, &rows, page),
    }
}

// What the Turn program prints of an input goes to a lent page, the rest of which stays as it was; a page that is too short is refused by 9. 4,096 bytes
// are always enough.
pub fn turn_program(file: &[u8], page: &mut [u8]) -> Printed
    ensures { (page_answer (turn_program file.now) page.old ≡ seen_printed result)
        × (page.new ≡ written_in (turn_program file.now) page.old)
        × (length (turn_program file.now) ≤ formula_page) }
{
    let mut whole = printing::pages::formula_page();
    let n = turn_whole(file, &mut whole);
    printing::pages::print_page(&whole[..n], page)
}
