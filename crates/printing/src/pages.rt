// A text handed over on a lent page, and pages of one's own to print it on first.
ghost use Rattle.std.specs.Prelude.{◌≡◌, length};
ghost use Rattle.printing.specs.fields.Written.{written_in};
ghost use Rattle.printing.specs.pages.Printed.{page_answer, seen_printed};
ghost use Rattle.printing.specs.refusals.Pages.{reply_page, check_page, formula_page, part_page};

// What a call that prints on a lent page says: a refusal's number, or how many bytes are printed, from the page's start.
#[derive(Clone, Copy)]
pub enum Printed {
    Refused(u64),
    Bytes(usize),
}

// All of s from the start of a page, the rest as it was; a page that is too short is refused by 9 and stays as it was.
pub fn print_page(s: &[u8], page: &mut [u8]) -> Printed
    ensures { (page_answer s.now page.old ≡ seen_printed result) × (page.new ≡ written_in s.now page.old) }
{
    if page.len() < s.len() {
        return Printed::Refused(9);
    }
    Printed::Bytes(super::put_bytes(s, page, 0))
}

// A page for a whole reply. (A page from a call has a length for the proofs, and no bytes that they would compute.)
pub fn reply_page() -> [u8; super::REPLY_PAGE]
    ensures { reply_page ≡ length result }
{
    [0; super::REPLY_PAGE]
}

// A page for Check's reply.
pub fn check_page() -> [u8; super::CHECK_PAGE]
    ensures { check_page ≡ length result }
{
    [0; super::CHECK_PAGE]
}

// A page for a formula's file.
pub fn formula_page() -> [u8; super::FORMULA_PAGE]
    ensures { formula_page ≡ length result }
{
    [0; super::FORMULA_PAGE]
}

// A page for a part of what the Formulae program prints.
pub fn part_page() -> [u8; super::PART_PAGE]
    ensures { part_page ≡ length result }
{
    [0; super::PART_PAGE]
}
