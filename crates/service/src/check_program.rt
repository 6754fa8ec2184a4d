// What the Check program prints.
ghost use Rattle.std.specs.Prelude.{◌≡◌, ◌≤◌, length, take};
ghost use Rattle.printing.specs.fields.Written.{written_in};
ghost use Rattle.printing.specs.pages.Printed.{page_answer, seen_printed};
ghost use Rattle.printing.specs.refusals.Pages.{check_page};
ghost use Rattle.service.specs.check_program.CheckProgram.{program_text};

use printing::pages::Printed;

// The text that the Check program prints of an input, from the start of a page that takes it; its length.
fn check_whole(file: &[u8], out: &mut [u8]) -> usize
    requires { length out.old ≡ check_page }
    ensures { (take result out.new ≡ program_text file.now) × (result ≤ check_page) }
{
    if text::FILE_BYTES < file.len() {
        return printing::fields::refused_text(1, out);
    }
    let n = super::gijpsando_check(file, out);
    if 35 < n {
        n
    } else {
        printing::fields::refused_text(n as u64, out)
    }
}

// What the Check program prints of an input goes to a lent page, the rest of which stays as it was; a page that is too short is refused by 9. 256 bytes
// are always enough.
pub fn check_program(file: &[u8], page: &mut [u8]) -> Printed
    ensures { (page_answer (program_text file.now) page.old ≡ seen_printed result)
        × (page.new ≡ written_in (program_text file.now) page.old)
        × (length (program_text file.now) ≤ check_page) }
{
    let mut whole = printing::pages::check_page();
    let n = check_whole(file, &mut whole);
    printing::pages::print_page(&whole[..n], page)
}
