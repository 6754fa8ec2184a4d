// A page of text: the line of a refusal on it.
ghost use Rattle.std.specs.Prelude.{◌≡◌, ◌≤◌, length, take};
ghost use Rattle.printing.specs.fields.RefusedText.{refused_text};

// The line of a refusal, from the start of a page; its length.
pub fn refused_page(n: u64, page: &mut [u8]) -> usize
    requires { 32 ≤ length page.old }
    ensures { (take result page.new ≡ refused_text n) × (result ≤ 32) }
{
    super::fields::refused_text(n, page)
}
