// The first two lines of a file.
ghost use Rattle.std.specs.Prelude.{◌≡◌, ◌≤◌, length};
ghost use Rattle.text.specs.heads.Head.{count_fields, head_line, head_lines};
ghost use Rattle.text.specs.heads.Views.{seen_head, bytes_head};

use kinds::Kind;

// The four counts of the second line.
fn counts_of(s: &[u8]) -> Option<(u64, u64, u64, u64)>
    ensures { result ≡ count_fields s.now }
{
    let (p, used) = super::field_at(s, b',', 10, 4)?;
    let (q, v) = super::field_at(&s[used..], b',', 10, 4)?;
    let b = used + v;
    let (r, w) = super::field_at(&s[b..], b',', 10, 4)?;
    let d = b + w;
    let k = super::numeral_of(&s[d..], 10, 4)?;
    Some((p, q, r, k))
}

// What the first two lines say, the kind where it is known, and the bytes used.
#[derive(Clone, Copy)]
pub struct Head {
    pub kind: Option<Kind>,
    pub p: u64,
    pub q: u64,
    pub r: u64,
    pub k: u64,
    pub used: usize,
}

// The second line of a file, at the front of s.
fn head_line(s: &[u8]) -> Option<Head>
    ensures { (head_line s.now ≡ seen_head s.now result) × (bytes_head result ≤ length s.now) }
{
    let e = super::cut_at(s, b'\n')?;
    let line = &s[..e];
    let n = super::cut_at(line, b',')?;
    let (p, q, r, k) = counts_of(&line[n + 1..])?;
    let kind = kinds::names::kind_named(&line[..n]);
    Some(Head {
        kind,
        p,
        q,
        r,
        k,
        used: e + 1,
    })
}

// The first two lines of a file; `None` is refusal 1.
pub fn head_lines(s: &[u8]) -> Option<Head>
    ensures { (head_lines s.now ≡ seen_head s.now result) × (bytes_head result ≤ length s.now) }
{
    let used = super::name_line(s, b"kind,p,q,r,k")?;
    let head = head_line(&s[used..])?;
    Some(Head {
        used: used + head.used,
        ..head
    })
}
