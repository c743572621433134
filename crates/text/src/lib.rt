// Lines of text on a lent page. Each function puts its text from a place on, as far as the page has room, and answers the next place.
// These functions of a page and a place are promised as they stand (docs/PROMISES.md). `Page` has its place with it.
#![tactic(auto)]

ghost use Rattle.text.specs.Text.{Written, decimal, hex, line};
ghost use Rattle.text.specs.Page.{Puts};

// Bytes.
pub fn put(page: &mut [u8], at: usize, bytes: &[u8]) -> usize
    ensures { Written page.old at bytes.now page.new result }
{
    if page.len() <= at {
        return at;
    }
    let n = bytes.len().min(page.len() - at);
    page[at..at + n].copy_from_slice(&bytes[..n]);
    at + n
}

// A number in decimal.
#[tactic(auto, using(crate::proofs::PlacesLaws::decimal_is, crate::proofs::WrittenLaws::same))]
pub fn decimal(page: &mut [u8], at: usize, n: u32) -> usize
    ensures { Written page.old at (decimal n) page.new result }
{
    let mut text = [0u8; 20];
    let k = io::decimal(n as u64, &mut text);
    put(page, at, &text[..k])
}

// A number as eight hexadecimal digits.
#[tactic(auto, using(crate::proofs::PlacesLaws::hex_is, crate::proofs::WrittenLaws::same))]
pub fn hex(page: &mut [u8], at: usize, w: u32) -> usize
    ensures { Written page.old at (hex w) page.new result }
{
    let mut text = [0u8; 16];
    let k = io::hex(w as u64, 8, &mut text);
    put(page, at, &text[..k])
}

// A name, a space, a number, and the line's end.
pub fn line(page: &mut [u8], at: usize, name: &[u8], n: u32) -> usize
    ensures { Written page.old at (line name.now n) page.new result }
{
    let mut page = Page { bytes: page, at };
    page.line(name, n);
    page.at
}

// A lent page and the place behind what stands on it. Each text is put there, and the place is then behind it.
// (`write!` is known only for a writer to which each call appends; a page takes what it has room for.)
#[derive(Drop)]
pub struct Page<'a> {
    pub bytes: &'a mut [u8],
    pub at: usize,
}

impl Page<'_> {
    pub fn put(&mut self, bytes: &[u8])
        ensures { Puts self.old bytes.now self.new }
    {
        self.at = put(self.bytes, self.at, bytes);
    }

    pub fn decimal(&mut self, n: u32)
        ensures { Puts self.old (decimal n) self.new }
    {
        self.at = decimal(self.bytes, self.at, n);
    }

    pub fn hex(&mut self, w: u32)
        ensures { Puts self.old (hex w) self.new }
    {
        self.at = hex(self.bytes, self.at, w);
    }

    // A name, a space, a number, and the line's end.
    pub fn line(&mut self, name: &[u8], n: u32)
        ensures { Puts self.old (line name.now n) self.new }
    {
        self.put(name);
        self.put(b" ");
        self.decimal(n);
        self.put(b"\n");
    }
}
