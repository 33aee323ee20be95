// A number as its digits, by the kit's own printing.
ghost use Rattle.text.specs.Digits.{decimal, hex};

use crate::{Full, Page};

impl<'a> Page<'a> {
    ghost use Rattle.text.specs.Put.{Put};
    ghost use Rattle.text.specs.Page.{contents};

    // In decimal, with no zero in front.
    // The kit's printing fills a buffer and says how many digits there are.
    pub fn put_decimal(&mut self, n: u64) -> Result<(), Full>
        ensures { Put (decimal n) (contents self.old) (contents self.new) result }
    {
        let mut digits = [0; 20];
        let k = io::decimal(n, &mut digits);
        self.put_bytes(&digits[..k])
    }

    // As eight hex digits, in lower case.
    pub fn put_hex(&mut self, n: u32) -> Result<(), Full>
        ensures { Put (hex n) (contents self.old) (contents self.new) result }
    {
        let mut digits = [0; 16];
        let k = io::hex(u64::from(n), 8, &mut digits);
        self.put_bytes(&digits[..k])
    }
}
