// A lent buffer that a text is written into, from its front on. A writer that has not the room for its text writes nothing.
ghost use Rattle.std.specs.Prelude.{[], ◌∷◌, ◌≡◌, ◌≤◌, length};

// There is no room for the text.
#[derive(Clone, Copy)]
pub struct Full;

pub struct Page<'a> {
    bytes: &'a mut [u8],
    // how many of them are written
    len: usize,
    ghost inside: { len ≤ length bytes.now },
}

// The buffer is given back as the page has it.
impl Drop for Page<'_> {
    fn drop(self)
        ensures { self.exit.0.now ≡ self.entry.bytes.now }
    {
        let Page { bytes: _, len: _ } = self;
    }
}

impl<'a> Page<'a> {
    ghost use Rattle.text.specs.Put.{Put};
    ghost use Rattle.text.specs.Page.{contents};

    pub fn new(bytes: &'a mut [u8]) -> Page<'a>
        ensures empty { (contents result).text ≡ [] }
        ensures rest { (contents result).rest ≡ bytes.old }
        ensures same_buffer { (contents result).lent ≡ bytes.entry.ghost_name }
    {
        Page { bytes, len: 0 }
    }

    // How many bytes there is room for.
    // A writer that must write all or nothing asks for the room that it needs, each for another number, and tests it by itself.
    pub fn room(&self) -> usize
        ensures { result ≡ length (contents self.now).rest }
    {
        self.bytes.len() - self.len
    }

    // What has been written.
    pub fn text(&self) -> &[u8]
        ensures { result.now ≡ (contents self.now).text }
    {
        &self.bytes[..self.len]
    }

    pub fn put_byte(&mut self, byte: u8) -> Result<(), Full>
        ensures { Put (byte ∷ []) (contents self.old) (contents self.new) result }
    {
        self.put_bytes(&[byte])
    }

    pub fn put_bytes(&mut self, text: &[u8]) -> Result<(), Full>
        ensures { Put text.now (contents self.old) (contents self.new) result }
    {
        if self.room() < text.len() {
            return Err(Full);
        }
        let end = self.len + text.len();
        self.bytes[self.len..end].copy_from_slice(text);
        self.len = end;
        Ok(())
    }
}
