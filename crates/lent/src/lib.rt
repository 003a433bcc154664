// A lent list of bytes that is written from a place on: each call writes at the place and moves it on.
#![tactic(auto)]

ghost use Rattle.std.specs.Prelude.{◌≡◌, [], ◌∷◌, ◌<◌, length};
ghost use Rattle.lent.specs.Writes.{Fits, Writes};

// A lent list, and the place where the next byte is written.
#[derive(Drop)]
pub struct Writer<'a> {
    pub out: &'a mut [u8],
    pub at: usize,
}

impl<'a> Writer<'a> {
    // Writes from the start of a lent list.
    pub fn new(out: &'a mut [u8]) -> Writer<'a>
        ensures same { result.out.ghost_name ≡ out.entry.ghost_name }
        ensures list { result.out.now ≡ out.old }
        ensures start { result.at ≡ 0 }
    {
        Writer { out, at: 0 }
    }

    // One byte.
    pub fn byte(&mut self, byte: u8)
        requires { self.old.at < length self.old.out.now }
        ensures { Writes (byte ∷ []) self.old self.new }
    {
        self.out[self.at] = byte;
        self.at += 1;
    }

    // The bytes of a list.
    pub fn bytes(&mut self, bytes: &[u8])
        requires { Fits bytes.now self.old }
        ensures { Writes bytes.now self.old self.new }
    {
        let end = self.at + bytes.len();
        self.out[self.at..end].copy_from_slice(bytes);
        self.at = end;
    }
}
